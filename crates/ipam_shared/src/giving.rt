//! What is given to a keeper for a call: first what was in doubt is put back, then what the call writes.
ghost use Rattle.std.specs.Prelude.{◌≡◌, ◌⊎◌, ◌≤◌, Some, None, IfOk, OnOk, OnErr};
ghost use Rattle.std.specs.Option.{option_copied};
ghost use Rattle.ipam_io.specs.Counts.{Rose};
ghost use Rattle.ipam_keeper.specs.Keeping.{IsOldOrNew, OnFailed, OnMemory, SettlesOrNot, UnlessFailed};
ghost use Rattle.ipam_model.specs.Opened.{text_of};
ghost use Rattle.ipam_records.specs.Datastore.{row_of};
ghost use Rattle.ipam_records.specs.KeyText.{key_bytes};
ghost use Rattle.ipam_shared.specs.Giving.{FailsBack, FailsWith, SettlesGiven, StayKept, WereGiven, known_after};
ghost use Rattle.ipam_shared.specs.Rows.{change_of, putting_back, row_back, row_of_read_key, texts_written};

use crate::write::RowWrite;
use ipam_keeper::{KeepFault, Keeper};
use ipam_records::{Call, Key, Record, Reply, Row, Write, key_of_text, key_text, to_text};
use ipam_store::Store;
use ipam_text::Text;
use std::alloc::{AllocError, Global};

/// Gives the keeper all that it needs for a call that writes this, if anything. Where the keeper fails,
/// the write that it was given last is in doubt.
pub(crate) fn give<D: Keeper>(
    alloc: Global,
    store: &Store,
    keeper: &mut D,
    doubt: &mut Option<RowWrite>,
    write: Option<&Write>,
) -> Result<(), KeepFault>
    ensures sure { OnOk result (doubt.new ≡ None) }
    ensures given { OnOk result (WereGiven (option_copied write.entry) store.now.store (D.rows keeper.old) doubt.old (D.rows keeper.new)) }
    ensures kept { OnErr result (StayKept store.now.store (D.rows keeper.old) doubt.old (D.rows keeper.new) doubt.new) }
    ensures failed { OnFailed result (FailsWith D.given (option_copied write.entry) store.now.store
        doubt.old doubt.new keeper.old keeper.new) }
    ensures memory { OnMemory result ((doubt.new ≡ doubt.old) ⊎ (doubt.new ≡ None)) }
    ensures settled { SettlesGiven store.now.store (D.rows keeper.old) doubt.old
        (D.settled keeper.old) (D.settled keeper.new) (D.rows keeper.new) }

    ensures fault { OnFailed result (Rose (D.faults keeper.old) (D.faults keeper.new)) }
    ensures no_fault { UnlessFailed result (D.faults keeper.new ≡ D.faults keeper.old) }
    ensures same { D.name keeper.new ≡ D.name keeper.old }
{
    put_back(alloc, store, keeper, doubt)?;
    match write {
        Some(write) => give_write(alloc, keeper, doubt, write),
        None => Ok(()),
    }
}

/// Puts back the row that is in doubt, if one is.
fn put_back<D: Keeper>(
    alloc: Global,
    store: &Store,
    keeper: &mut D,
    doubt: &mut Option<RowWrite>,
) -> Result<(), KeepFault>
    ensures sure { OnOk result (doubt.new ≡ None) }
    ensures nothing { doubt.old ≡ None → keeper.new ≡ keeper.old }
    ensures failed { OnFailed result (FailsBack D.given store.now.store doubt.old doubt.new keeper.old keeper.new) }
    ensures still { OnErr result (doubt.new ≡ doubt.old) }
    ensures kept { StayKept store.now.store (D.rows keeper.old) doubt.old (D.rows keeper.new) doubt.new }
    ensures settled { SettlesOrNot (D.settled keeper.old) (D.settled keeper.new) (D.rows keeper.new) }

    ensures fault { OnFailed result (Rose (D.faults keeper.old) (D.faults keeper.new)) }
    ensures no_fault { UnlessFailed result (D.faults keeper.new ≡ D.faults keeper.old) }
    ensures same { D.name keeper.new ≡ D.name keeper.old }
{
    let Some(failed) = doubt else {
        return Ok(());
    };
    let Ok(back) = row_back(alloc, store, failed.key()) else {
        return Err(KeepFault::Memory);
    };
    give_row(keeper, &back)?;
    *doubt = None;
    Ok(())
}

/// Gives the keeper the write. Where the keeper fails, it is in doubt.
fn give_write<D: Keeper>(
    alloc: Global,
    keeper: &mut D,
    doubt: &mut Option<RowWrite>,
    write: &Write,
) -> Result<(), KeepFault>
    requires { doubt.old ≡ None }
    ensures done { OnOk result (D.rows keeper.new ≡ known_after (texts_written write.now) (D.rows keeper.old)) }
    ensures old_or_new { OnFailed result (IsOldOrNew (D.rows keeper.old)
        (known_after (texts_written write.now) (D.rows keeper.old)) (D.rows keeper.new)) }
    ensures unchanged { OnMemory result (D.rows keeper.new ≡ D.rows keeper.old) }
    ensures failed { OnFailed result (doubt.new ≡ Some (texts_written write.now)) }
    ensures given { OnFailed result (D.given keeper.old (change_of (texts_written write.now)) keeper.new) }
    ensures sure { UnlessFailed result (doubt.new ≡ None) }
    ensures settled { SettlesOrNot (D.settled keeper.old) (D.settled keeper.new) (D.rows keeper.new) }

    ensures fault { OnFailed result (Rose (D.faults keeper.old) (D.faults keeper.new)) }
    ensures no_fault { UnlessFailed result (D.faults keeper.new ≡ D.faults keeper.old) }
    ensures same { D.name keeper.new ≡ D.name keeper.old }
{
    let Ok(texts) = texts_written(alloc, write) else {
        return Err(KeepFault::Memory);
    };
    let answer = give_row(keeper, &texts);
    if matches!(&answer, Err(KeepFault::Failed)) {
        *doubt = Some(texts);
    }
    answer
}

/// Gives the keeper the write of a row.
fn give_row<D: Keeper>(keeper: &mut D, write: &RowWrite) -> Result<(), KeepFault>
    ensures done { OnOk result (D.rows keeper.new ≡ known_after write.now (D.rows keeper.old)) }
    ensures old_or_new { OnFailed result (IsOldOrNew (D.rows keeper.old)
        (known_after write.now (D.rows keeper.old)) (D.rows keeper.new)) }
    ensures given { OnFailed result (D.given keeper.old (change_of write.now) keeper.new) }
    ensures unchanged { OnMemory result (D.rows keeper.new ≡ D.rows keeper.old) }
    ensures settled { SettlesOrNot (D.settled keeper.old) (D.settled keeper.new) (D.rows keeper.new) }

    ensures fault { OnFailed result (Rose (D.faults keeper.old) (D.faults keeper.new)) }
    ensures no_fault { UnlessFailed result (D.faults keeper.new ≡ D.faults keeper.old) }
    ensures same { D.name keeper.new ≡ D.name keeper.old }
{
    match write {
        RowWrite::Put(row) => keeper.put(row.key.as_str(), row.revision, row.body.as_str()),
        RowWrite::Remove(key) => keeper.remove(key.as_str()),
    }
}

/// What the keeper is given of the write.
fn texts_written(alloc: Global, write: &Write) -> Result<RowWrite, AllocError>
    ensures { IfOk result (λ texts. texts ≡ texts_written write.now) }
{
    match write {
        Write::Put(revision, new) => Ok(RowWrite::Put(row_text(alloc, *revision, new)?)),
        Write::Remove(_, key) => Ok(RowWrite::Remove(Text::of(key_text(alloc, key)?))),
    }
}

/// What leaves the datastore's row of the key.
fn row_back(alloc: Global, store: &Store, key: &str) -> Result<RowWrite, AllocError>
    ensures { IfOk result (λ back. back ≡ row_back key.now store.now.store) }
{
    match key_of_text(alloc, key.as_bytes())? {
        Some(named) => named_back(alloc, store, key, named),
        None => Ok(RowWrite::Remove(Text::copied(alloc, key)?)),
    }
}

fn named_back(alloc: Global, store: &Store, key: &str, named: Key) -> Result<RowWrite, AllocError>
    ensures { IfOk result (λ back. back ≡ putting_back key.now (row_of named store.now.store.rows)) }
{
    let call = Call::Get(named);
    let reply = store.reply(&call);
    drop(call);
    match reply {
        Reply::Found(revision, found) => Ok(RowWrite::Put(row_text(alloc, revision, found)?)),
        _ => Ok(RowWrite::Remove(Text::copied(alloc, key)?)),
    }
}

/// The text of a row.
fn row_text(alloc: Global, revision: u64, found: &Record) -> Result<Row, AllocError>
    ensures { IfOk result (λ row. row ≡ text_of (revision, found.now)) }
{
    let key = found.key(alloc)?;
    Ok(Row {
        key: Text::of(key_text(alloc, &key)?),
        revision,
        body: Text::of(to_text(alloc, found)?),
    })
}
