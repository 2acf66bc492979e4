ghost use Rattle.std.specs.Prelude.{◌≡◌, ◌<◌, ◌++◌, [], ◌∷◌, length, slice_get, Some, IsSome, IfSome, IfNone, IfOk, OnOk, None, map};
ghost use Rattle.std.specs.Result.{ForOk};
ghost use Rattle.ipam_records.specs.declared.call.Row.{Row as RowText};
ghost use Rattle.ipam_records.specs.Datastore.{row_of, with_row};
ghost use Rattle.ipam_records.specs.Key.{key_of};
ghost use Rattle.ipam_records.specs.Sound.{IsRow};
ghost use Rattle.ipam_store.specs.Granted.{HasRoomFor};
ghost use Rattle.ipam_model.specs.Opened.{AreByKey, MayBeOpened, OpensAs, reading_of};
ghost use Rattle.ipam_opening.specs.Opening.{texts_with};
ghost use Rattle.ipam_opening.specs.Loading.{with_reading};

use crate::given::Reading;
use ipam_records::{Record, Row};
use ipam_store::{LoadFault, Store};
use std::alloc::{AllocError, Global};

/// The store with what was read of the rows.
pub(crate) fn load(
    alloc: Global,
    rows: &[Row],
    counter: u64,
    readings: Vec<Reading>,
) -> Result<Store, AllocError>
    requires by_key { AreByKey rows.now }
    requires read { readings.items ≡ map reading_of rows.now }
    requires may { MayBeOpened (texts_with rows.now counter) }
    ensures { IfOk result (λ store. OpensAs (texts_with rows.now counter) store.store) }
{
    let mut left = readings;
    let mut store = Store::new(alloc, counter);
    while let Some(reading) = take_last(&mut left) {
        load_reading(
            &mut store,
            revision_at(rows, left.as_slice().len()),
            reading,
        )?;
    }
    Ok(store)
}

fn take_last(left: &mut Vec<Reading>) -> Option<Reading>
    ensures some { IfSome result (λ reading. left.old.items ≡ left.new.items ++ reading ∷ []) }
    ensures none { IfNone result (left.old.items ≡ []) }
    ensures fewer { IsSome result → length left.new.items < length left.old.items }
{
    left.pop()
}

fn revision_at(rows: &[Row], place: usize) -> u64
    requires { place < length rows.now }
    ensures { (row : RowText) → slice_get rows.now place ≡ Some row → result ≡ row.revision }
{
    rows[place].revision
}

fn load_reading(store: &mut Store, revision: u64, reading: Reading) -> Result<(), AllocError>
    requires sound { ForOk reading (λ found. IsRow store.old.store.counter (revision, found)) }
    requires room { ForOk reading (λ found. HasRoomFor store.old.store found) }
    requires new { ForOk reading (λ found. row_of (key_of found) store.old.store.rows ≡ None) }
    ensures { OnOk result (store.new.store ≡ with_reading revision reading store.old.store) }
{
    match reading {
        Ok(found) => load_row(store, revision, found),
        Err(_) => Ok(()),
    }
}

fn load_row(store: &mut Store, revision: u64, value: Record) -> Result<(), AllocError>
    requires sound { IsRow store.old.store.counter (revision, value) }
    requires room { HasRoomFor store.old.store value }
    requires new { row_of (key_of value) store.old.store.rows ≡ None }
    ensures { OnOk result (store.new.store
        ≡ record store.old.store { rows = with_row (revision, value) store.old.store.rows }) }
{
    match store.load(revision, value) {
        Ok(()) => Ok(()),
        Err(LoadFault::Memory) => Err(AllocError),
        Err(LoadFault::There) => unreachable!(),
    }
}
