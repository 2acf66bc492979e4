//! A page of rows.
ghost use Rattle.std.specs.Prelude.{◌≡◌, All, IfOk};
ghost use Rattle.ipam_records.specs.Datastore.{rows_of_kind};
ghost use Rattle.ipam_records.specs.Pages.{rows_of_pages};
ghost use Rattle.ipam_store.specs.Page.{IsPage};
ghost use Rattle.ipam_store.specs.Places.{Ascend};
ghost use Rattle.ipam_session.specs.Page.{IsFrontPage, first_taken, one_kept, page_in, rows_kept, so_far, taken_from};

use crate::places::pages_from;
use crate::taken::{Taken, take_pages, take_row};
use ipam_records::{Call, Key, Kind, Record, Reply};
use ipam_store::Store;
use ipam_text::Seq;
use ipam_words::RowKind;
use std::alloc::{AllocError, Global};

/// Rows of one kind, and whether more of them come after these.
#[derive(Drop)]
pub struct Page {
    /// The revision of the datastore.
    pub revision: u64,
    /// The rows, each a revision and a record, in the order of their keys.
    pub rows: Seq<(u64, Record)>,
    /// Whether there are rows of the kind after these.
    pub more: bool,
}

/// The rows of the kind after this key, or from the first on, as many as a page has.
pub fn page_of(
    alloc: Global,
    store: &Store,
    kind: RowKind,
    after: &Option<Key>,
) -> Result<Page, AllocError>
    ensures exact { IfOk result (λ page. page ≡ page_in store.now.store kind after.now) }
    ensures front { IfOk result (λ page. IsFrontPage store.now.store kind after.now page) }
{
    let taken = taken_of(alloc, store, kind, after)?;
    let Taken {
        rows,
        room: _,
        more,
    } = taken;
    Ok(Page {
        revision: store.counter(),
        rows: Seq::of(rows),
        more,
    })
}

fn taken_of(
    alloc: Global,
    store: &Store,
    kind: RowKind,
    after: &Option<Key>,
) -> Result<Taken, AllocError>
    ensures { IfOk result (λ taken. so_far taken ≡ taken_from after.now first_taken (rows_kept kind store.now.store)) }
{
    match kind {
        RowKind::Config => one_taken(alloc, store, Key::Config, after),
        RowKind::Pools => one_taken(alloc, store, Key::Pools, after),
        RowKind::Reservations => one_taken(alloc, store, Key::Reservations, after),
        RowKind::Block => some_taken(alloc, store, Kind::Block, after),
        RowKind::Affinity => some_taken(alloc, store, Kind::Affinity, after),
        RowKind::Handle => some_taken(alloc, store, Kind::Handle, after),
    }
}

/// The row of the key, where it is there and comes after the other key.
fn one_taken(
    alloc: Global,
    store: &Store,
    key: Key,
    after: &Option<Key>,
) -> Result<Taken, AllocError>
    ensures { IfOk result (λ taken. so_far taken ≡ taken_from after.now first_taken (one_kept key store.now.store)) }
{
    let mut taken = Taken::first(alloc);
    match store.reply(&Call::Get(key)) {
        Reply::Found(revision, found) => {
            take_row(&mut taken, after, revision, found)?;
            Ok(taken)
        }
        _ => Ok(taken),
    }
}

/// Rows of the kind that come after the key.
fn some_taken(
    alloc: Global,
    store: &Store,
    kind: Kind,
    after: &Option<Key>,
) -> Result<Taken, AllocError>
    ensures { IfOk result (λ taken. so_far taken ≡ taken_from after.now first_taken (rows_of_kind kind store.now.store)) }
{
    let mut taken = Taken::first(alloc);
    take_pages(
        &mut taken,
        after,
        pages_from(pages_kept(store, kind), after),
    )?;
    Ok(taken)
}

/// The rows of the kind as they are kept.
fn pages_kept(store: &Store, kind: Kind) -> &[Vec<(u64, Record)>]
    ensures rows { rows_of_pages result.now ≡ rows_of_kind kind store.now.store }
    ensures filled { All IsPage result.now }
    ensures ascend { Ascend (rows_of_pages result.now) }
{
    // A datastore that replies is known to be sound.
    let _sound = store.reply(&Call::List(kind));
    store.pages(kind)
}
