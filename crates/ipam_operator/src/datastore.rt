//! The datastore of rows that were read page by page.
ghost use Rattle.std.specs.Prelude.{◌≡◌, ◌≤◌, length, IfOk, IfSome, option_map, true};
ghost use Rattle.ipam_json.specs.Members.{only_if};
ghost use Rattle.ipam_records.specs.Datastore.{has_room, last_revision, most_blocks, rows_of_kind};
ghost use Rattle.ipam_records.specs.Key.{key_of};
ghost use Rattle.ipam_records.specs.KeyOrder.{is_of_kind};
ghost use Rattle.ipam_records.specs.Sound.{IsRecord, IsRow};
ghost use Rattle.ipam_records.specs.declared.key.Kind.TheVariants as kind;
ghost use Rattle.ipam_show.specs.Kept.{blocks_kept};
ghost use Rattle.ipam_store.specs.Granted.{HasRoomFor};
ghost use Rattle.ipam_operator.specs.Datastore.{datastore_of, is_counted, is_row, may_load, with_record, with_text};

use ipam_records::{
    Call, Kind, LAST_REVISION, MOST_BLOCKS, MOST_ROWS, Record, Reply, Row, TextFault, from_text,
};
use ipam_store::{LoadFault, Store};
use std::alloc::{AllocError, Global};

/// The datastore that has these rows. None where one of them is none of a datastore.
///
/// What holds of several rows at once is not looked for, since rows of two pages may have stood at two
/// moments.
pub fn datastore_of(alloc: Global, rows: &[Row]) -> Result<Option<Store>, AllocError>
    ensures store { IfOk result (λ found. option_map (λ s. s.store) found ≡ datastore_of rows.now) }
    ensures few { IfOk result (λ found. IfSome found (λ s. length (blocks_kept s.store) ≤ most_blocks)) }
{
    let mut store = Store::new(alloc, LAST_REVISION);
    for row in rows {
        if !load_text(alloc, &mut store, row)? {
            return Ok(None);
        }
    }
    Ok(Some(store))
}

/// Loads the row. False where it is none of a datastore, or has no place in this one.
#[tactic(auto, unfolding(crate::specs::Datastore::with_text))]
fn load_text(alloc: Global, store: &mut Store, row: &Row) -> Result<bool, AllocError>
    requires counter { store.old.store.counter ≡ last_revision }
    requires few { length (blocks_kept store.old.store) ≤ most_blocks }
    ensures store { IfOk result (λ loaded. only_if loaded store.new.store ≡ with_text row.now store.old.store) }
    ensures counter { store.new.store.counter ≡ last_revision }
    ensures few { length (blocks_kept store.new.store) ≤ most_blocks }
{
    match from_text(alloc, row.key.as_str(), row.body.as_str()) {
        Ok(found) => load_record(store, row.revision, found),
        Err(TextFault::Memory) => Err(AllocError),
        Err(_) => Ok(false),
    }
}

fn load_record(store: &mut Store, revision: u64, found: Record) -> Result<bool, AllocError>
    requires sound { IsRecord found }
    requires counter { store.old.store.counter ≡ last_revision }
    requires few { length (blocks_kept store.old.store) ≤ most_blocks }
    ensures store { IfOk result (λ loaded. only_if loaded store.new.store ≡ with_record revision found store.old.store) }
    ensures counter { store.new.store.counter ≡ last_revision }
    ensures few { length (blocks_kept store.new.store) ≤ most_blocks }
{
    if !may_load(store, revision, &found) {
        return Ok(false);
    }
    match store.load(revision, found) {
        Ok(()) => Ok(true),
        Err(LoadFault::There) => Ok(false),
        Err(LoadFault::Memory) => Err(AllocError),
    }
}

/// Whether the record may have this revision, and there is room for it.
fn may_load(store: &Store, revision: u64, found: &Record) -> bool
    requires { IsRecord found.now }
    ensures value { result ≡ may_load revision found.now store.now.store }
    ensures sound { result ≡ true → IsRow last_revision (revision, found.now) }
    ensures room { result ≡ true → HasRoomFor store.now.store found.now }
{
    is_allowed(store, revision, found)
}

fn is_allowed(store: &Store, revision: u64, found: &Record) -> bool
    ensures { result ≡ may_load revision found.now store.now.store }
{
    is_row(revision, found) && has_room(store, found)
}

fn is_row(revision: u64, found: &Record) -> bool
    ensures { result ≡ is_row revision found.now }
{
    0 < revision && revision <= LAST_REVISION && is_counted(revision, found)
}

/// Whether a block is written less often than the datastore.
fn is_counted(revision: u64, found: &Record) -> bool
    ensures { result ≡ is_counted revision found.now }
{
    match found {
        Record::Block(block) => block.sequence() < revision,
        _ => true,
    }
}

/// Whether one more row with the record's key is allowed.
fn has_room(store: &Store, found: &Record) -> bool
    ensures { result ≡ has_room store.now.store (key_of found.now) }
{
    store.rows() < MOST_ROWS && (!is_block(found) || block_count(store) < MOST_BLOCKS)
}

fn is_block(found: &Record) -> bool
    ensures { result ≡ is_of_kind kind.Block (key_of found.now) }
{
    matches!(found, Record::Block(_))
}

fn block_count(store: &Store) -> usize
    ensures { result ≡ length (rows_of_kind kind.Block store.now.store) }
{
    match store.reply(&Call::List(Kind::Block)) {
        Reply::Listed(listing) => listing.len(),
        _ => 0,
    }
}
