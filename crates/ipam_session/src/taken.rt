//! Rows are taken into a page.
ghost use Rattle.std.specs.Prelude.{◌≡◌, OnOk};
ghost use Rattle.ipam_records.specs.Pages.{rows_of_pages};
ghost use Rattle.ipam_session.specs.Page.{first_taken, is_after, parts_of, so_far, taken_from, with_next};

use ipam_records::{Key, KeyRef, Record};
use std::alloc::{AllocError, Global};

/// How many parts the rows of a page have about at most: each row is one, each address that a block has
/// given is one, and so is each block of a handle. A row is taken while fewer are taken.
pub const PAGE_PARTS: usize = 4_096;

/// A page in the making.
#[derive(Drop)]
pub(crate) struct Taken {
    /// The rows that are taken.
    pub(crate) rows: Vec<(u64, Record)>,
    /// How many parts are still to be taken.
    pub(crate) room: usize,
    /// Whether a row was left out.
    pub(crate) more: bool,
}

impl Taken {
    /// None are taken.
    pub(crate) fn first(alloc: Global) -> Taken
        ensures { so_far result ≡ first_taken }
    {
        Taken {
            rows: Vec::new(alloc),
            room: PAGE_PARTS,
            more: false,
        }
    }
}

/// Takes the rows of these pages that come after the key, one after the other, while there is room.
pub(crate) fn take_pages(
    taken: &mut Taken,
    after: &Option<Key>,
    pages: &[Vec<(u64, Record)>],
) -> Result<(), AllocError>
    ensures { OnOk result (so_far taken.new ≡ taken_from after.now (so_far taken.old) (rows_of_pages pages.now)) }
{
    for page in pages {
        if taken.more && taken.room == 0 {
            return Ok(());
        }
        take_rows(taken, after, page)?;
    }
    Ok(())
}

fn take_rows(
    taken: &mut Taken,
    after: &Option<Key>,
    rows: &[(u64, Record)],
) -> Result<(), AllocError>
    ensures { OnOk result (so_far taken.new ≡ taken_from after.now (so_far taken.old) rows.now) }
{
    for row in rows {
        take_row(taken, after, row.0, &row.1)?;
    }
    Ok(())
}

/// Takes the row, where it comes after the key and there is room.
pub(crate) fn take_row(
    taken: &mut Taken,
    after: &Option<Key>,
    revision: u64,
    found: &Record,
) -> Result<(), AllocError>
    ensures { OnOk result (so_far taken.new ≡ with_next after.now (so_far taken.old) (revision, found.now)) }
{
    if !is_after(after, found) {
        return Ok(());
    }
    if taken.room > 0 {
        taken.rows.push((revision, found.clone()?))?;
        taken.room = taken.room.saturating_sub(parts_of(found));
    } else {
        taken.more = true;
    }
    Ok(())
}

/// Whether the record's key comes after this one.
fn is_after(after: &Option<Key>, found: &Record) -> bool
    ensures { result ≡ is_after after.now found.now }
{
    match after {
        Some(key) => KeyRef::of_record(found).compare(&KeyRef::of(key)).is_gt(),
        None => true,
    }
}

/// How many parts a row has.
fn parts_of(found: &Record) -> usize
    ensures { result ≡ parts_of found.now }
{
    match found {
        Record::Block(block) => block.allocations().len() + 1,
        Record::Handle(handle) => handle.blocks().len() + 1,
        Record::Config(_) | Record::Pools(_) | Record::Reservations(_) | Record::Affinity(_) => 1,
    }
}
