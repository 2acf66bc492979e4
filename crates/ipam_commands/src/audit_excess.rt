//! The counts of handles that are above what they own.
ghost use Rattle.std.specs.Prelude.{◌≡◌, ◌++◌, IfOk, OnOk};
ghost use Rattle.std.specs.List.{filter_map};
ghost use Rattle.ipam_records.specs.Pages.{rows_of_pages};
ghost use Rattle.ipam_commands.specs.Reported.{excess_at, excess_of, excess_in};

use crate::audit_look::held_count;
use crate::audit_report::Excess;
use ipam_addr::Cidr;
use ipam_block::Handle;
use ipam_records::Record;
use ipam_store::Store;
use ipam_text::Text;
use std::alloc::{AllocError, Global};

/// The counts of the handles in these pages that are above what their handle owns, in the order of the
/// pages and then by block.
pub(crate) fn excess_in(
    alloc: Global,
    store: &Store,
    pages: &[Vec<(u64, Record)>],
) -> Result<Vec<Excess>, AllocError>
    ensures { IfOk result (λ found. found.items ≡ excess_in store.now.store (rows_of_pages pages.now)) }
{
    let mut found = Vec::new(alloc);
    for page in pages {
        add_of_rows(&mut found, store, page)?;
    }
    Ok(found)
}

fn add_of_rows(
    found: &mut Vec<Excess>,
    store: &Store,
    rows: &[(u64, Record)],
) -> Result<(), AllocError>
    ensures { OnOk result (found.new.items ≡ found.old.items ++ excess_in store.now.store rows.now) }
{
    for row in rows {
        add_of_record(found, store, &row.1)?;
    }
    Ok(())
}

fn add_of_record(found: &mut Vec<Excess>, store: &Store, kept: &Record) -> Result<(), AllocError>
    ensures { OnOk result (found.new.items ≡ found.old.items ++ excess_of store.now.store kept.now) }
{
    match kept {
        Record::Handle(handle) => add_of_handle(found, store, handle),
        _ => Ok(()),
    }
}

fn add_of_handle(found: &mut Vec<Excess>, store: &Store, handle: &Handle) -> Result<(), AllocError>
    ensures { OnOk result (found.new.items
        ≡ found.old.items ++ filter_map (excess_at store.now.store handle.now.id) handle.now.counts) }
{
    let alloc = *found.allocator();
    for entry in handle.blocks() {
        if let Some(excess) = excess_at(alloc, store, handle.id(), entry.0, entry.1)? {
            found.push(excess)?;
        }
    }
    Ok(())
}

/// The count, if it is above what the handle owns.
fn excess_at(
    alloc: Global,
    store: &Store,
    handle: &str,
    cidr: Cidr,
    count: u32,
) -> Result<Option<Excess>, AllocError>
    ensures { IfOk result (λ excess. excess ≡ excess_at store.now.store handle.now (cidr, count)) }
{
    let owned = held_count(store, handle, cidr);
    if owned < count as usize {
        Ok(Some(Excess {
            handle: Text::copied(alloc, handle)?,
            cidr,
            count,
            owned: owned as u32,
        }))
    } else {
        Ok(None)
    }
}
