//! How many addresses are owned.
ghost use Rattle.std.specs.Prelude.{◌≡◌, ℕ, ◌<◌, ◌≤◌, ◌^◌, length, sum, IfOk};
ghost use Rattle.ipam_records.specs.Pages.{rows_of_pages};
ghost use Rattle.ipam_model.specs.Owners.{owners, owners_in, owners_in_row};

use crate::audit_look::listing;
use crate::audit_parts::part_size;
use ipam_records::{Kind, Record};
use ipam_store::Store;
use std::alloc::{AllocError, Global};
use std::thread;
use std::thread::Threads;

/// How many addresses are owned. They are counted in no more parts than there are workers.
pub(crate) fn owners<R: Threads + Sync>(
    rt: &R,
    alloc: Global,
    store: &Store,
    workers: u8,
) -> Result<u64, AllocError>
    requires some { 0 < workers }
    requires few { length (owners store.now.store) < 2 ^ 64 }
    ensures { IfOk result (λ count. count ≡ length (owners store.now.store)) }
{
    let parts = counts(rt, alloc, store, workers)?;
    Ok(total(&parts))
}

/// How many addresses are owned in each part of the pages of blocks. The parts are counted at once
/// where threads can be made, and there are no more of them than workers.
fn counts<R: Threads + Sync>(
    rt: &R,
    alloc: Global,
    store: &Store,
    workers: u8,
) -> Result<Vec<u64>, AllocError>
    requires some { 0 < workers }
    requires few { length (owners store.now.store) < 2 ^ 64 }
    ensures all { IfOk result (λ parts. sum parts.items ≡ length (owners store.now.store)) }
    ensures few { IfOk result (λ parts. length parts.items ≤ workers) }
{
    let pages = listing(store, Kind::Block).pages();
    let count = |_start: usize, part: &[Vec<(u64, Record)>]| -> u64
        requires { length (owners_in (rows_of_pages part.now)) < 2 ^ 64 }
        ensures { result ≡ length (owners_in (rows_of_pages part.now)) }
    { owners_in(part) };
    let size = part_size(pages.len(), workers);
    let parts = thread::map_chunks(rt, alloc, pages, size, &count)?;
    Ok(parts)
}

fn total(counts: &[u64]) -> u64
    requires { sum counts.now < 2 ^ 64 }
    ensures { result ≡ sum counts.now }
{
    counts.iter().sum()
}

fn owners_in(pages: &[Vec<(u64, Record)>]) -> u64
    requires { length (owners_in (rows_of_pages pages.now)) < 2 ^ 64 }
    ensures { result ≡ length (owners_in (rows_of_pages pages.now)) }
{
    let mut count = 0;
    for page in pages {
        count += owners_in_rows(page);
    }
    count
}

fn owners_in_rows(rows: &[(u64, Record)]) -> u64
    requires { length (owners_in rows.now) < 2 ^ 64 }
    ensures { result ≡ length (owners_in rows.now) }
{
    let mut count = 0;
    for row in rows {
        count += owners_in_record(&row.1) as u64;
    }
    count
}

fn owners_in_record(kept: &Record) -> usize
    ensures { (revision : ℕ) → result ≡ length (owners_in_row (revision, kept.now)) }
{
    match kept {
        Record::Block(block) => block.allocations().len(),
        _ => 0,
    }
}
