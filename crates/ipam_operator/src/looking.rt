//! The rows of the daemon are looked at, twice.
ghost use Rattle.std.specs.Prelude.{◌≤◌, ◌<◌, ℕ, List, Some, length};
ghost use Rattle.std.specs.Io.KnownBytes.{prepend_known};
ghost use Rattle.ipam_operator.specs.Datastore.{datastore_of};
ghost use Rattle.ipam_records.specs.declared.key.Kind.TheVariants as kind;
ghost use Rattle.ipam_records.specs.Datastore.{most_blocks, rows_of_kind};
ghost use Rattle.ipam_words.specs.declared.reading.TheConstants.{MOST_WORKERS};
ghost use Rattle.ipam_operator.specs.Looking.{IsReportOn, Looks, LooksAgain, LooksTwice};

use crate::asking::{AskFault, REPLY_BYTES};
use crate::datastore::datastore_of;
use crate::paging::ask_kinds;
use crate::standing::standing;
use ipam_commands::{Report, report_on};
use ipam_io::{Lines, Link};
use ipam_records::Row;
use ipam_store::Store;
use ipam_words::RowKind;
use std::alloc::{AllocError, Global};
use std::thread::Threads;

/// The kinds of rows of which something is left over or counted.
const KINDS: [RowKind; 3] = [RowKind::Handle, RowKind::Block, RowKind::Affinity];

/// What stands in two looks at the daemon's rows, one after the other.
pub(crate) fn look_twice<R: Threads + Sync, L: Link>(
    rt: &R,
    alloc: Global,
    link: &mut L,
    workers: u8,
) -> Result<Report, AskFault>
    requires some { 0 < workers }
    requires few { workers ≤ MOST_WORKERS }
    ensures looked { (held : List ℕ) × LooksTwice result
        (record {
          sent = L.written link.old;
          send_faults = L.write_faults link.old;
          coming = L.left link.old;
          read_faults = L.read_faults link.old;
        })
        (record {
          sent = L.written link.new;
          send_faults = L.write_faults link.new;
          coming = prepend_known held (L.left link.new);
          read_faults = L.read_faults link.new;
        }) }
{
    let mut lines = Lines::<REPLY_BYTES>::new(alloc);
    look_both(rt, alloc, link, &mut lines, workers)
}

fn look_both<R: Threads + Sync, L: Link>(
    rt: &R,
    alloc: Global,
    link: &mut L,
    lines: &mut Lines<REPLY_BYTES>,
    workers: u8,
) -> Result<Report, AskFault>
    requires some { 0 < workers }
    requires few { workers ≤ MOST_WORKERS }
    ensures looked { LooksTwice result
        (record {
          sent = L.written link.old;
          send_faults = L.write_faults link.old;
          coming = prepend_known lines.old (L.left link.old);
          read_faults = L.read_faults link.old;
        })
        (record {
          sent = L.written link.new;
          send_faults = L.write_faults link.new;
          coming = prepend_known lines.new (L.left link.new);
          read_faults = L.read_faults link.new;
        }) }
{
    match look(rt, alloc, link, lines, workers) {
        Ok(first) => look_again(rt, alloc, link, lines, workers, &first),
        Err(fault) => Err(fault),
    }
}

/// What stands in this report and in that of another look.
fn look_again<R: Threads + Sync, L: Link>(
    rt: &R,
    alloc: Global,
    link: &mut L,
    lines: &mut Lines<REPLY_BYTES>,
    workers: u8,
    first: &Report,
) -> Result<Report, AskFault>
    requires some { 0 < workers }
    requires few { workers ≤ MOST_WORKERS }
    ensures looked { LooksAgain first.now result
        (record {
          sent = L.written link.old;
          send_faults = L.write_faults link.old;
          coming = prepend_known lines.old (L.left link.old);
          read_faults = L.read_faults link.old;
        })
        (record {
          sent = L.written link.new;
          send_faults = L.write_faults link.new;
          coming = prepend_known lines.new (L.left link.new);
          read_faults = L.read_faults link.new;
        }) }
{
    match look(rt, alloc, link, lines, workers) {
        Ok(second) => Ok(standing(first, second)),
        Err(fault) => Err(fault),
    }
}

/// Asks for the rows, page by page, and reports on them.
fn look<R: Threads + Sync, L: Link>(
    rt: &R,
    alloc: Global,
    link: &mut L,
    lines: &mut Lines<REPLY_BYTES>,
    workers: u8,
) -> Result<Report, AskFault>
    requires some { 0 < workers }
    requires few { workers ≤ MOST_WORKERS }
    ensures looked { Looks result
        (record {
          sent = L.written link.old;
          send_faults = L.write_faults link.old;
          coming = prepend_known lines.old (L.left link.old);
          read_faults = L.read_faults link.old;
        })
        (record {
          sent = L.written link.new;
          send_faults = L.write_faults link.new;
          coming = prepend_known lines.new (L.left link.new);
          read_faults = L.read_faults link.new;
        }) }
{
    match ask_kinds(alloc, link, lines, &KINDS) {
        Ok(rows) => report_of_rows(rt, alloc, rows.as_slice(), workers),
        Err(fault) => Err(fault),
    }
}

/// Reports on the rows. `AskFault::Reply` where they are none of a datastore.
fn report_of_rows<R: Threads + Sync>(
    rt: &R,
    alloc: Global,
    rows: &[Row],
    workers: u8,
) -> Result<Report, AskFault>
    requires some { 0 < workers }
    requires few { workers ≤ MOST_WORKERS }
    ensures { IsReportOn result (datastore_of rows.now) }
{
    match datastore_of(alloc, rows) {
        Ok(Some(store)) => report_of(rt, alloc, &store, workers),
        Ok(None) => Err(AskFault::Reply),
        Err(AllocError) => Err(AskFault::Memory),
    }
}

fn report_of<R: Threads + Sync>(
    rt: &R,
    alloc: Global,
    store: &Store,
    workers: u8,
) -> Result<Report, AskFault>
    requires some { 0 < workers }
    requires few { workers ≤ MOST_WORKERS }
    requires few_blocks { length (rows_of_kind kind.Block store.now.store) ≤ most_blocks }
    ensures { IsReportOn result (Some store.now.store) }
{
    match report_on(rt, alloc, store, workers) {
        Ok(report) => Ok(report),
        Err(AllocError) => Err(AskFault::Memory),
    }
}
