//! All rows of one moment are asked for.
ghost use Rattle.std.specs.Prelude.{◌≡◌, ℕ, List, IfOk, option_map};
ghost use Rattle.std.specs.Io.KnownBytes.{prepend_known};
ghost use Rattle.ipam_operator.specs.Asking.{Asks};
ghost use Rattle.ipam_operator.specs.Moment.{AsksAfter, AsksBetween, AsksOnce, AsksTries, revision_line, revision_of_line, rows_told, stood, tries_at_most};

use crate::answer::json_of_line;
use crate::asking::{AskFault, REPLY_BYTES, ask};
use crate::paging::ask_kinds;
use ipam_io::{Lines, Link};
use ipam_json::whole_at;
use ipam_records::Row;
use ipam_words::RowKind;
use std::alloc::{AllocError, Global};

/// How often the rows are asked for, where the datastore changed in the meantime.
pub const MOST_TRIES: u8 = 16;

/// All kinds of rows.
const KINDS: [RowKind; 6] = [
    RowKind::Config,
    RowKind::Pools,
    RowKind::Reservations,
    RowKind::Block,
    RowKind::Affinity,
    RowKind::Handle,
];

/// Asks the daemon for all its rows as they stand at one revision: between two replies that tell the same
/// revision. None where it tells another each time.
pub(crate) fn ask_tries<L: Link>(alloc: Global, link: &mut L) -> Result<Option<Vec<Row>>, AskFault>
    ensures asked { (held : List ℕ) × AsksTries tries_at_most (rows_told result)
        (record {
          sent = L.written link.old;
          send_faults = L.write_faults link.old;
          coming = L.left link.old;
          read_faults = L.read_faults link.old;
        })
        (record {
          sent = L.written link.new;
          send_faults = L.write_faults link.new;
          coming = prepend_known held (L.left link.new);
          read_faults = L.read_faults link.new;
        }) }
{
    let mut lines = Lines::<REPLY_BYTES>::new(alloc);
    ask_often(alloc, link, &mut lines)
}

fn ask_often<L: Link>(
    alloc: Global,
    link: &mut L,
    lines: &mut Lines<REPLY_BYTES>,
) -> Result<Option<Vec<Row>>, AskFault>
    ensures asked { AsksTries tries_at_most (rows_told result)
        (record {
          sent = L.written link.old;
          send_faults = L.write_faults link.old;
          coming = prepend_known lines.old (L.left link.old);
          read_faults = L.read_faults link.old;
        })
        (record {
          sent = L.written link.new;
          send_faults = L.write_faults link.new;
          coming = prepend_known lines.new (L.left link.new);
          read_faults = L.read_faults link.new;
        }) }
{
    let mut left = MOST_TRIES;
    'tries: while left > 0 {
        left -= 1;
        match ask_once(alloc, link, lines) {
            Ok(None) => {}
            Ok(Some(rows)) => return Ok(Some(rows)),
            Err(fault) => return Err(fault),
        }
    }
    Ok(None)
}

/// Asks for all rows. None where the revision was another one before them than after.
fn ask_once<L: Link>(
    alloc: Global,
    link: &mut L,
    lines: &mut Lines<REPLY_BYTES>,
) -> Result<Option<Vec<Row>>, AskFault>
    ensures asked { AsksOnce (rows_told result)
        (record {
          sent = L.written link.old;
          send_faults = L.write_faults link.old;
          coming = prepend_known lines.old (L.left link.old);
          read_faults = L.read_faults link.old;
        })
        (record {
          sent = L.written link.new;
          send_faults = L.write_faults link.new;
          coming = prepend_known lines.new (L.left link.new);
          read_faults = L.read_faults link.new;
        }) }
{
    match ask_revision(alloc, link, lines) {
        Ok(before) => ask_between(alloc, link, lines, before),
        Err(fault) => Err(fault),
    }
}

/// Asks for all rows, and then for the revision. None where it is another one than `before`, which it was
/// before them.
fn ask_between<L: Link>(
    alloc: Global,
    link: &mut L,
    lines: &mut Lines<REPLY_BYTES>,
    before: u64,
) -> Result<Option<Vec<Row>>, AskFault>
    ensures asked { AsksBetween before (rows_told result)
        (record {
          sent = L.written link.old;
          send_faults = L.write_faults link.old;
          coming = prepend_known lines.old (L.left link.old);
          read_faults = L.read_faults link.old;
        })
        (record {
          sent = L.written link.new;
          send_faults = L.write_faults link.new;
          coming = prepend_known lines.new (L.left link.new);
          read_faults = L.read_faults link.new;
        }) }
{
    match ask_kinds(alloc, link, lines, &KINDS) {
        Ok(rows) => ask_after(alloc, link, lines, before, rows),
        Err(fault) => Err(fault),
    }
}

/// Asks for the revision once the rows came. None where it is another one than `before`, which it was
/// before them.
fn ask_after<L: Link>(
    alloc: Global,
    link: &mut L,
    lines: &mut Lines<REPLY_BYTES>,
    before: u64,
    rows: Vec<Row>,
) -> Result<Option<Vec<Row>>, AskFault>
    ensures asked { AsksAfter before rows.items (rows_told result)
        (record {
          sent = L.written link.old;
          send_faults = L.write_faults link.old;
          coming = prepend_known lines.old (L.left link.old);
          read_faults = L.read_faults link.old;
        })
        (record {
          sent = L.written link.new;
          send_faults = L.write_faults link.new;
          coming = prepend_known lines.new (L.left link.new);
          read_faults = L.read_faults link.new;
        }) }
{
    match ask_revision(alloc, link, lines) {
        Ok(after) => Ok(stood(before, after, rows)),
        Err(fault) => Err(fault),
    }
}

/// The rows, where the revision before them is the one after them.
fn stood(before: u64, after: u64, rows: Vec<Row>) -> Option<Vec<Row>>
    ensures { option_map (λ rows. rows.items) result ≡ stood before after rows.items }
{
    if after == before { Some(rows) } else { None }
}

/// Asks for the revision of the datastore. A page of the one row of the configuration tells it.
fn ask_revision<L: Link>(
    alloc: Global,
    link: &mut L,
    lines: &mut Lines<REPLY_BYTES>,
) -> Result<u64, AskFault>
    ensures asked { Asks revision_of_line revision_line result
        (record {
          sent = L.written link.old;
          send_faults = L.write_faults link.old;
          coming = prepend_known lines.old (L.left link.old);
          read_faults = L.read_faults link.old;
        })
        (record {
          sent = L.written link.new;
          send_faults = L.write_faults link.new;
          coming = prepend_known lines.new (L.left link.new);
          read_faults = L.read_faults link.new;
        }) }
{
    match ask(link, lines, "{\"rows\":\"config\"}\n") {
        Ok(line) => match revision_of_line(alloc, line.as_slice()) {
            Ok(Some(revision)) => Ok(revision),
            Ok(None) => Err(AskFault::Reply),
            Err(AllocError) => Err(AskFault::Memory),
        },
        Err(fault) => Err(fault),
    }
}

/// The revision that the line tells.
#[tactic(auto, unfolding(crate::specs::Moment::revision_of_line))]
fn revision_of_line(alloc: Global, line: &[u8]) -> Result<Option<u64>, AllocError>
    ensures { IfOk result (λ found. found ≡ revision_of_line line.now) }
{
    match json_of_line(alloc, line)? {
        Some(json) => Ok(whole_at(&json, "revision")),
        None => Ok(None),
    }
}
