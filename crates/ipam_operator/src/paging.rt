//! Rows are asked for, page by page and kind by kind.
ghost use Rattle.std.specs.Prelude.{◌≡◌, ◌++◌, ◌<◌, ◌≤◌, ℕ, List, [], Ok, IfOk, OnOk, string_bytes, true, vec_len};
ghost use Rattle.std.specs.Io.KnownBytes.{prepend_known};
ghost use Rattle.std.specs.Result.{result_map_both};
ghost use Rattle.ipam_operator.specs.Asking.{Asks};
ghost use Rattle.ipam_records.specs.Datastore.{most_rows};
ghost use Rattle.ipam_operator.specs.Page.{after_text, last_row, page_line, page_of_line};
ghost use Rattle.ipam_operator.specs.Rows.{AsksKind, AsksRows};

use crate::asking::{AskFault, REPLY_BYTES, ask};
use crate::page::read_page;
use ipam_io::{Lines, Link};
use ipam_records::Row;
use ipam_words::RowKind;
use std::alloc::{AllocError, Global};

/// Asks the daemon for all rows of these kinds: for those of one kind after the other, page by page.
pub fn ask_rows<L: Link>(
    alloc: Global,
    link: &mut L,
    kinds: &[RowKind],
) -> Result<Vec<Row>, AskFault>
    ensures asked { (held : List ℕ) × AsksRows kinds.now [] (result_map_both (λ rows. rows.items) (λ why. why) result)
        (record {
          sent = L.written link.old;
          send_faults = L.write_faults link.old;
          coming = L.left link.old;
          read_faults = L.read_faults link.old;
        })
        (record {
          sent = L.written link.new;
          send_faults = L.write_faults link.new;
          coming = prepend_known held (L.left link.new);
          read_faults = L.read_faults link.new;
        }) }
{
    let mut lines = Lines::<REPLY_BYTES>::new(alloc);
    ask_kinds(alloc, link, &mut lines, kinds)
}

/// Asks the daemon for all rows of these kinds, for those of one kind after the other, page by page.
/// `lines` has the bytes of the link that were read already.
pub fn ask_kinds<L: Link>(
    alloc: Global,
    link: &mut L,
    lines: &mut Lines<REPLY_BYTES>,
    kinds: &[RowKind],
) -> Result<Vec<Row>, AskFault>
    ensures asked { AsksRows kinds.now [] (result_map_both (λ rows. rows.items) (λ why. why) result)
        (record {
          sent = L.written link.old;
          send_faults = L.write_faults link.old;
          coming = prepend_known lines.old (L.left link.old);
          read_faults = L.read_faults link.old;
        })
        (record {
          sent = L.written link.new;
          send_faults = L.write_faults link.new;
          coming = prepend_known lines.new (L.left link.new);
          read_faults = L.read_faults link.new;
        }) }
{
    let mut rows = Vec::new(alloc);
    for kind in kinds {
        match ask_kind(alloc, link, lines, *kind) {
            Ok(found) => match append(&mut rows, found) {
                Ok(()) => {}
                Err(AllocError) => return Err(AskFault::Memory),
            },
            Err(fault) => return Err(fault),
        }
    }
    Ok(rows)
}

fn append(rows: &mut Vec<Row>, found: Vec<Row>) -> Result<(), AllocError>
    ensures { OnOk result (rows.new.items ≡ rows.old.items ++ found.items) }
{
    let mut found = found;
    rows.append(&mut found)
}

/// Asks for the rows of the kind, page by page.
fn ask_kind<L: Link>(
    alloc: Global,
    link: &mut L,
    lines: &mut Lines<REPLY_BYTES>,
    kind: RowKind,
) -> Result<Vec<Row>, AskFault>
    ensures asked { AsksKind kind [] (result_map_both (λ rows. rows.items) (λ why. why) result)
        (record {
          sent = L.written link.old;
          send_faults = L.write_faults link.old;
          coming = prepend_known lines.old (L.left link.old);
          read_faults = L.read_faults link.old;
        })
        (record {
          sent = L.written link.new;
          send_faults = L.write_faults link.new;
          coming = prepend_known lines.new (L.left link.new);
          read_faults = L.read_faults link.new;
        }) }
{
    let mut rows = Vec::new(alloc);
    'pages: loop {
        match ask_page(alloc, link, lines, kind, &mut rows) {
            Ok(more) => {
                if !more {
                    return Ok(rows);
                }
            }
            Err(fault) => return Err(fault),
        }
    }
}

/// Asks for the page of rows of the kind that stand behind these, appends them, and answers whether there
/// are more.
fn ask_page<L: Link>(
    alloc: Global,
    link: &mut L,
    lines: &mut Lines<REPLY_BYTES>,
    kind: RowKind,
    rows: &mut Vec<Row>,
) -> Result<bool, AskFault>
    ensures asked { Asks (page_of_line kind rows.old.items) (page_line kind rows.old.items)
        (result_map_both (λ more. (rows.new.items, more)) (λ why. why) result)
        (record {
          sent = L.written link.old;
          send_faults = L.write_faults link.old;
          coming = prepend_known lines.old (L.left link.old);
          read_faults = L.read_faults link.old;
        })
        (record {
          sent = L.written link.new;
          send_faults = L.write_faults link.new;
          coming = prepend_known lines.new (L.left link.new);
          read_faults = L.read_faults link.new;
        }) }
    ensures more { result ≡ Ok true
        → (vec_len rows.old < vec_len rows.new) × (vec_len rows.new ≤ most_rows) }
{
    match page_line(alloc, kind, rows.as_slice()) {
        Ok(text) => ask_text(alloc, link, lines, kind, rows, text.as_str()),
        Err(AllocError) => Err(AskFault::Memory),
    }
}

/// Asks for a page by this text, appends its rows, and answers whether there are more.
fn ask_text<L: Link>(
    alloc: Global,
    link: &mut L,
    lines: &mut Lines<REPLY_BYTES>,
    kind: RowKind,
    rows: &mut Vec<Row>,
    text: &str,
) -> Result<bool, AskFault>
    ensures asked { Asks (page_of_line kind rows.old.items) text.now
        (result_map_both (λ more. (rows.new.items, more)) (λ why. why) result)
        (record {
          sent = L.written link.old;
          send_faults = L.write_faults link.old;
          coming = prepend_known lines.old (L.left link.old);
          read_faults = L.read_faults link.old;
        })
        (record {
          sent = L.written link.new;
          send_faults = L.write_faults link.new;
          coming = prepend_known lines.new (L.left link.new);
          read_faults = L.read_faults link.new;
        }) }
    ensures more { result ≡ Ok true
        → (vec_len rows.old < vec_len rows.new) × (vec_len rows.new ≤ most_rows) }
{
    match ask(link, lines, text) {
        Ok(line) => match read_page(alloc, kind, rows, line.as_slice()) {
            Ok(Some(more)) => Ok(more),
            Ok(None) => Err(AskFault::Reply),
            Err(AllocError) => Err(AskFault::Memory),
        },
        Err(fault) => Err(fault),
    }
}

/// The line that asks for the rows of the kind that stand behind these. No character of a key is written
/// otherwise in a text of JSON.
#[tactic(auto, unfolding(crate::specs::Page::page_line))]
fn page_line(alloc: Global, kind: RowKind, rows: &[Row]) -> Result<String, AllocError>
    ensures { IfOk result (λ text. string_bytes text ≡ page_line kind rows.now) }
{
    let mut text = String::new(alloc);
    text.push_str("{\"rows\":\"")?;
    text.push_str(kind.name())?;
    push_after(&mut text, rows)?;
    text.push_str("\"}\n")?;
    Ok(text)
}

fn push_after(text: &mut String, rows: &[Row]) -> Result<(), AllocError>
    ensures { OnOk result (string_bytes text.new ≡ string_bytes text.old ++ after_text (last_row rows.now)) }
{
    match rows.last() {
        Some(row) => {
            text.push_str("\",\"after\":\"")?;
            text.push_str(row.key.as_str())
        }
        None => Ok(()),
    }
}
