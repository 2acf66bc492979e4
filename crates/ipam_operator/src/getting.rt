//! `get` and `get KIND`: writes the rows.
ghost use Rattle.std.specs.Prelude.{◌≡◌, ℕ, List, [], Result};
ghost use Rattle.std.specs.Io.KnownBytes.{prepend_known};
ghost use Rattle.std.specs.List.Sorted.{IsPermutation, IsSortedBy};
ghost use Rattle.std.specs.Result.{result_map_both};
ghost use Rattle.ipam_operator.specs.declared.asking.AskFault.{AskFault as Fault};
ghost use Rattle.ipam_operator.specs.Telling.{Says};
ghost use Rattle.ipam_records.specs.declared.call.Row.{Row as RowText};
ghost use Rattle.ipam_operator.specs.Getting.{SortsTo, TakesMemory, get_end, get_said, key_lt, kinds_told};
ghost use Rattle.ipam_operator.specs.Rows.{AsksRows};

use crate::asking::AskFault;
use crate::end::End;
use crate::paging::ask_rows;
use crate::telling::{tell_fault, tell_made};
use ipam_io::{Link, Sink};
use ipam_records::Row;
use ipam_show::rows_text;
use ipam_words::RowKind;
use std::alloc::Global;

/// The kinds of rows, by the bytes of their words.
const KINDS: [RowKind; 6] = [
    RowKind::Affinity,
    RowKind::Block,
    RowKind::Config,
    RowKind::Handle,
    RowKind::Pools,
    RowKind::Reservations,
];

/// Asks the daemon for all rows, or for those of the kind, page by page, and writes a line for each: its key,
/// its revision and its body. The rows stand by the bytes of their keys, as the same word writes them over a
/// file. Rows of two pages may have stood at two moments.
pub fn get<K: Sink, L: Link>(
    alloc: Global,
    sink: &mut K,
    link: &mut L,
    kind: Option<RowKind>,
) -> End
    ensures told { (came : Result (List RowText) Fault) × (sorted : Result (List RowText) Fault) × (held : List ℕ)
        × AsksRows (kinds_told kind) [] came
        (record {
          sent = L.written link.old;
          send_faults = L.write_faults link.old;
          coming = L.left link.old;
          read_faults = L.read_faults link.old;
        })
        (record {
          sent = L.written link.new;
          send_faults = L.write_faults link.new;
          coming = prepend_known held (L.left link.new);
          read_faults = L.read_faults link.new;
        })
        × SortsTo came sorted
        × Says (TakesMemory sorted) (K.written sink.old) (K.written sink.new)
        (K.write_faults sink.old) (K.write_faults sink.new) (get_said kind sorted) (get_end sorted) result }
    ensures rest { K.write_rest sink.new ≡ K.write_rest sink.old }
{
    match come_to(alloc, link, kind) {
        Ok(rows) => tell_made(sink, rows_text(alloc, kind, rows.as_slice()), End::Done),
        Err(fault) => tell_fault(sink, fault),
    }
}

/// Asks for all rows, or for those of the kind, and sorts them by the bytes of their keys.
fn come_to<L: Link>(
    alloc: Global,
    link: &mut L,
    kind: Option<RowKind>,
) -> Result<Vec<Row>, AskFault>
    ensures asked { (came : Result (List RowText) Fault) × (held : List ℕ)
        × AsksRows (kinds_told kind) [] came
        (record {
          sent = L.written link.old;
          send_faults = L.write_faults link.old;
          coming = L.left link.old;
          read_faults = L.read_faults link.old;
        })
        (record {
          sent = L.written link.new;
          send_faults = L.write_faults link.new;
          coming = prepend_known held (L.left link.new);
          read_faults = L.read_faults link.new;
        })
        × SortsTo came (result_map_both (λ rows. rows.items) (λ why. why) result) }
{
    match ask_told(alloc, link, kind) {
        Ok(rows) => Ok(by_key(rows)),
        Err(fault) => Err(fault),
    }
}

fn ask_told<L: Link>(
    alloc: Global,
    link: &mut L,
    kind: Option<RowKind>,
) -> Result<Vec<Row>, AskFault>
    ensures asked { (held : List ℕ)
        × AsksRows (kinds_told kind) [] (result_map_both (λ rows. rows.items) (λ why. why) result)
        (record {
          sent = L.written link.old;
          send_faults = L.write_faults link.old;
          coming = L.left link.old;
          read_faults = L.read_faults link.old;
        })
        (record {
          sent = L.written link.new;
          send_faults = L.write_faults link.new;
          coming = prepend_known held (L.left link.new);
          read_faults = L.read_faults link.new;
        }) }
{
    match kind {
        Some(kind) => ask_rows(alloc, link, &[kind]),
        None => ask_rows(alloc, link, &KINDS),
    }
}

fn by_key(rows: Vec<Row>) -> Vec<Row>
    ensures same { IsPermutation rows.items result.items }
    ensures sorted { IsSortedBy key_lt result.items }
{
    let mut rows = rows;
    rows.sort_unstable_by(|one, other| one.key.cmp(&other.key));
    rows
}
