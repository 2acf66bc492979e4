//! `show`: what an operator is shown of the rows.
ghost use Rattle.std.specs.Prelude.{◌≡◌, ℕ, List, [], Result};
ghost use Rattle.std.specs.Io.KnownBytes.{prepend_known};
ghost use Rattle.ipam_operator.specs.declared.asking.AskFault.{AskFault as Fault};
ghost use Rattle.ipam_operator.specs.Telling.{Says};
ghost use Rattle.ipam_records.specs.declared.call.Row.{Row as RowText};
ghost use Rattle.ipam_operator.specs.Getting.{TakesMemory};
ghost use Rattle.ipam_operator.specs.Rows.{AsksRows};
ghost use Rattle.ipam_operator.specs.Datastore.{datastore_of};
ghost use Rattle.ipam_operator.specs.Showing.{kinds_shown, said_of, show_end, show_said, end_of};
ghost use Rattle.ipam_words.specs.Views.{seen_by};

use crate::datastore::datastore_of;
use crate::end::End;
use crate::paging::ask_rows;
use crate::telling::{tell, tell_fault, tell_made};
use ipam_io::{Link, Sink};
use ipam_records::Row;
use ipam_views::shown_text;
use ipam_words::{RowKind, View};
use std::alloc::{AllocError, Global};

/// The kinds of rows of which a handle's addresses and counts are shown.
const HANDLE_KINDS: [RowKind; 2] = [RowKind::Block, RowKind::Handle];

/// The kind of rows of which the configuration is shown.
const CONFIG_KINDS: [RowKind; 1] = [RowKind::Config];

/// The kinds of rows of which numbers are shown: all.
const ALL_KINDS: [RowKind; 6] = [
    RowKind::Config,
    RowKind::Pools,
    RowKind::Reservations,
    RowKind::Block,
    RowKind::Affinity,
    RowKind::Handle,
];

/// The kinds of rows of which anything else is shown.
const KINDS: [RowKind; 4] = [
    RowKind::Pools,
    RowKind::Reservations,
    RowKind::Block,
    RowKind::Affinity,
];

/// Asks the daemon for the rows of which something is shown, page by page, and writes what is asked of them, as the same
/// words do over a file. Rows of two pages may have stood at two moments.
pub fn show<K: Sink, L: Link>(alloc: Global, sink: &mut K, link: &mut L, view: &View<'_>) -> End
    ensures told { (came : Result (List RowText) Fault) × (held : List ℕ)
        × AsksRows (kinds_shown (seen_by view.now)) [] came
        (record {
          sent = L.written link.old;
          send_faults = L.write_faults link.old;
          coming = L.left link.old;
          read_faults = L.read_faults link.old;
        })
        (record {
          sent = L.written link.new;
          send_faults = L.write_faults link.new;
          coming = prepend_known held (L.left link.new);
          read_faults = L.read_faults link.new;
        })
        × Says (TakesMemory came) (K.written sink.old) (K.written sink.new)
        (K.write_faults sink.old) (K.write_faults sink.new) (show_said (seen_by view.now) came) (show_end came) result }
    ensures rest { K.write_rest sink.new ≡ K.write_rest sink.old }
{
    match ask_rows(alloc, link, kinds_shown(view)) {
        Ok(rows) => tell_rows(alloc, sink, view, rows.as_slice()),
        Err(fault) => tell_fault(sink, fault),
    }
}

/// The kinds of rows of which something is shown.
fn kinds_shown(view: &View<'_>) -> &'static [RowKind]
    ensures { result.now ≡ kinds_shown (seen_by view.now) }
{
    match view {
        View::Handle(_, _) => &HANDLE_KINDS,
        View::Config(_) => &CONFIG_KINDS,
        View::Metrics => &ALL_KINDS,
        _ => &KINDS,
    }
}

/// Writes what is asked of the rows.
fn tell_rows<K: Sink>(alloc: Global, sink: &mut K, view: &View<'_>, rows: &[Row]) -> End
    ensures told { Says (Unit {0}) (K.written sink.old) (K.written sink.new)
        (K.write_faults sink.old) (K.write_faults sink.new) (said_of (seen_by view.now) (datastore_of rows.now)) (end_of (datastore_of rows.now)) result }
    ensures rest { K.write_rest sink.new ≡ K.write_rest sink.old }
{
    match datastore_of(alloc, rows) {
        Ok(Some(store)) => tell_made(sink, shown_text(alloc, view, &store), End::Done),
        Ok(None) => tell(sink, "reply fault\n", End::ReplyFault),
        Err(AllocError) => End::NoMemory,
    }
}
