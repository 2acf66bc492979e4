//! `backup FILE`, over a daemon and over a keeper.
ghost use Rattle.std.specs.Prelude.{◌≡◌, ℕ, List, Option, Result, IfOk, string_bytes};
ghost use Rattle.std.specs.Io.KnownBytes.{prepend_known};
ghost use Rattle.ipam_operator.specs.declared.asking.AskFault.{AskFault as Fault};
ghost use Rattle.ipam_records.specs.declared.call.Row.{Row as RowText};
ghost use Rattle.ipam_operator.specs.Moment.{AsksTries, tries_at_most};
ghost use Rattle.ipam_operator.specs.Backing.{BacksUp, BacksUpAsked, BacksUpKept, saved_line};

use crate::end::End;
use crate::filling::fill;
use crate::moment::ask_tries;
use crate::target::Target;
use crate::telling::{tell, tell_fault, tell_made};
use ipam_io::{Link, Sink};
use ipam_keeper::{KeepFault, Keeper};
use ipam_records::Row;
use std::alloc::{AllocError, Global};

/// Asks the daemon for all its rows as they stand at one revision, puts them into the new database, makes sure of
/// them at once, closes it, and writes how many there are. Where the datastore changes each time while they are
/// asked for, the line is `datastore busy`, and nothing is put in.
pub fn back_up_asked<K: Sink, L: Link, D: Target>(
    alloc: Global,
    sink: &mut K,
    link: &mut L,
    target: &mut D,
) -> End
    ensures told { (came : Result (Option (List RowText)) Fault) × (held : List ℕ)
        × AsksTries tries_at_most came
        (record {
          sent = L.written link.old;
          send_faults = L.write_faults link.old;
          coming = L.left link.old;
          read_faults = L.read_faults link.old;
        })
        (record {
          sent = L.written link.new;
          send_faults = L.write_faults link.new;
          coming = prepend_known held (L.left link.new);
          read_faults = L.read_faults link.new;
        })
        × BacksUpAsked (D.closed target.new) came
        (record { rows = D.rows target.old; settled = D.settled target.old; faults = D.faults target.old; written = K.written sink.old; write_faults = K.write_faults sink.old })
        (record { rows = D.rows target.new; settled = D.settled target.new; faults = D.faults target.new; written = K.written sink.new; write_faults = K.write_faults sink.new })
        result }
    ensures rest { K.write_rest sink.new ≡ K.write_rest sink.old }
{
    match ask_tries(alloc, link) {
        Ok(Some(rows)) => back_up(alloc, sink, rows.as_slice(), target),
        Ok(None) => tell(sink, "datastore busy\n", End::Refused),
        Err(fault) => tell_fault(sink, fault),
    }
}

/// Puts all rows of the keeper into the new database, makes sure of them at once, closes it, and writes how many
/// there are.
pub fn back_up_kept<K: Sink, F: Keeper, D: Target>(
    alloc: Global,
    sink: &mut K,
    from: &mut F,
    target: &mut D,
) -> End
    ensures told { BacksUpKept (D.closed target.new) (F.rows from.old) (F.faults from.old) (F.faults from.new)
        (record { rows = D.rows target.old; settled = D.settled target.old; faults = D.faults target.old; written = K.written sink.old; write_faults = K.write_faults sink.old })
        (record { rows = D.rows target.new; settled = D.settled target.new; faults = D.faults target.new; written = K.written sink.new; write_faults = K.write_faults sink.new })
        result }
    ensures same_rows { F.rows from.new ≡ F.rows from.old }
    ensures rest { K.write_rest sink.new ≡ K.write_rest sink.old }
{
    match from.load() {
        Ok(rows) => back_up(alloc, sink, rows.as_slice(), target),
        Err(KeepFault::Failed) => tell(sink, "keeper fault\n", End::KeeperFault),
        Err(KeepFault::Memory) => End::NoMemory,
    }
}

/// Puts the rows into the new database, makes sure of them at once, closes it, and writes how many there are.
fn back_up<K: Sink, D: Target>(alloc: Global, sink: &mut K, rows: &[Row], target: &mut D) -> End
    ensures told { BacksUp (D.closed target.new) rows.now
        (record { rows = D.rows target.old; settled = D.settled target.old; faults = D.faults target.old; written = K.written sink.old; write_faults = K.write_faults sink.old })
        (record { rows = D.rows target.new; settled = D.settled target.new; faults = D.faults target.new; written = K.written sink.new; write_faults = K.write_faults sink.new })
        result }
    ensures rest { K.write_rest sink.new ≡ K.write_rest sink.old }
{
    match fill(target, rows) {
        Ok(()) => tell_made(sink, saved_line(alloc, rows.len()), End::Done),
        Err(KeepFault::Failed) => tell(sink, "keeper fault\n", End::KeeperFault),
        Err(KeepFault::Memory) => End::NoMemory,
    }
}

#[tactic(auto, unfolding(crate::specs::Backing::saved_line))]
fn saved_line(alloc: Global, count: usize) -> Result<String, AllocError>
    ensures { IfOk result (λ text. string_bytes text ≡ saved_line count) }
{
    format!(in alloc; "saved {count} rows\n")
}
