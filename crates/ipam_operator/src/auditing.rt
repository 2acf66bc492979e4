//! `audit N`: writes what stands in two looks.
ghost use Rattle.std.specs.Prelude.{◌≡◌, ◌≤◌, ◌<◌, ℕ, List, Result};
ghost use Rattle.std.specs.Io.KnownBytes.{prepend_known};
ghost use Rattle.ipam_commands.specs.declared.audit_report.Report.{Report as LeftOver};
ghost use Rattle.ipam_operator.specs.declared.asking.AskFault.{AskFault as Fault};
ghost use Rattle.ipam_operator.specs.Telling.{Says};
ghost use Rattle.ipam_words.specs.declared.reading.TheConstants.{MOST_WORKERS};
ghost use Rattle.ipam_operator.specs.Looking.{LooksTwice};
ghost use Rattle.ipam_operator.specs.RowsTelling.{ReportTakesMemory, audit_end, audit_said};

use crate::end::End;
use crate::looking::look_twice;
use crate::telling::{tell_fault, tell_made};
use ipam_commands::report_text;
use ipam_io::{Link, Sink};
use std::alloc::Global;
use std::thread::Threads;

/// Asks the daemon for its handles, blocks and affinities, page by page, twice, and writes the lines that the
/// same word writes over a file: of the counts and affinities that are left over, those that both looks have
/// alike, and how many blocks, owners and handles the second look has.
///
/// Rows of two pages may have stood at two moments, so a look can have a count of a request that runs. A line
/// may be of one too, where it was the same in both looks. Rules of several rows are not looked at: a daemon
/// opened its rows by them.
pub fn audit<R: Threads + Sync, K: Sink, L: Link>(
    rt: &R,
    alloc: Global,
    sink: &mut K,
    link: &mut L,
    workers: u8,
) -> End
    requires some { 0 < workers }
    requires few { workers ≤ MOST_WORKERS }
    ensures told { (came : Result LeftOver Fault) × (held : List ℕ)
        × LooksTwice came
        (record {
          sent = L.written link.old;
          send_faults = L.write_faults link.old;
          coming = L.left link.old;
          read_faults = L.read_faults link.old;
        })
        (record {
          sent = L.written link.new;
          send_faults = L.write_faults link.new;
          coming = prepend_known held (L.left link.new);
          read_faults = L.read_faults link.new;
        })
        × Says (ReportTakesMemory came) (K.written sink.old) (K.written sink.new)
        (K.write_faults sink.old) (K.write_faults sink.new) (audit_said came) (audit_end came) result }
    ensures rest { K.write_rest sink.new ≡ K.write_rest sink.old }
{
    match look_twice(rt, alloc, link, workers) {
        Ok(report) => tell_made(sink, report_text(alloc, &report), End::Done),
        Err(fault) => tell_fault(sink, fault),
    }
}
