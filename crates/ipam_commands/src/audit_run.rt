//! The program's words `audit N`.
ghost use Rattle.std.specs.Prelude.{◌≡◌, ◌≤◌, ◌<◌, ◌⊎◌, None, Err, IsSome, IfOk, IfErr, OnOk, OnErr, map, string_bytes};
ghost use Rattle.std.specs.Thread.{IsSync};
ghost use Rattle.ipam_shared.specs.Faults.{not_loaded, not_opened};
ghost use Rattle.ipam_commands.specs.Telling.{IsNotLoaded, ReportsRows, Writes};
ghost use Rattle.ipam_commands.specs.declared.status.Status.TheVariants.{UnknownWords};
ghost use Rattle.ipam_io.specs.Counts.{Rose};
ghost use Rattle.ipam_keeper.specs.Keeping.{IsTold, OnFailed, UnlessFailed};
ghost use Rattle.ipam_keeper.specs.Rows.{Ascend};
ghost use Rattle.ipam_shared.specs.Rows.{texts_loaded};
ghost use Rattle.ipam_opening.specs.Opening.{IsFaultOf};
ghost use Rattle.ipam_commands.specs.Parts.{IsReportOf};
ghost use Rattle.ipam_commands.specs.Printed.{report_text};
ghost use Rattle.ipam_commands.specs.Reported.{report_of};
ghost use Rattle.ipam_commands.specs.Run.{EndsSo, IsReportTold, unknown_line};
ghost use Rattle.ipam_commands.specs.Words.{workers_asked};
ghost use Rattle.ipam_words.specs.declared.reading.TheConstants.{MOST_WORKERS};

use crate::audit_printed::report_text;
use crate::audit_report::Report;
use crate::audit_words::workers_asked;
use crate::auditing::audit;
use crate::status::Status;
use crate::telling::{MakesBroken, tell, tell_fault, tell_made};
use ipam_cluster::Base;
use ipam_io::Sink;
use ipam_keeper::{KeepFault, Keeper};
use ipam_opening::OpenFault;
use ipam_records::Row;
use ipam_shared::{KeptFault, greatest_revision};
use std::alloc::{AllocError, Global};
use std::thread::Threads;

/// Runs the words `audit N` over the rows of a keeper, with N workers from 1 to 16, and answers the
/// exit status: 0 where the report was written, 2 where the words have not this form, 4 and 5 where
/// the sink or the keeper failed, 6 where there was no memory, 7 where the rows may not be opened. The
/// rows stay. The lines for other words and for a keeper that failed take no memory.
pub fn run_audit<R: Threads + Sync, K: Sink, D: Keeper>(
    rt: &R,
    alloc: Global,
    words: &[String],
    sink: &mut K,
    keeper: &mut D,
) -> u8
    ensures audited { IsSome (workers_asked (map string_bytes words.now)) → EndsSo result (λ ending.
        ReportsRows (D.rows keeper.old) (D.faults keeper.old) (D.faults keeper.new) (λ rows store. report_text (report_of store))
        (λ text own. Writes (K.written sink.old) (K.written sink.new)
        (K.write_faults sink.old) (K.write_faults sink.new) text own ending)) }
    ensures unknown { workers_asked (map string_bytes words.now) ≡ None → EndsSo result (λ ending.
        Writes (K.written sink.old) (K.written sink.new)
        (K.write_faults sink.old) (K.write_faults sink.new) unknown_line UnknownWords ending) }
    ensures unasked { workers_asked (map string_bytes words.now) ≡ None → D.faults keeper.new ≡ D.faults keeper.old }
    ensures same_rows { D.rows keeper.new ≡ D.rows keeper.old }
    ensures same { D.name keeper.new ≡ D.name keeper.old }
    ensures rest { K.write_rest sink.new ≡ K.write_rest sink.old }
{
    match workers_asked(words) {
        Some(workers) => tell_audit(rt, alloc, workers, sink, keeper).code(),
        None => tell(sink, "unknown words\n", Status::UnknownWords).code(),
    }
}

/// Writes the report on the keeper's rows, or why there is none. It ends for want of memory only where the audit
/// found none, or the line on broken rows.
fn tell_audit<R: Threads + Sync, T: Audits + MakesBroken + Copy + Drop, K: Sink, D: Keeper>(
    rt: &R,
    alloc: T,
    workers: u8,
    sink: &mut K,
    keeper: &mut D,
) -> Status
    requires some { 0 < workers }
    requires few { workers ≤ MOST_WORKERS }
    ensures told { ReportsRows (D.rows keeper.old) (D.faults keeper.old) (D.faults keeper.new) (λ rows store. report_text (report_of store))
        (λ text own. Writes (K.written sink.old) (K.written sink.new)
        (K.write_faults sink.old) (K.write_faults sink.new) text own result) }
    ensures want_of_memory_has_its_cause { result ≡ Status.NoMemory → T.Audits.wants alloc ⊎ T.MakesBroken.wants alloc }
    ensures same_rows { D.rows keeper.new ≡ D.rows keeper.old }
    ensures same { D.name keeper.new ≡ D.name keeper.old }
    ensures rest { K.write_rest sink.new ≡ K.write_rest sink.old }
{
    match audit_kept(rt, alloc, workers, keeper) {
        Ok(report) => {
            let text = alloc.text(&report);
            tell_made(sink, text, Status::Done)
        }
        Err(fault) => tell_fault(alloc, sink, fault),
    }
}

/// What takes the memory for an audit of a keeper's rows. What is generic over it knows nothing of it, and so
/// can't state by itself that it found none.
trait Audits {
    /// It found no memory.
    ghost wants: { Self → Type 0 };

    /// All rows, by ascending bytes of their keys.
    fn load<D: Keeper>(&self, keeper: &mut D) -> Result<Vec<Row>, KeepFault>
        ensures ascending { IfOk result (λ loaded. Ascend loaded.items) }
        ensures told { IfOk result (λ loaded. IsTold (D.rows keeper.old) loaded.items) }
        ensures kept { D.rows keeper.new ≡ D.rows keeper.old }
        ensures fault { OnFailed result (Rose (D.faults keeper.old) (D.faults keeper.new)) }
        ensures no_fault { UnlessFailed result (D.faults keeper.new ≡ D.faults keeper.old) }
        ensures same { D.name keeper.new ≡ D.name keeper.old }
        ensures wants { result ≡ Err KeepFault.Memory → wants self.now };

    /// The report on these rows, with their greatest revision as the counter.
    fn audit<R: Threads + Sync>(
        &self,
        rt: &R,
        workers: u8,
        rows: Vec<Row>,
    ) -> Result<Report, OpenFault>
        requires sync { IsSync R.row }
        requires by_key { Ascend rows.items }
        requires some { 0 < workers }
        requires few { workers ≤ MOST_WORKERS }
        ensures report { IfOk result (IsReportOf (texts_loaded rows.items)) }
        ensures refused { IfErr result (IsFaultOf (texts_loaded rows.items)) }
        ensures wants { result ≡ Err OpenFault.Memory → wants self.now };

    /// The text of the report.
    fn text(&self, report: &Report) -> Result<String, AllocError>
        ensures text { IfOk result (λ text. string_bytes text ≡ report_text report.now) }
        ensures wants { OnErr result (wants self.now) };
}

impl Audits for Global {
    ghost wants = { λ _. Unit {0} };

    fn load<D: Keeper>(&self, keeper: &mut D) -> Result<Vec<Row>, KeepFault> {
        keeper.load()
    }

    fn audit<R: Threads + Sync>(
        &self,
        rt: &R,
        workers: u8,
        rows: Vec<Row>,
    ) -> Result<Report, OpenFault> {
        audit_loaded(rt, *self, workers, rows)
    }

    fn text(&self, report: &Report) -> Result<String, AllocError> {
        report_text(*self, report)
    }
}

/// The report on the keeper's rows. `Memory` is returned only where loading or auditing them found none.
#[tactic(auto, using(crate::proofs::Causes::loading_has_cause, crate::proofs::Causes::opening_has_cause))]
fn audit_kept<R: Threads + Sync, T: Audits + Drop, D: Keeper>(
    rt: &R,
    alloc: T,
    workers: u8,
    keeper: &mut D,
) -> Result<Report, KeptFault>
    requires some { 0 < workers }
    requires few { workers ≤ MOST_WORKERS }
    ensures reported { IfOk result (IsReportTold (D.rows keeper.old)) }
    ensures no_fault { OnOk result (D.faults keeper.new ≡ D.faults keeper.old) }
    ensures refused { IfErr result (IsNotLoaded (D.rows keeper.old) (D.faults keeper.old) (D.faults keeper.new)) }
    ensures want_of_memory_has_its_cause { IfErr result (λ fault. fault ≡ KeptFault.Memory → T.wants alloc) }
    ensures same_rows { D.rows keeper.new ≡ D.rows keeper.old }
    ensures same { D.name keeper.new ≡ D.name keeper.old }
{
    let rows = match alloc.load(keeper) {
        Ok(rows) => rows,
        Err(fault) => return Err(not_loaded(fault)),
    };
    match alloc.audit(rt, workers, rows) {
        Ok(report) => Ok(report),
        Err(fault) => Err(not_opened(fault)),
    }
}

// (opening is generic elsewhere; a runtime that threads share can't be handed through that)
fn not_loaded(fault: KeepFault) -> KeptFault
    ensures { result ≡ not_loaded fault }
{
    match fault {
        KeepFault::Failed => KeptFault::Keeper,
        KeepFault::Memory => KeptFault::Memory,
    }
}

fn not_opened(fault: OpenFault) -> KeptFault
    ensures { result ≡ not_opened fault }
{
    match fault {
        OpenFault::Refused(number, about) => KeptFault::Refused(number, about),
        OpenFault::Memory => KeptFault::Memory,
    }
}

/// The report on these rows, with their greatest revision as the counter.
fn audit_loaded<R: Threads + Sync>(
    rt: &R,
    alloc: Global,
    workers: u8,
    rows: Vec<Row>,
) -> Result<Report, OpenFault>
    requires by_key { Ascend rows.items }
    requires some { 0 < workers }
    requires few { workers ≤ MOST_WORKERS }
    ensures report { IfOk result (IsReportOf (texts_loaded rows.items)) }
    ensures refused { IfErr result (IsFaultOf (texts_loaded rows.items)) }
{
    let counter = greatest_revision(&rows);
    let base = Base {
        rows,
        counter,
        first: 0,
    };
    audit(rt, alloc, &base, workers)
}
