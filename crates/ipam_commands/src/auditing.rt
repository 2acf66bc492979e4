//! The audit of rows.
ghost use Rattle.std.specs.Prelude.{◌≡◌, ◌≤◌, ◌<◌, length, IfOk, IfErr};
ghost use Rattle.ipam_cluster.specs.Turns.{texts_in};
ghost use Rattle.ipam_model.specs.Opened.{AreByKey};
ghost use Rattle.ipam_records.specs.declared.key.Kind.TheVariants as kind;
ghost use Rattle.ipam_records.specs.Datastore.{most_blocks, rows_of_kind};
ghost use Rattle.ipam_opening.specs.Opening.{IsFaultOf};
ghost use Rattle.ipam_commands.specs.Reported.{report_of};
ghost use Rattle.ipam_commands.specs.Parts.{IsReportOf};
ghost use Rattle.ipam_words.specs.declared.reading.TheConstants.{MOST_WORKERS};

use crate::audit_affinities::{stale, stray};
use crate::audit_counted::owners;
use crate::audit_excess::excess_in;
use crate::audit_look::listing;
use crate::audit_report::Report;
use ipam_cluster::Base;
use ipam_opening::{OpenFault, open};
use ipam_records::Kind;
use ipam_store::Store;
use ipam_text::Seq;
use std::alloc::{AllocError, Global};
use std::thread::Threads;

/// Opens the rows as a cluster does, and reports on them: with 1 to 16 workers, and the same for every
/// number of them.
///
/// Fails with `Refused` where the rows break one of the ten rules, with the number of the first of
/// them and, of the keys that break it, the first by its bytes.
#[tactic(auto, using(crate::proofs::Opened::reported))]
pub fn audit<R: Threads + Sync>(
    rt: &R,
    alloc: Global,
    base: &Base,
    workers: u8,
) -> Result<Report, OpenFault>
    requires by_key { AreByKey base.now.rows.items }
    requires some { 0 < workers }
    requires few { workers ≤ MOST_WORKERS }
    ensures report { IfOk result (IsReportOf (texts_in base.now)) }
    ensures refused { IfErr result (IsFaultOf (texts_in base.now)) }
{
    let store = open(alloc, base.rows.as_slice(), base.counter)?;
    match report_on(rt, alloc, &store, workers) {
        Ok(report) => Ok(report),
        Err(_) => Err(OpenFault::Memory),
    }
}

/// Reports on these rows: with 1 to 16 workers, and the same for every number of them. What holds of several
/// rows at once need not hold of these.
pub fn report_on<R: Threads + Sync>(
    rt: &R,
    alloc: Global,
    store: &Store,
    workers: u8,
) -> Result<Report, AllocError>
    requires some { 0 < workers }
    requires few { workers ≤ MOST_WORKERS }
    requires few_blocks { length (rows_of_kind kind.Block store.now.store) ≤ most_blocks }
    ensures { IfOk result (λ report. report ≡ report_of store.now.store) }
{
    let handles = listing(store, Kind::Handle);
    let excess = excess_in(alloc, store, handles.pages())?;
    let stale = stale(alloc, store)?;
    let stray = stray(alloc, store)?;
    let owners = owners(rt, alloc, store, workers)?;
    Ok(Report {
        excess: Seq::of(excess),
        stale: Seq::of(stale),
        stray: Seq::of(stray),
        blocks: listing(store, Kind::Block).len() as u64,
        owners,
        handles: handles.len() as u64,
    })
}
