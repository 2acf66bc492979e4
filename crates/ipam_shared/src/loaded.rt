//! The rows that a keeper loads.
ghost use Rattle.std.specs.Prelude.{◌≡◌, ◌≤◌, ◌+◌, ◌^◌, ℕ, [], None, Err, IfOk, IfErr, OnOk};
ghost use Rattle.ipam_store.specs.Follows.{Follows};
ghost use Rattle.ipam_io.specs.Counts.{Rose};
ghost use Rattle.ipam_keeper.specs.Keeping.{IsTold, OnFailed, UnlessFailed};
ghost use Rattle.ipam_keeper.specs.Rows.{Ascend};
ghost use Rattle.ipam_model.specs.declared.limits.TheConstants.{SLOTS};
ghost use Rattle.ipam_opening.specs.Opening.{IsFaultOf};
ghost use Rattle.ipam_shared.specs.Faults.{IsWhyNot};
ghost use Rattle.ipam_shared.specs.Opening.{IsFed};
ghost use Rattle.ipam_shared.specs.Rows.{greatest, texts_loaded};

use crate::feed::open_ring;
use crate::opener::Opens;
use ipam_cluster::{Base, Cluster, OpenFault};
use ipam_keeper::{KeepFault, Keeper};
use ipam_records::Row;
use ipam_store::Ring;
use std::alloc::Global;

/// What takes the memory for opening a keeper's rows. What is generic over it knows nothing of it, and so can't
/// state by itself that it found none.
pub trait OpensKept {
    /// It found no memory.
    ghost wants: { Self → Type 0 };

    /// Loads all rows, and has the keeper make sure of them.
    fn load_sure<D: Keeper>(&self, keeper: &mut D) -> Result<Vec<Row>, KeepFault>
        ensures ascending { IfOk result (λ loaded. Ascend loaded.items) }
        ensures told { IfOk result (λ loaded. IsTold (D.rows keeper.old) loaded.items) }
        ensures kept { D.rows keeper.new ≡ D.rows keeper.old }
        ensures settled { OnOk result (D.settled keeper.new ≡ D.rows keeper.new) }
        ensures fault { OnFailed result (Rose (D.faults keeper.old) (D.faults keeper.new)) }
        ensures no_fault { UnlessFailed result (D.faults keeper.new ≡ D.faults keeper.old) }
        ensures same { D.name keeper.new ≡ D.name keeper.old }
        ensures wants { result ≡ Err KeepFault.Memory → wants self.now };

    /// Opens the rows in a cluster in which nothing runs, with their greatest revision as the counter and so
    /// many entries, and with the feed of its routes.
    fn open_fed(&self, rows: Vec<Row>, first: u64) -> Result<(Cluster, Ring), OpenFault>
        requires ascend { Ascend rows.items }
        requires first { first ≤ 2 ^ 62 + SLOTS }
        ensures opened { IfOk result (IsFed first rows.items) }
        ensures refused { IfErr result (IsFaultOf (texts_loaded rows.items)) }
        ensures wants { result ≡ Err OpenFault.Memory → wants self.now };
}

impl OpensKept for Global {
    ghost wants = { λ _. Unit {0} };

    fn load_sure<D: Keeper>(&self, keeper: &mut D) -> Result<Vec<Row>, KeepFault> {
        let rows = keeper.load()?;
        keeper.settle()?;
        Ok(rows)
    }

    fn open_fed(&self, rows: Vec<Row>, first: u64) -> Result<(Cluster, Ring), OpenFault> {
        let counter = greatest_revision(&rows);
        let base = Base {
            rows,
            counter,
            first,
        };
        let opened = Cluster::open(*self, &base);
        drop(base);
        let cluster = opened?;
        match open_ring(*self, cluster.store()) {
            Ok(ring) => Ok((cluster, ring)),
            Err(_) => Err(OpenFault::Memory),
        }
    }
}

/// What opens rows in a cluster in which nothing runs, after so many entries.
#[derive(Drop)]
pub(crate) struct Feeding<T> {
    pub(crate) alloc: T,
    pub(crate) first: u64,
}

impl<T: OpensKept + Drop> Opens for Feeding<T> {
    type Opened = (Cluster, Ring);

    ghost may = { λ feeding. feeding.first ≤ 2 ^ 62 + SLOTS };

    ghost opens = { λ feeding rows both. IsFed feeding.first rows both };

    ghost refuses = { λ feeding rows fault. IsWhyNot (T.wants feeding.alloc) rows fault };

    fn open(self, rows: Vec<Row>) -> Result<(Cluster, Ring), OpenFault> {
        self.alloc.open_fed(rows, self.first)
    }
}

/// The greatest revision of the rows, or 0.
pub fn greatest_revision(rows: &[Row]) -> u64
    ensures { result ≡ greatest rows.now }
{
    let mut most = 0;
    for row in rows {
        most = most.max(row.revision);
    }
    most
}
