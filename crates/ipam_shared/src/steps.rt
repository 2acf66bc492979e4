//! The steps of a request that runs by itself in slot 0, from its beginning.
ghost use Rattle.std.specs.Prelude.{◌≡◌, ◌-◌, ◌^◌, ◌⊎◌, Err, IfOk, OnOk, OnErr};
ghost use Rattle.ipam_io.specs.Counts.{Rose};
ghost use Rattle.ipam_keeper.specs.Keeping.{OnFailed, UnlessFailed};
ghost use Rattle.ipam_model.specs.declared.entry.Entry.TheVariants as entry;
ghost use Rattle.ipam_model.specs.declared.entry.SlotState.TheVariants as state;
ghost use Rattle.ipam_model.specs.SoundRequest.{IsSoundRequest};
ghost use Rattle.ipam_cluster.specs.Cluster.{slot_of_cluster, state_in};
ghost use Rattle.ipam_shared.specs.Kept.{IsKept, KeepsWith, LeavesKeeper, Stays};
ghost use Rattle.ipam_shared.specs.Solo.{HasNoGrace, NothingRuns};
ghost use Rattle.ipam_shared.specs.Steps.{Begins, CameToEnd, CountsOne, IsDoneCall, IsFailedCall, IsFed, IsNoStep, IsStep, IsStop, IsUnbegun, MayBegin, MayGoOn, Runs, Wants, WentOn, answer_told};

use crate::going::Going;
use crate::kept::Kept;
use ipam_cluster::{BeginFault, FeedFault, PrepareFault};
use ipam_keeper::{KeepFault, Keeper};
use ipam_model::{Answer, Entry, Request, SlotState};
use std::alloc::{AllocError, Global};

/// What takes the memory for the steps of a request that runs by itself, and for making sure of its rows. What is
/// generic over it knows nothing of it, and so can't state by itself that it found none.
pub trait MakesSteps {
    /// It found no memory, or there are 2^62 entries.
    ghost wants: { Self → Type 0 };

    /// Begins the request. On `Err` nothing has changed.
    fn begin<D: Keeper>(&self, kept: &mut Kept<D>, request: &Request) -> Result<(), AllocError>
        requires sound { IsSoundRequest request.now }
        requires idle { NothingRuns kept.old }
        ensures begun { OnOk result (KeepsWith D.rows kept.old kept.new (entry.Began 0 request.now)) }
        ensures unchanged { OnErr result (Stays D.rows kept.old kept.new) }
        ensures keeper { LeavesKeeper kept.old kept.new }
        ensures wants { OnErr result (wants self.now) };

    /// Makes the next call, or feeds the collection that waits its own first list; with the answer, once
    /// there is one. On `Err` the cluster is as it was.
    fn step<D: Keeper>(
        &self,
        kept: &mut Kept<D>,
        request: &Request,
    ) -> Result<Option<Answer>, AllocError>
        requires sound { IsSoundRequest request.now }
        requires no_grace { HasNoGrace request.now }
        requires runs { Runs D.rows request.now kept.old }
        ensures stepped { IfOk result (IsStep D.rows D.faults request.now kept.old kept.new) }
        ensures unchanged { OnErr result (Stays D.rows kept.old kept.new) }
        ensures no_step { OnErr result (IsNoStep D.faults kept.old kept.new) }
        ensures same { D.name kept.new.keeper ≡ D.name kept.old.keeper }
        ensures wants { OnErr result (wants self.now) };

    /// Has the keeper make sure of all rows. The cluster stays as it is.
    fn settle<D: Keeper>(&self, kept: &mut Kept<D>) -> Result<(), KeepFault>
        ensures done { OnOk result (D.settled kept.new.keeper ≡ D.rows kept.new.keeper) }
        ensures rest { kept.new ≡ record kept.old { keeper = kept.new.keeper; settled = kept.new.settled } }
        ensures rows { D.rows kept.new.keeper ≡ D.rows kept.old.keeper }
        ensures unchanged { Stays D.rows kept.old kept.new }
        ensures fault { OnFailed result (Rose (D.faults kept.old.keeper) (D.faults kept.new.keeper)) }
        ensures no_fault { UnlessFailed result (D.faults kept.new.keeper ≡ D.faults kept.old.keeper) }
        ensures same { D.name kept.new.keeper ≡ D.name kept.old.keeper }
        ensures wants { result ≡ Err KeepFault.Memory → wants self.now };
}

impl MakesSteps for Global {
    ghost wants = { λ _. Unit {0} };

    fn begin<D: Keeper>(&self, kept: &mut Kept<D>, request: &Request) -> Result<(), AllocError> {
        match kept.begin(*self, 0, request) {
            Ok(begun) => {
                drop(begun);
                Ok(())
            }
            Err(BeginFault::SlotBusy) => unreachable!(),
            Err(BeginFault::Worn | BeginFault::Memory) => Err(AllocError),
        }
    }

    fn step<D: Keeper>(
        &self,
        kept: &mut Kept<D>,
        request: &Request,
    ) -> Result<Option<Answer>, AllocError> {
        match kept.cluster().state(0) {
            SlotState::Idle => unreachable!(),
            SlotState::Running => turn(*self, kept),
            SlotState::Waiting => {
                feed(*self, kept, request)?;
                Ok(None)
            }
        }
    }

    fn settle<D: Keeper>(&self, kept: &mut Kept<D>) -> Result<(), KeepFault> {
        kept.settle()
    }
}

/// A request that goes on by itself in slot 0.
#[derive(Drop)]
pub(crate) struct Alone<'a, T> {
    pub(crate) alloc: T,
    pub(crate) request: &'a Request,
}

impl<'a, T: MakesSteps, D: Keeper> Going<Kept<D>> for Alone<'a, T> {
    ghost may = { λ alone kept. MayBegin D.rows alone.request.now kept };

    ghost begins = { λ alone start now. Begins D.rows alone.request.now start now };

    ghost unbegun = { λ alone start now. IsUnbegun D.rows start now × T.wants alone.alloc };

    ghost runs = { λ alone kept. MayGoOn D.rows alone.request.now kept };

    ghost goes = { λ alone start now. WentOn D.rows D.faults D.name alone.request.now start now };

    ghost ends = { λ alone start now answer. CameToEnd D.rows D.faults D.name alone.request.now start now answer };

    ghost wants = { λ alone start now. Wants D.rows D.faults D.name alone.request.now start now × T.wants alone.alloc };

    ghost stops = { λ _ last now. IsStop D.rows last now };

    ghost left = { λ alone kept. 2 ^ 62 - kept.cluster.entries };

    fn begin(&self, kept: &mut Kept<D>) -> Result<(), AllocError> {
        self.alloc.begin(kept, self.request)
    }

    fn step(&self, kept: &mut Kept<D>) -> Result<Option<Answer>, AllocError> {
        self.alloc.step(kept, self.request)
    }

    fn stop(&self, kept: &mut Kept<D>) {
        let stopped = kept.stop(0);
        drop(stopped);
    }
}

/// Makes the next call.
fn turn<D: Keeper>(alloc: Global, kept: &mut Kept<D>) -> Result<Option<Answer>, AllocError>
    requires kept { IsKept D.rows kept.old }
    requires running { state_in (slot_of_cluster kept.old.cluster 0) ≡ state.Running }
    ensures called { IfOk result (λ told. IsDoneCall D.rows D.faults kept.old kept.new told
        ⊎ IsFailedCall D.rows D.faults kept.old kept.new told) }
    ensures counts { OnOk result (CountsOne kept.old kept.new) }
    ensures unchanged { OnErr result (Stays D.rows kept.old kept.new) }
    ensures no_step { OnErr result (IsNoStep D.faults kept.old kept.new) }
    ensures same { D.name kept.new.keeper ≡ D.name kept.old.keeper }
{
    match kept.turn(alloc, 0) {
        Ok(entry) => Ok(answer_told(entry)),
        Err(PrepareFault::SlotIdle | PrepareFault::Waiting) => unreachable!(),
        Err(PrepareFault::Worn | PrepareFault::Memory) => Err(AllocError),
    }
}

fn answer_told(entry: Entry) -> Option<Answer>
    ensures { result ≡ answer_told entry }
{
    match entry {
        Entry::Called(called) => called.answer,
        Entry::Began(_, _) | Entry::Fed(_, _, _) | Entry::Stopped(_) => None,
    }
}

/// Feeds the collection that waits its own first list. It has no grace, so the list is not too early.
fn feed<D: Keeper>(alloc: Global, kept: &mut Kept<D>, request: &Request) -> Result<(), AllocError>
    requires sound { IsSoundRequest request.now }
    requires no_grace { HasNoGrace request.now }
    requires runs { Runs D.rows request.now kept.old }
    requires waiting { state_in (slot_of_cluster kept.old.cluster 0) ≡ state.Waiting }
    ensures fed { OnOk result (IsFed D.rows request.now kept.old kept.new) }
    ensures counts { OnOk result (CountsOne kept.old kept.new) }
    ensures unchanged { OnErr result (Stays D.rows kept.old kept.new) }
    ensures no_step { OnErr result (IsNoStep D.faults kept.old kept.new) }
    ensures keeper { LeavesKeeper kept.old kept.new }
{
    let Request::Collect(collect) = request else {
        unreachable!()
    };
    match kept.feed(alloc, 0, collect.live.as_slice(), collect.at) {
        Ok(fed) => {
            drop(fed);
            Ok(())
        }
        Err(FeedFault::NotWaiting) => unreachable!(),
        Err(
            FeedFault::TooSoon {
                at: _since,
                grace: _grace,
            },
        ) => unreachable!(),
        Err(FeedFault::Worn | FeedFault::Memory) => Err(AllocError),
    }
}
