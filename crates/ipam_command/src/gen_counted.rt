//! A cluster that events happen to one by one, and what is counted of the answers.
ghost use Rattle.std.specs.Prelude.{◌≡◌, ◌<◌, ◌+◌, ◌^◌, ℕ, None, IfOk, OnOk, if◌then◌else◌};
ghost use Rattle.std.specs.List.{All};
ghost use Rattle.ipam_records.specs.Sound.{IsHandleId};
ghost use Rattle.ipam_model.specs.Course.{Begin, Feed, Turn};
ghost use Rattle.ipam_model.specs.SoundRequest.{IsSoundRequest};
ghost use Rattle.ipam_model.specs.declared.entry.Fate.TheVariants.{Well};
ghost use Rattle.ipam_model.specs.declared.entry.SlotState.TheVariants as state;
ghost use Rattle.ipam_cluster.specs.Cluster.{WaitsWith, slot_of_cluster, state_in};
ghost use Rattle.ipam_command.specs.Counted.{CountsOne};
ghost use Rattle.ipam_command.specs.Summary.{answer_told, is_again, is_exhausted};

use crate::gen_telling::answer_in;
use ipam_cluster::{BeginFault, Cluster, FeedFault, PrepareFault};
use ipam_model::{Answer, Entry, Fate, Request, SLOTS};
use ipam_text::Text;
use std::alloc::{AllocError, Global};

/// A cluster over the generator's base, and how many requests were answered so.
#[derive(Drop)]
pub(crate) struct Counted {
    pub(crate) cluster: Cluster,
    /// That they were tried too often.
    pub(crate) again: u64,
    /// That no address was left.
    pub(crate) exhausted: u64,
}

impl Counted {
    ghost use Rattle.ipam_command.specs.Counted.{Happens, HappensAs, IsSomewhere};

    /// The request begins in the slot. On `Err` there was no memory; so it is reported where the cluster has
    /// 2^62 entries, which no process lives to see.
    pub(crate) fn begin(
        &mut self,
        alloc: Global,
        slot: u8,
        request: &Request,
    ) -> Result<(), AllocError>
        requires slot { slot < SLOTS }
        requires sound { IsSoundRequest request.now }
        requires idle { slot_of_cluster self.old.cluster slot ≡ None }
        requires somewhere { IsSomewhere self.old }
        ensures happens { OnOk result (Happens self.old self.new (Begin slot request.now)) }
        ensures counts { OnOk result (CountsOne self.old.cluster self.new.cluster) }
    {
        match self.cluster.begin(alloc, slot, request) {
            Ok(entry) => {
                self.note(&entry);
                drop(entry);
                Ok(())
            }
            Err(BeginFault::SlotBusy) => unreachable!(),
            Err(BeginFault::Worn | BeginFault::Memory) => Err(AllocError),
        }
    }

    /// The slot takes a turn: its next call is made. On `Err` likewise.
    pub(crate) fn turn(&mut self, alloc: Global, slot: u8) -> Result<Entry, AllocError>
        requires slot { slot < SLOTS }
        requires running { state_in (slot_of_cluster self.old.cluster slot) ≡ state.Running }
        requires somewhere { IsSomewhere self.old }
        ensures happens { IfOk result (HappensAs self.old self.new (Turn slot Well)) }
        ensures counts { OnOk result (CountsOne self.old.cluster self.new.cluster) }
        ensures others { (other : ℕ) → ¬ (other ≡ slot) → slot_of_cluster self.new.cluster other ≡ slot_of_cluster self.old.cluster other }
    {
        match self.cluster.prepare(alloc, slot) {
            Ok(prepared) => {
                let entry = self.cluster.commit(prepared, Fate::Well);
                self.note(&entry);
                Ok(entry)
            }
            Err(PrepareFault::SlotIdle | PrepareFault::Waiting) => unreachable!(),
            Err(PrepareFault::Worn | PrepareFault::Memory) => Err(AllocError),
        }
    }

    /// The collection that waits in slot 0 is fed the list. It has no grace, so the list is not too early.
    /// On `Err` likewise.
    pub(crate) fn feed(&mut self, alloc: Global, live: &[Text]) -> Result<(), AllocError>
        requires waits { WaitsWith (slot_of_cluster self.old.cluster 0) (record { at = 0; grace = 0 }) }
        requires sound { All IsHandleId live.now }
        requires somewhere { IsSomewhere self.old }
        ensures happens { OnOk result (Happens self.old self.new (Feed 0 0 live.now)) }
        ensures counts { OnOk result (CountsOne self.old.cluster self.new.cluster) }
    {
        match self.cluster.feed(alloc, 0, live, 0) {
            Ok(entry) => {
                self.note(&entry);
                drop(entry);
                Ok(())
            }
            Err(FeedFault::NotWaiting) => unreachable!(),
            Err(
                FeedFault::TooSoon {
                    at: _since,
                    grace: _grace,
                },
            ) => unreachable!(),
            Err(FeedFault::Worn | FeedFault::Memory) => Err(AllocError),
        }
    }

    /// Counts the answer, if the entry has one.
    fn note(&mut self, entry: &Entry)
        requires again { self.old.again < 2 ^ 63 }
        requires exhausted { self.old.exhausted < 2 ^ 63 }
        ensures again { self.new.again ≡ (if is_again (answer_told entry.now) then 1 else 0) + self.old.again }
        ensures exhausted { self.new.exhausted ≡ (if is_exhausted (answer_told entry.now) then 1 else 0) + self.old.exhausted }
        ensures cluster { self.new.cluster ≡ self.old.cluster }
    {
        match answer_in(entry) {
            Some(Answer::Again(_, _)) => self.again += 1,
            Some(Answer::Exhausted(_)) => self.exhausted += 1,
            _ => {}
        }
    }
}
