//! A cluster over a base that was opened, event by event.
ghost use Rattle.std.specs.Prelude.{◌≡◌, ◌<◌, ◌≢◌, ◌↔◌, ◌≤◌, ◌+◌, ◌^◌, ℕ, [], true, false, List, IfErr, OnOk, OnErr, IfSome, IfNone, IsNone, None};
ghost use Rattle.ipam_model.specs.Course as event;
ghost use Rattle.ipam_model.specs.declared.entry.Entry.TheVariants as entry;
ghost use Rattle.ipam_cluster.specs.Cluster.{AddsTo, slot_of_cluster};
ghost use Rattle.ipam_model.specs.declared.entry.Fate.{Fate as AnyFate};
ghost use Rattle.ipam_model.specs.declared.request.Request.{Request as AnyRequest};
ghost use Rattle.ipam_play.specs.Events.{IsToldBy, Keeps, MayMake};
ghost use Rattle.ipam_play.specs.Times.{IsTimed, StandsTimed};

use crate::fault::PlayFault;
use ipam_cluster::{Cluster, MOST_ENTRIES};
use ipam_model::{Entry, SLOTS, SlotState};

/// A cluster over a base that was opened.
#[derive(Drop)]
pub(crate) struct OpenCluster {
    pub(crate) cluster: Cluster,
    /// When the first list of what began last in each slot was made, in seconds; 0 where that is no
    /// collection.
    pub(crate) at: [u64; SLOTS],
    /// Its grace, in seconds.
    pub(crate) grace: [u64; SLOTS],
}

impl OpenCluster {
    /// What runs in the slot is stopped, where anything does.
    pub(crate) fn stop(&mut self, slot: u8) -> Option<Entry>
        requires { slot < SLOTS }
        ensures idle { IsNone result ↔ (slot_of_cluster self.old.cluster slot ≡ None) }
        ensures entry { IfSome result (λ stopped. stopped ≡ entry.Stopped slot) }
        ensures adds { IfSome result (AddsTo self.old.cluster self.new.cluster) }
        ensures kept { IfNone result (Keeps self.old.cluster self.new.cluster) }
        ensures others { (other : ℕ) → other ≢ slot → slot_of_cluster self.new.cluster other ≡ slot_of_cluster self.old.cluster other }
        ensures timed { IsTimed self.old → IsTimed self.new }
    {
        self.cluster.stop(slot)
    }

    // ---- what is known of an event before memory is taken for it

    /// Whether a request may begin in the slot. Takes no memory.
    pub(crate) fn may_begin(&self, slot: u8) -> Result<(), PlayFault>
        requires slot { slot < SLOTS }
        ensures may { (request : AnyRequest) → OnOk result (MayMake self.now.cluster [] (event.Begin slot request)) }
        ensures refused { (request : AnyRequest) → IfErr result (IsToldBy self.now.cluster [] (event.Begin slot request)) }
    {
        match self.cluster.state(slot) {
            SlotState::Idle => self.unless_worn(),
            _ => Err(PlayFault::Busy),
        }
    }

    /// Whether the slot's next call may be made. Takes no memory.
    pub(crate) fn may_turn(&self, slot: u8) -> Result<(), PlayFault>
        requires slot { slot < SLOTS }
        ensures may { (fate : AnyFate) → OnOk result (MayMake self.now.cluster [] (event.Turn slot fate)) }
        ensures refused { (fate : AnyFate) → IfErr result (IsToldBy self.now.cluster [] (event.Turn slot fate)) }
    {
        match self.cluster.state(slot) {
            SlotState::Idle => Err(PlayFault::Idle),
            SlotState::Waiting => Err(PlayFault::Waiting),
            SlotState::Running => self.unless_worn(),
        }
    }

    /// Whether the slot's collection may be fed a second list of this time. Takes no memory.
    pub(crate) fn may_feed(&self, slot: u8, at: u64) -> Result<(), PlayFault>
        requires slot { slot < SLOTS }
        requires standing { StandsTimed self.now }
        ensures may { (live : List (List ℕ)) → OnOk result (MayMake self.now.cluster [] (event.Feed slot at live)) }
        ensures refused { (live : List (List ℕ)) → IfErr result (IsToldBy self.now.cluster [] (event.Feed slot at live)) }
    {
        let SlotState::Waiting = self.cluster.state(slot) else {
            return Err(PlayFault::NotWaiting);
        };
        if is_early(self.at[slot as usize], self.grace[slot as usize], at) {
            return Err(PlayFault::TooSoon);
        }
        self.unless_worn()
    }

    /// Whether what runs in the slot may be stopped. Takes no memory.
    pub(crate) fn may_stop(&self, slot: u8) -> Result<(), PlayFault>
        requires slot { slot < SLOTS }
        ensures may { OnOk result (MayMake self.now.cluster [] (event.Stop slot)) }
        ensures refused { IfErr result (IsToldBy self.now.cluster [] (event.Stop slot)) }
    {
        match self.cluster.state(slot) {
            SlotState::Idle => Err(PlayFault::Idle),
            _ => Ok(()),
        }
    }

    /// Whether one entry more may be made.
    fn unless_worn(&self) -> Result<(), PlayFault>
        ensures few { OnOk result (self.now.cluster.entries < 2 ^ 62) }
        ensures many { OnErr result (2 ^ 62 ≤ self.now.cluster.entries) }
        ensures told { IfErr result (λ told. told ≡ PlayFault.Worn) }
    {
        if self.cluster.entries() < MOST_ENTRIES {
            Ok(())
        } else {
            Err(PlayFault::Worn)
        }
    }
}

/// Whether this time is before the end of the grace after the first list.
fn is_early(since: u64, grace: u64, at: u64) -> bool
    ensures early { result ≡ true → at < since + grace }
    ensures late { result ≡ false → since + grace ≤ at }
{
    if at < since {
        return true;
    }
    at - since < grace
}
