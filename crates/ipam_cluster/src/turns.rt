//! One call of a slot: it is prepared, and then committed by its fate.
ghost use Rattle.std.specs.Prelude.{◌≡◌, ◌↔◌, ◌<◌, ◌≤◌, ◌+◌, ◌^◌, ℕ, Some, None, Err, slice_set, IfOk};
ghost use Rattle.std.specs.Option.{option_copied, ForSome};
ghost use Rattle.ipam_model.specs.declared.entry.SlotState.TheVariants as state;
ghost use Rattle.ipam_model.specs.declared.entry.Fate.TheVariants as fate_of;
ghost use Rattle.ipam_model.specs.Cluster.{store_with};
ghost use Rattle.ipam_records.specs.Datastore.{write_granted};
ghost use Rattle.ipam_records.specs.Said.{said};
ghost use Rattle.ipam_store.specs.Granted.{IsGranted, IsSoundWrite};
ghost use Rattle.ipam_cluster.specs.Cluster.{slot_of_cluster, state_in, AddsTo, IsUnchanged, StaysRight, Stood};
ghost use Rattle.ipam_cluster.specs.Preparing.{IsPrepared, TellsOf, record_put};
ghost use Rattle.ipam_cluster.specs.Turns.{IsTurn, write_by};

use crate::cluster::{Cluster, MOST_ENTRIES};
use crate::faults::PrepareFault;
use crate::running::RunningTurned;
use crate::slots::{go, put};
use ipam_model::{Answer, CallName, Called, Entry, Fate, SLOTS, SlotState, Told};
use ipam_records::{Call, Heard, Procedure, Record, Reply, Write};
use std::alloc::{AllocError, Global};

/// A call that is prepared: all memory that it takes is taken.
#[derive(Drop)]
pub struct Prepared {
    pub(crate) slot: u8,
    pub(crate) name: CallName,
    pub(crate) reply: Told,
    pub(crate) write: Option<Write>,
    /// The record of the write, for the entry.
    pub(crate) written: Option<Record>,
    pub(crate) turned: RunningTurned,
}

impl Prepared {
    /// What is written if the call is done. None where it only reads, or where it was refused.
    pub fn write(&self) -> Option<&Write>
        ensures { option_copied result ≡ self.now.write }
    {
        match &self.write {
            Some(write) => Some(write),
            None => None,
        }
    }

    /// The call, with what was answered to it and where that leads.
    fn of(
        alloc: Global,
        slot: u8,
        call: Call,
        reply: &Reply,
        turned: RunningTurned,
    ) -> Result<Prepared, AllocError>
        ensures slot { IfOk result (λ prepared. prepared.slot ≡ slot) }
        ensures write { IfOk result (λ prepared. prepared.write ≡ write_granted call (said reply.now)) }
        ensures tells { IfOk result (λ prepared. TellsOf prepared call (said reply.now)) }
        ensures turned { IfOk result (λ prepared. prepared.turned ≡ turned) }
    {
        let name = CallName::of(alloc, &call)?;
        let write = granted(call, reply);
        let written = put_copied(&write)?;
        Ok(Prepared {
            slot,
            name,
            reply: Told::of(reply),
            write,
            written,
            turned,
        })
    }
}

impl Cluster {
    /// Prepares the next call of the slot's request, and takes all memory that it takes. What the cluster
    /// stands for stays as it is.
    pub fn prepare(&mut self, alloc: Global, slot: u8) -> Result<Prepared, PrepareFault>
        requires slot { slot < SLOTS }
        requires stood { Stood self.old }
        ensures idle { (result ≡ Err PrepareFault.SlotIdle) ↔ (slot_of_cluster self.old slot ≡ None) }
        ensures waiting { (result ≡ Err PrepareFault.Waiting) ↔ (state_in (slot_of_cluster self.old slot) ≡ state.Waiting) }
        ensures worn { (result ≡ Err PrepareFault.Worn) ↔ (2 ^ 62 ≤ self.old.entries × state_in (slot_of_cluster self.old slot) ≡ state.Running) }
        ensures slot { IfOk result (λ prepared. prepared.slot ≡ slot) }
        ensures prepared { IfOk result (IsPrepared self.new) }
        ensures unchanged { IsUnchanged self.old self.new }
    {
        match self.state(slot) {
            SlotState::Idle => return Err(PrepareFault::SlotIdle),
            SlotState::Waiting => return Err(PrepareFault::Waiting),
            SlotState::Running => {}
        }
        if self.entries >= MOST_ENTRIES {
            return Err(PrepareFault::Worn);
        }
        let Ok(()) = self.store.reserve() else {
            return Err(PrepareFault::Memory);
        };
        match self.answered(alloc, slot) {
            Ok(prepared) => Ok(prepared),
            Err(_) => Err(PrepareFault::Memory),
        }
    }

    /// The next call of what runs in the slot, with what the datastore answers.
    fn answered(&self, alloc: Global, slot: u8) -> Result<Prepared, AllocError>
        requires slot { slot < SLOTS }
        requires few { self.now.entries < 2 ^ 62 }
        requires runs { state_in (slot_of_cluster self.now slot) ≡ state.Running }
        requires stood { Stood self.now }
        requires spare { 1 ≤ self.now.store.spare }
        ensures slot { IfOk result (λ prepared. prepared.slot ≡ slot) }
        ensures prepared { IfOk result (IsPrepared self.now) }
    {
        let running = match &self.slots[slot as usize] {
            Some(running) => running,
            None => unreachable!(),
        };
        let call = running.call(alloc)?;
        let reply = self.store.reply(&call);
        let moment = self.entries;
        let turned = running.took(alloc, &Heard { reply, moment })?;
        Prepared::of(alloc, slot, call, &reply, turned)
    }

    /// Makes the prepared call, with this fate: it is done, or it fails before or after it is done. Takes
    /// no memory.
    pub fn commit(&mut self, prepared: Prepared, fate: Fate) -> Entry
        requires { IsPrepared self.old prepared }
        ensures entry { IsTurn prepared.slot fate result }
        ensures store { self.new.store.store ≡ store_with (write_by fate prepared.write) self.old.store.store }
        ensures others { (other : ℕ) → ¬ (other ≡ prepared.slot) → slot_of_cluster self.new other ≡ slot_of_cluster self.old other }
        ensures adds { AddsTo self.old self.new result }
        ensures right { StaysRight self.old result }
    {
        match fate {
            Fate::Well => self.done(prepared),
            Fate::Before => self.failed_before(prepared),
            Fate::After => self.failed_after(prepared),
        }
    }

    fn done(&mut self, prepared: Prepared) -> Entry
        requires { IsPrepared self.old prepared }
        ensures entry { IsTurn prepared.slot fate_of.Well result }
        ensures store { self.new.store.store ≡ store_with prepared.write self.old.store.store }
        ensures others { (other : ℕ) → ¬ (other ≡ prepared.slot) → slot_of_cluster self.new other ≡ slot_of_cluster self.old other }
        ensures adds { AddsTo self.old self.new result }
    {
        let Prepared {
            slot,
            name,
            reply,
            write,
            written,
            turned,
        } = prepared;
        self.apply(write);
        let answer = self.turn(slot, turned);
        Entry::Called(Called {
            slot,
            call: name,
            fate: Fate::Well,
            reply,
            written,
            answer,
        })
    }

    /// The call's answer does not come, so its request is answered that it failed.
    fn failed_after(&mut self, prepared: Prepared) -> Entry
        requires { IsPrepared self.old prepared }
        ensures entry { IsTurn prepared.slot fate_of.After result }
        ensures store { self.new.store.store ≡ store_with prepared.write self.old.store.store }
        ensures others { (other : ℕ) → ¬ (other ≡ prepared.slot) → slot_of_cluster self.new other ≡ slot_of_cluster self.old other }
        ensures adds { AddsTo self.old self.new result }
    {
        let Prepared {
            slot,
            name,
            reply,
            write,
            written,
            turned,
        } = prepared;
        drop(turned);
        self.apply(write);
        self.put(slot, None);
        Entry::Called(Called {
            slot,
            call: name,
            fate: Fate::After,
            reply,
            written,
            answer: Some(Answer::Fault),
        })
    }

    /// The call is not made, so its request is answered that it failed.
    fn failed_before(&mut self, prepared: Prepared) -> Entry
        requires { IsPrepared self.old prepared }
        ensures entry { IsTurn prepared.slot fate_of.Before result }
        ensures store { self.new.store.store ≡ self.old.store.store }
        ensures others { (other : ℕ) → ¬ (other ≡ prepared.slot) → slot_of_cluster self.new other ≡ slot_of_cluster self.old other }
        ensures adds { AddsTo self.old self.new result }
    {
        let Prepared {
            slot,
            name,
            reply: _,
            write,
            written,
            turned,
        } = prepared;
        drop(write);
        drop(written);
        drop(turned);
        self.put(slot, None);
        Entry::Called(Called {
            slot,
            call: name,
            fate: Fate::Before,
            reply: Told::Nothing,
            written: None,
            answer: Some(Answer::Fault),
        })
    }
}

/// The write that the call asks for, where it was granted.
fn granted(call: Call, reply: &Reply) -> Option<Write>
    ensures { result ≡ write_granted call (said reply.now) }
{
    match reply {
        Reply::Can(revision) => call.into_write(*revision),
        _ => None,
    }
}

/// A copy of the record that is put, where one is.
fn put_copied(write: &Option<Write>) -> Result<Option<Record>, AllocError>
    ensures { IfOk result (λ copy. copy ≡ record_put write.now) }
{
    match write {
        Some(Write::Put(_, record)) => Ok(Some(record.clone()?)),
        _ => Ok(None),
    }
}
