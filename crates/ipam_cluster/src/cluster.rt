ghost use Rattle.std.specs.Prelude.{◌≡◌, ◌↔◌, ◌<◌, ◌≤◌, ◌+◌, ◌^◌, ℕ, Some, None, [], length, slice_set, IsSome, IsNone, IfOk, IfErr, IfSome, IfNone, OnErr, Err};
ghost use Rattle.std.specs.Option.{ForSome};
ghost use Rattle.ipam_model.specs.declared.entry.Entry.TheVariants as entry;
ghost use Rattle.ipam_model.specs.declared.limits.TheConstants.{SLOTS};
ghost use Rattle.ipam_model.specs.Cluster.{store_with};
ghost use Rattle.ipam_model.specs.SoundRequest.{IsSoundRequest};
ghost use Rattle.ipam_records.specs.Word.{answer_in};
ghost use Rattle.ipam_cluster.specs.declared.running.Running.{Running as AnyRunning};
ghost use Rattle.ipam_cluster.specs.Running.{running_leaves};
ghost use Rattle.ipam_store.specs.Granted.{IsGranted, IsSoundWrite};
ghost use Rattle.ipam_cluster.specs.Busy.{busy_count};
ghost use Rattle.ipam_cluster.specs.Slots.{slot_in, IsDue, MayGo, RunsOn};

use crate::base::Base;
use crate::copies::{live_copied, request_copied};
use crate::faults::{BeginFault, FeedFault};
use crate::rows::rows_by_key;
use crate::running::{Running, RunningTurned};
use crate::slots::{feed, go, idle_slots, put};
use ipam_collect::Grace;
use ipam_model::{Answer, Entry, Request, SLOTS, SlotState};
use ipam_opening::{OpenFault, open};
use ipam_records::Write;
use ipam_store::Store;
use ipam_text::Text;
use std::alloc::{AllocError, Global};

/// With so many entries nothing more is begun, fed or called.
pub const MOST_ENTRIES: u64 = 0x4000_0000_0000_0000;

/// The datastore, how many entries there were, and what runs in each slot.
pub struct Cluster {
    pub(crate) store: Store,
    pub(crate) entries: u64,
    pub(crate) slots: Vec<Option<Running>>,
    ghost all_slots: { length slots.items ≡ SLOTS },
    ghost room: { entries + busy_count slots.items ≤ 2 ^ 62 + SLOTS },
}

impl Drop for Cluster {
    fn drop(self) {
        let Cluster {
            store: _,
            entries: _,
            slots: _,
        } = self;
    }
}

impl Cluster {
    ghost use Rattle.ipam_cluster.specs.Cluster.{slot_of_cluster, state_in, AddsTo, IsUnchanged, StandsFor, StaysRight, WaitsWith};
    ghost use Rattle.ipam_cluster.specs.Turns.{IsBaseOf, texts_in};
    ghost use Rattle.ipam_collect.specs.declared.collect.Grace.{Grace};
    ghost use Rattle.ipam_model.specs.declared.entry.SlotState.TheVariants as state;
    ghost use Rattle.ipam_model.specs.Opened.{AreByKey, OpensAs};
    ghost use Rattle.ipam_opening.specs.Opening.{IsFaultOf};
    ghost use Rattle.ipam_records.specs.Sound.{IsHandleId};
    ghost use Rattle.std.specs.List.{All};

    /// Opens the rows, in a cluster in which nothing runs. Refused by the first of the ten rules that is
    /// broken, and of the keys that break it the first by its bytes.
    #[tactic(auto, using(crate::proofs::Opening::opens))]
    pub fn open(alloc: Global, base: &Base) -> Result<Cluster, OpenFault>
        requires by_key { AreByKey base.now.rows.items }
        requires first { base.now.first ≤ 2 ^ 62 + SLOTS }
        ensures opened { IfOk result (λ cluster. OpensAs (texts_in base.now) cluster.store.store) }
        ensures entries { IfOk result (λ cluster. cluster.entries ≡ base.now.first) }
        ensures idle { IfOk result (λ cluster. (slot : ℕ) → slot_of_cluster cluster slot ≡ None) }
        ensures stands { IfOk result (λ cluster. StandsFor cluster (record { store = cluster.store.store; first = base.now.first }) []) }
        ensures refused { IfErr result (IsFaultOf (texts_in base.now)) }
    {
        let store = open(alloc, base.rows.as_slice(), base.counter)?;
        let Ok(slots) = idle_slots(alloc) else {
            return Err(OpenFault::Memory);
        };
        Ok(Cluster {
            store,
            entries: base.first,
            slots,
        })
    }

    /// The datastore.
    pub fn store(&self) -> &Store
        ensures { result.now ≡ self.now.store }
    {
        &self.store
    }

    /// How many entries there were.
    pub fn entries(&self) -> u64
        ensures { result ≡ self.now.entries }
    {
        self.entries
    }

    /// What there is to do in the slot.
    pub fn state(&self, slot: u8) -> SlotState
        requires { slot < SLOTS }
        ensures { result ≡ state_in (slot_of_cluster self.now slot) }
    {
        match &self.slots[slot as usize] {
            None => SlotState::Idle,
            Some(running) => {
                if running.waits() {
                    SlotState::Waiting
                } else {
                    SlotState::Running
                }
            }
        }
    }

    /// Begins the request in the slot. On `Err` the cluster is as it was.
    #[tactic(auto, using(crate::proofs::Adding::begins, crate::proofs::SlotLemmas::put_room))]
    pub fn begin(&mut self, alloc: Global, slot: u8, request: &Request) -> Result<Entry, BeginFault>
        requires slot { slot < SLOTS }
        requires sound { IsSoundRequest request.now }
        ensures busy { (result ≡ Err BeginFault.SlotBusy) ↔ IsSome (slot_of_cluster self.old slot) }
        ensures worn { (result ≡ Err BeginFault.Worn) ↔ (slot_of_cluster self.old slot ≡ None × 2 ^ 62 ≤ self.old.entries) }
        ensures entry { IfOk result (λ began. began ≡ entry.Began slot request.now) }
        ensures adds { IfOk result (AddsTo self.old self.new) }
        ensures right { IfOk result (StaysRight self.old) }
        ensures unchanged { OnErr result (IsUnchanged self.old self.new) }
    {
        if self.slots[slot as usize].is_some() {
            return Err(BeginFault::SlotBusy);
        }
        if self.entries >= MOST_ENTRIES {
            return Err(BeginFault::Worn);
        }
        let Ok(copy) = request_copied(request) else {
            return Err(BeginFault::Memory);
        };
        let Ok(running) = Running::of(alloc, request) else {
            return Err(BeginFault::Memory);
        };
        self.put(slot, Some(running));
        Ok(Entry::Began(slot, copy))
    }

    /// Hands the slot's collection its second list, which was made at this time, in seconds. On `Err` the
    /// cluster is as it was.
    pub fn feed(
        &mut self,
        alloc: Global,
        slot: u8,
        live: &[Text],
        at: u64,
    ) -> Result<Entry, FeedFault>
        requires slot { slot < SLOTS }
        requires sound { All IsHandleId live.now }
        ensures not_waiting { (result ≡ Err FeedFault.NotWaiting) ↔ ¬ (state_in (slot_of_cluster self.old slot) ≡ state.Waiting) }
        ensures too_soon { (since grace : ℕ) → ((result ≡ Err (FeedFault.TooSoon since grace))
            ↔ (WaitsWith (slot_of_cluster self.old slot) (record { at = since; grace = grace }) × at < since + grace)) }
        ensures worn { (result ≡ Err FeedFault.Worn) ↔ (2 ^ 62 ≤ self.old.entries
            × (grace : Grace) × WaitsWith (slot_of_cluster self.old slot) grace × grace.at + grace.grace ≤ at) }
        ensures entry { IfOk result (λ fed. fed ≡ entry.Fed slot at live.now) }
        ensures adds { IfOk result (AddsTo self.old self.new) }
        ensures right { IfOk result (StaysRight self.old) }
        ensures unchanged { OnErr result (IsUnchanged self.old self.new) }
    {
        let grace = match self.awaited(slot) {
            Some(grace) => grace,
            None => return Err(FeedFault::NotWaiting),
        };
        if at < grace.at || at - grace.at < grace.grace {
            return Err(FeedFault::TooSoon {
                at: grace.at,
                grace: grace.grace,
            });
        }
        if self.entries >= MOST_ENTRIES {
            return Err(FeedFault::Worn);
        }
        match self.fed(alloc, slot, live, at) {
            Ok(entry) => Ok(entry),
            Err(_) => Err(FeedFault::Memory),
        }
    }

    /// The times of the collection that waits in the slot.
    fn awaited(&self, slot: u8) -> Option<Grace>
        requires { slot < SLOTS }
        ensures some { IfSome result (λ grace. WaitsWith (slot_of_cluster self.now slot) grace) }
        ensures none { IfNone result (¬ (state_in (slot_of_cluster self.now slot) ≡ state.Waiting)) }
    {
        match &self.slots[slot as usize] {
            Some(running) => {
                if running.waits() {
                    running.grace()
                } else {
                    None
                }
            }
            None => None,
        }
    }

    /// Takes the list, for the collection and for the entry. On `Err` the cluster is as it was.
    fn fed(&mut self, alloc: Global, slot: u8, live: &[Text], at: u64) -> Result<Entry, AllocError>
        requires slot { slot < SLOTS }
        requires sound { All IsHandleId live.now }
        requires few { self.old.entries < 2 ^ 62 }
        requires due { IsDue (slot_of_cluster self.old slot) at }
        ensures entry { IfOk result (λ fed. fed ≡ entry.Fed slot at live.now) }
        ensures adds { IfOk result (AddsTo self.old self.new) }
        ensures unchanged { OnErr result (IsUnchanged self.old self.new) }
    {
        let copy = live_copied(alloc, live)?;
        feed(alloc, &mut self.slots, slot, live, at)?;
        self.entries += 1;
        Ok(Entry::Fed(slot, at, copy))
    }

    /// Ends what runs in the slot. None where nothing does. Takes no memory.
    #[tactic(auto, using(crate::proofs::Adding::stopped, crate::proofs::SlotLemmas::stop_room))]
    pub fn stop(&mut self, slot: u8) -> Option<Entry>
        requires slot { slot < SLOTS }
        ensures idle { IsNone result ↔ (slot_of_cluster self.old slot ≡ None) }
        ensures entry { IfSome result (λ stopped. stopped ≡ entry.Stopped slot) }
        ensures adds { IfSome result (AddsTo self.old self.new) }
        ensures right { IfSome result (StaysRight self.old) }
        ensures idle_after { slot_of_cluster self.new slot ≡ None }
        ensures others { (other : ℕ) → ¬ (other ≡ slot) → slot_of_cluster self.new other ≡ slot_of_cluster self.old other }
        ensures store { self.new.store.store ≡ self.old.store.store }
        ensures unchanged { IfNone result (IsUnchanged self.old self.new) }
    {
        if self.slots[slot as usize].is_none() {
            return None;
        }
        self.put(slot, None);
        Some(Entry::Stopped(slot))
    }

    /// The rows by ascending key, the counter, and how many entries there were: what may be opened again.
    #[tactic(auto, using(crate::proofs::RowTexts::is_text))]
    pub fn base(&self, alloc: Global) -> Result<Base, AllocError>
        ensures { IfOk result (λ base. IsBaseOf base self.now) }
    {
        let rows = rows_by_key(alloc, &self.store)?;
        Ok(Base {
            rows,
            counter: self.store.counter(),
            first: self.entries,
        })
    }

    /// Adds an entry, after which this runs in the slot.
    pub(crate) fn put(&mut self, slot: u8, running: Option<Running>)
        requires slot { slot < SLOTS }
        requires room { self.old.entries + 1 + busy_count (slice_set self.old.slots.items slot running) ≤ 2 ^ 62 + SLOTS }
        ensures store { self.new.store ≡ self.old.store }
        ensures entries { self.new.entries ≡ self.old.entries + 1 }
        ensures slots { self.new.slots.items ≡ slice_set self.old.slots.items slot running }
    {
        put(&mut self.slots, slot, running);
        self.entries += 1;
    }

    /// Adds an entry, after which what runs in the slot has gone where a reply led it. Returns its
    /// answer, if it came to one.
    pub(crate) fn turn(&mut self, slot: u8, turned: RunningTurned) -> Option<Answer>
        requires slot { slot < SLOTS }
        requires few { self.old.entries < 2 ^ 62 }
        requires may { MayGo (slot_of_cluster self.old slot) turned }
        ensures store { self.new.store ≡ self.old.store }
        ensures entries { self.new.entries ≡ self.old.entries + 1 }
        ensures answer { (was : AnyRunning) → slot_of_cluster self.old slot ≡ Some was
            → result ≡ answer_in (running_leaves was turned) }
        ensures gone { IsSome result → self.new.slots.items ≡ slice_set self.old.slots.items slot None }
        ensures on { IsNone result → (was : AnyRunning) → slot_of_cluster self.old slot ≡ Some was
            → RunsOn self.old.slots.items self.new.slots.items slot was (running_leaves was turned) }
    {
        let answer = go(&mut self.slots, slot, turned);
        self.entries += 1;
        answer
    }

    /// Applies the write, where there is one.
    pub(crate) fn apply(&mut self, write: Option<Write>)
        requires granted { ForSome write (IsGranted self.old.store.store) }
        requires sound { ForSome write IsSoundWrite }
        requires spare { 1 ≤ self.old.store.spare }
        ensures store { self.new.store.store ≡ store_with write self.old.store.store }
        ensures entries { self.new.entries ≡ self.old.entries }
        ensures slots { self.new.slots.items ≡ self.old.slots.items }
    {
        if let Some(write) = write {
            self.store.apply(write);
        }
    }
}
