ghost use Rattle.std.specs.Prelude.{◌≡◌, ◌↔◌, ◌<◌, ◌≤◌, ◌+◌, ◌^◌, ◌⊎◌, ℕ, List, [], Some, None, IsSome, IsNone, IfOk, IfErr, IfSome, IfNone, OnOk, OnErr, Err, option_map};
ghost use Rattle.std.specs.Option.{option_copied};
ghost use Rattle.ipam_model.specs.declared.entry.Entry.TheVariants as entry;
ghost use Rattle.ipam_model.specs.declared.entry.SlotState.TheVariants as state;
ghost use Rattle.ipam_model.specs.SoundRequest.{IsSoundRequest};
ghost use Rattle.ipam_records.specs.Sound.{IsHandleId};
ghost use Rattle.ipam_collect.specs.declared.collect.Grace.{Grace};
ghost use Rattle.std.specs.List.{All};

use crate::feed::{prepare, push};
use crate::giving::give;
use crate::loaded::{Feeding, OpensKept};
use crate::opener::open_loaded;
use crate::write::RowWrite;
use ipam_cluster::{BeginFault, Cluster, FeedFault, PrepareFault, Prepared};
use ipam_keeper::{KeepFault, Keeper};
use ipam_model::{Entry, Fate, Request, SLOTS};
use ipam_store::{Change, Ring, Route, SinceFault};
use ipam_text::Text;
use std::alloc::{AllocError, Global};

/// Why rows were not opened.
#[derive(Debug, Drop)]
pub enum KeptFault {
    /// The keeper failed.
    Keeper,
    /// The rows break this one of the ten rules, and none of a lower number. The text is the first key
    /// that breaks it.
    Refused(u8, Text),
    /// There was no memory.
    Memory,
}

/// A cluster, and the keeper that has its rows.
pub struct Kept<D> {
    pub(crate) cluster: Cluster,
    pub(crate) keeper: D,
    /// The write that failed last and was not taken back since. Its row is in doubt: the keeper has
    /// the old one or the new one.
    pub(crate) doubt: Option<RowWrite>,
    /// The feed of the cluster's routes.
    pub(crate) ring: Ring,
    /// How many entries there were when the keeper was last made sure of all rows.
    pub(crate) settled: u64,
}

impl<D: Drop> Drop for Kept<D> {
    fn drop(self) {
        let Kept {
            cluster: _,
            keeper: _,
            doubt: _,
            ring: _,
            settled: _,
        } = self;
    }
}

impl<D: Keeper> Kept<D> {
    ghost use Rattle.ipam_cluster.specs.Cluster.{slot_of_cluster, state_in, WaitsWith};
    ghost use Rattle.ipam_shared.specs.Rows.{key_written};
    ghost use Rattle.ipam_shared.specs.Kept.{IsKept, KeepsWith, LeavesKeeper, Stays};
    ghost use Rattle.ipam_shared.specs.Feed.{FedFor, FedWith, StaysFed, AreRoutes, AreChanges, IsCompacted, IsAhead};
    ghost use Rattle.ipam_model.specs.declared.entry.Entry.{Entry as OneEntry};
    ghost use Rattle.ipam_model.specs.History.{Base};
    ghost use Rattle.ipam_shared.specs.Opening.{IsNotOpened, IsOpened};
    ghost use Rattle.ipam_shared.specs.Sure.{SureFor, SureWith, StaysSure};
    ghost use Rattle.ipam_shared.specs.KeptTurning.{IsDone, IsFailed, IsRefused};
    ghost use Rattle.ipam_io.specs.Counts.{Rose};
    ghost use Rattle.ipam_keeper.specs.Keeping.{OnFailed, StaysBroken, UnlessFailed};
    ghost use Rattle.ipam_cluster.specs.Preparing.{IsPrepared};

    /// Has the keeper make sure of its rows, and opens them, with their greatest revision as the counter, in
    /// a cluster in which nothing runs. On `Err` the keeper comes back.
    ///
    /// `Memory` is returned only where loading or opening the rows found none.
    pub fn open<T: OpensKept + Drop>(
        alloc: T,
        keeper: D,
        first: u64,
    ) -> Result<Kept<D>, (D, KeptFault)>
        requires { first ≤ 2 ^ 62 + SLOTS }
        ensures opened { IfOk result (IsOpened D.rows D.faults D.name keeper first) }
        ensures fed { IfOk result (λ kept. FedFor D.rows kept (record { store = kept.cluster.store.store; first = first }) []) }
        ensures sure { IfOk result (λ kept. SureFor D.settled kept (record { store = kept.cluster.store.store; first = first }) []) }
        ensures settled { IfOk result (λ kept. D.settled kept.keeper ≡ D.rows kept.keeper) }
        ensures refused { IfErr result (IsNotOpened D.rows D.faults D.name keeper) }
        ensures want_of_memory_has_its_cause { IfErr result (λ answer. answer.1 ≡ KeptFault.Memory → T.wants alloc) }
    {
        let mut keeper = keeper;
        let loaded = alloc.load_sure(&mut keeper);
        match open_loaded(Feeding { alloc, first }, loaded) {
            Ok((cluster, ring)) => Ok(Kept {
                cluster,
                keeper,
                doubt: None,
                ring,
                settled: first,
            }),
            Err(fault) => Err((keeper, fault)),
        }
    }

    /// Begins the request in the slot. On `Err` the cluster is as it was.
    pub fn begin(&mut self, alloc: Global, slot: u8, request: &Request) -> Result<Entry, BeginFault>
        requires slot { slot < SLOTS }
        requires sound { IsSoundRequest request.now }
        ensures busy { (result ≡ Err BeginFault.SlotBusy) ↔ IsSome (slot_of_cluster self.old.cluster slot) }
        ensures worn { (result ≡ Err BeginFault.Worn) ↔ (slot_of_cluster self.old.cluster slot ≡ None × 2 ^ 62 ≤ self.old.cluster.entries) }
        ensures entry { IfOk result (λ began. began ≡ entry.Began slot request.now) }
        ensures keeps { IfOk result (KeepsWith D.rows self.old self.new) }
        ensures feeds { IfOk result (FedWith D.rows self.old self.new) }
        ensures sure { IfOk result (SureWith D.rows D.settled self.old self.new) }
        ensures unchanged { OnErr result (Stays D.rows self.old self.new) }
        ensures still_fed { OnErr result (StaysFed D.rows self.old self.new) }
        ensures still_sure { OnErr result (StaysSure D.rows D.settled self.old self.new) }
        ensures keeper { LeavesKeeper self.old self.new }
    {
        self.cluster.begin(alloc, slot, request)
    }

    /// Hands the slot's collection its second list, which was made at this time, in seconds. On `Err` the
    /// cluster is as it was.
    pub fn feed(
        &mut self,
        alloc: Global,
        slot: u8,
        live: &[Text],
        at: u64,
    ) -> Result<Entry, FeedFault>
        requires slot { slot < SLOTS }
        requires sound { All IsHandleId live.now }
        ensures not_waiting { (result ≡ Err FeedFault.NotWaiting) ↔ ¬ (state_in (slot_of_cluster self.old.cluster slot) ≡ state.Waiting) }
        ensures too_soon { (since grace : ℕ) → ((result ≡ Err (FeedFault.TooSoon since grace))
            ↔ (WaitsWith (slot_of_cluster self.old.cluster slot) (record { at = since; grace = grace }) × at < since + grace)) }
        ensures worn { (result ≡ Err FeedFault.Worn) ↔ (2 ^ 62 ≤ self.old.cluster.entries
            × (grace : Grace) × WaitsWith (slot_of_cluster self.old.cluster slot) grace × grace.at + grace.grace ≤ at) }
        ensures entry { IfOk result (λ fed. fed ≡ entry.Fed slot at live.now) }
        ensures keeps { IfOk result (KeepsWith D.rows self.old self.new) }
        ensures feeds { IfOk result (FedWith D.rows self.old self.new) }
        ensures sure { IfOk result (SureWith D.rows D.settled self.old self.new) }
        ensures unchanged { OnErr result (Stays D.rows self.old self.new) }
        ensures still_fed { OnErr result (StaysFed D.rows self.old self.new) }
        ensures still_sure { OnErr result (StaysSure D.rows D.settled self.old self.new) }
        ensures keeper { LeavesKeeper self.old self.new }
    {
        self.cluster.feed(alloc, slot, live, at)
    }

    /// Makes the next call of the slot's request. What is in doubt is first put back; then what the call
    /// writes is given to the keeper; then the call is done. Where the keeper fails in either, the call
    /// fails before it is done. On `Err` the cluster is as it was.
    pub fn turn(&mut self, alloc: Global, slot: u8) -> Result<Entry, PrepareFault>
        requires slot { slot < SLOTS }
        requires kept { IsKept D.rows self.old }
        ensures idle { (result ≡ Err PrepareFault.SlotIdle) ↔ (slot_of_cluster self.old.cluster slot ≡ None) }
        ensures waiting { (result ≡ Err PrepareFault.Waiting) ↔ (state_in (slot_of_cluster self.old.cluster slot) ≡ state.Waiting) }
        ensures worn { (result ≡ Err PrepareFault.Worn) ↔ (2 ^ 62 ≤ self.old.cluster.entries × state_in (slot_of_cluster self.old.cluster slot) ≡ state.Running) }
        ensures turned { IfOk result (λ told. IsDone D.faults slot self.old self.new told ⊎ IsFailed D.given D.faults slot self.old self.new told) }
        ensures keeps { IfOk result (KeepsWith D.rows self.old self.new) }
        ensures feeds { IfOk result (FedWith D.rows self.old self.new) }
        ensures sure { IfOk result (SureWith D.rows D.settled self.old self.new) }
        ensures others { (other : ℕ) → ¬ (other ≡ slot) → slot_of_cluster self.new.cluster other ≡ slot_of_cluster self.old.cluster other }
        ensures refused { OnErr result (IsRefused D.faults self.old self.new) }
        ensures unchanged { OnErr result (Stays D.rows self.old self.new) }
        ensures still_fed { OnErr result (StaysFed D.rows self.old self.new) }
        ensures still_sure { OnErr result (StaysSure D.rows D.settled self.old self.new) }
        ensures same { D.name self.new.keeper ≡ D.name self.old.keeper }
    {
        let prepared = self.cluster.prepare(alloc, slot)?;
        self.make(alloc, prepared)
    }

    /// Makes the call that is prepared, once the feed is ready for what it writes. On `Err` there is no
    /// memory, and the cluster is as it was.
    fn make(&mut self, alloc: Global, prepared: Prepared) -> Result<Entry, PrepareFault>
        requires prepared { IsPrepared self.old.cluster prepared }
        requires kept { IsKept D.rows self.old }
        ensures memory { IfErr result (λ e. e ≡ PrepareFault.Memory) }
        ensures turned { IfOk result (λ told. IsDone D.faults prepared.slot self.old self.new told ⊎ IsFailed D.given D.faults prepared.slot self.old self.new told) }
        ensures keeps { IfOk result (KeepsWith D.rows self.old self.new) }
        ensures feeds { IfOk result (FedWith D.rows self.old self.new) }
        ensures sure { IfOk result (SureWith D.rows D.settled self.old self.new) }
        ensures others { IfOk result (λ told. (other : ℕ) → ¬ (other ≡ prepared.slot) → slot_of_cluster self.new.cluster other ≡ slot_of_cluster self.old.cluster other) }
        ensures refused { OnErr result (IsRefused D.faults self.old self.new) }
        ensures unchanged { OnErr result (Stays D.rows self.old self.new) }
        ensures still_fed { OnErr result (StaysFed D.rows self.old self.new) }
        ensures still_sure { OnErr result (StaysSure D.rows D.settled self.old self.new) }
        ensures same { D.name self.new.keeper ≡ D.name self.old.keeper }
    {
        let Kept {
            cluster,
            keeper,
            doubt,
            ring,
            settled: _,
        } = self;
        let Ok(()) = prepare(ring, prepared.write()) else {
            drop(prepared);
            return Err(PrepareFault::Memory);
        };
        match give(alloc, cluster.store(), keeper, doubt, prepared.write()) {
            Ok(()) => {
                push(ring, prepared.write());
                Ok(cluster.commit(prepared, Fate::Well))
            }
            Err(KeepFault::Failed) => Ok(cluster.commit(prepared, Fate::Before)),
            Err(KeepFault::Memory) => {
                drop(prepared);
                Err(PrepareFault::Memory)
            }
        }
    }

    /// Ends what runs in the slot. None where nothing does. Takes no memory.
    pub fn stop(&mut self, slot: u8) -> Option<Entry>
        requires slot { slot < SLOTS }
        ensures idle { IsNone result ↔ (slot_of_cluster self.old.cluster slot ≡ None) }
        ensures entry { IfSome result (λ stopped. stopped ≡ entry.Stopped slot) }
        ensures keeps { IfSome result (KeepsWith D.rows self.old self.new) }
        ensures feeds { IfSome result (FedWith D.rows self.old self.new) }
        ensures sure { IfSome result (SureWith D.rows D.settled self.old self.new) }
        ensures idle_after { slot_of_cluster self.new.cluster slot ≡ None }
        ensures others { (other : ℕ) → ¬ (other ≡ slot) → slot_of_cluster self.new.cluster other ≡ slot_of_cluster self.old.cluster other }
        ensures unchanged { IfNone result (Stays D.rows self.old self.new) }
        ensures still_fed { IfNone result (StaysFed D.rows self.old self.new) }
        ensures still_sure { IfNone result (StaysSure D.rows D.settled self.old self.new) }
        ensures keeper { LeavesKeeper self.old self.new }
    {
        self.cluster.stop(slot)
    }

    /// Has the keeper make sure of all rows. On `Err` it may have made sure of them or not, and where it failed
    /// it is out of order. The cluster stays as it is.
    pub fn settle(&mut self) -> Result<(), KeepFault>
        ensures done { OnOk result (D.settled self.new.keeper ≡ D.rows self.new.keeper) }
        ensures counted { OnOk result (self.new.settled ≡ self.new.cluster.entries) }
        ensures uncounted { OnErr result (self.new.settled ≡ self.old.settled) }
        ensures rest { self.new ≡ record self.old { keeper = self.new.keeper; settled = self.new.settled } }
        ensures rows { D.rows self.new.keeper ≡ D.rows self.old.keeper }
        ensures unchanged { Stays D.rows self.old self.new }
        ensures still_fed { StaysFed D.rows self.old self.new }
        ensures still_sure { StaysSure D.rows D.settled self.old self.new }
        ensures breaks { OnFailed result (D.broken self.new.keeper) }
        ensures once_broken { StaysBroken (D.broken self.old.keeper) result (D.broken self.new.keeper) }
        ensures fault { OnFailed result (Rose (D.faults self.old.keeper) (D.faults self.new.keeper)) }
        ensures no_fault { UnlessFailed result (D.faults self.new.keeper ≡ D.faults self.old.keeper) }
        ensures same { D.name self.new.keeper ≡ D.name self.old.keeper }
    {
        self.keeper.settle()?;
        self.settled = self.cluster.entries();
        Ok(())
    }

    /// The datastore's revision, and its routes by node, then by family and base.
    pub fn routes(&self) -> Result<(u64, Vec<Route>), AllocError>
        ensures { IfOk result (λ told. (base : Base) (history : List OneEntry)
            → FedFor D.rows self.now base history → AreRoutes base history told.0 told.1.items) }
    {
        let routes = self.ring.snapshot()?;
        Ok((self.cluster.store().counter(), routes))
    }

    /// The datastore's revision, and what became of the routes after this one, in the order in which it
    /// came.
    pub fn routes_since(&self, revision: u64) -> Result<(u64, Vec<Change>), SinceFault>
        ensures changes { IfOk result (λ told. (base : Base) (history : List OneEntry)
            → FedFor D.rows self.now base history → AreChanges base history revision told.0 told.1.items) }
        ensures compacted { (base : Base) (history : List OneEntry) (floor : ℕ) → FedFor D.rows self.now base history
            → ((result ≡ Err (SinceFault.Compacted floor)) ↔ IsCompacted base history revision floor) }
        ensures ahead { (base : Base) (history : List OneEntry) (counter : ℕ) → FedFor D.rows self.now base history
            → ((result ≡ Err (SinceFault.Ahead counter)) ↔ IsAhead base history revision counter) }
    {
        match self.ring.since(revision) {
            Ok(changes) => Ok((self.cluster.store().counter(), changes)),
            Err(fault) => Err(fault),
        }
    }
}

impl<D> Kept<D> {
    ghost use Rattle.ipam_shared.specs.Rows.{key_written};

    /// The key that is in doubt: a write to the keeper failed, and its row was not put back since.
    pub fn doubted(&self) -> Option<&str>
        ensures { option_copied result ≡ option_map key_written self.now.doubt }
    {
        match &self.doubt {
            Some(write) => Some(write.key()),
            None => None,
        }
    }

    /// How many entries there were when the keeper was last made sure of all rows. What a crash leaves is of
    /// no earlier moment.
    pub fn settled(&self) -> u64
        ensures { result ≡ self.now.settled }
    {
        self.settled
    }

    /// The cluster, without its keeper.
    pub fn cluster(&self) -> &Cluster
        ensures { result.now ≡ self.now.cluster }
    {
        &self.cluster
    }

    /// The keeper. What runs is let go.
    pub fn into_keeper(self) -> D
        ensures { result ≡ self.keeper }
    {
        let Kept {
            cluster: _,
            keeper,
            doubt: _,
            ring: _,
            settled: _,
        } = self;
        keeper
    }
}
