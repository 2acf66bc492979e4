// The shared cluster.
ghost use Rattle.std.specs.Prelude.{◌≡◌, ◌↔◌, ◌⊎◌, ◌+◌, ◌^◌, ◌<◌, ◌≤◌, ℕ, max, [], Some, None, Ok, Err, IsNone, IsErr, IsSome, IfOk, IfErr, IfSome, IfNone};
ghost use Rattle.std.specs.List.{All};
ghost use Rattle.turn_lock.specs.declared.limits.TheConstants.{FIRST_TURNS, SPLIT_TURNS};
ghost use Rattle.turn_lock.specs.Histories.{NoneBy, Grew, GrewPast};
ghost use Rattle.ipam_records.specs.Sound.{IsHandleId};
ghost use Rattle.ipam_model.specs.declared.entry.Entry.TheVariants as entry;
ghost use Rattle.ipam_model.specs.declared.entry.SlotState.TheVariants as state;
ghost use Rattle.ipam_model.specs.declared.limits.TheConstants.{SLOTS};
ghost use Rattle.ipam_model.specs.Cluster.{state_of};
ghost use Rattle.ipam_model.specs.History.{slot_of_entry, store_at};
ghost use Rattle.ipam_model.specs.SoundRequest.{IsSoundRequest};
ghost use Rattle.ipam_collect.specs.declared.collect.Grace.{Grace};
ghost use Rattle.ipam_shared.specs.Feed.{AreChanges, AreRoutes, IsAhead, IsCompacted};
ghost use Rattle.ipam_shared.specs.Kept.{LeavesKeeper};
ghost use Rattle.ipam_shared.specs.KeptTurning.{IsDone, IsFailed, IsRefused};
ghost use Rattle.ipam_shared.specs.Deeds.{told_by};
ghost use Rattle.ipam_shared.specs.Passes.{runs_in, IsLawfulPass, IsNewlyKept, IsSamePass, IsSplit, IsTold, KeptPast, own_base};
ghost use Rattle.ipam_shared.specs.Settling.{IsSure, KnowsSure, SettlesAs, WasSettled};
ghost use Rattle.ipam_shared.specs.Turning.{OnSpent, UnlessSpent, told_stopped, answer_of, moment_met, SeesNext, WasDone, HadTurn, WaitsFor};

use crate::deed::{Deed, InSlot};
use crate::deeds::{Begin, Call, Feed, Looks, Routes, RoutesSince, Settle, Stop};
use crate::faults::{SharedFault, SpentPass};
use crate::kept::Kept;
use crate::locked::Locked;
use crate::look::Look;
use crate::pass::Pass;
use ipam_cluster::{BeginFault, FeedFault, PrepareFault};
use ipam_keeper::{KeepFault, Keeper};
use ipam_model::{Entry, Request};
use ipam_store::{Change, Route, SinceFault};
use ipam_text::Text;
use std::alloc::{AllocError as Memory, Global};
use std::marker::Model;
use std::sync::Wait;
use turn_lock::TurnLock;

/// A kept cluster that up to 64 holders of passes share. Contracts see which lock it is.
pub struct Shared<D: Keeper> {
    lock: TurnLock<Locked<D>>,
}

impl<D: Keeper + Drop> Drop for Shared<D> {
    fn drop(self) {
        let Shared { lock: _ } = self;
    }
}

impl<D: Keeper> Model for Shared<D> {
    ghost use Rattle.atomic_table.specs.Seated.{TableId, table_id_coded};

    ghost Value = { TableId };

    ghost coded = { table_id_coded };

    ghost view = { λ shared. shared.lock };
}

// What a turn answers of what its deed did.
fn answered<T, E>(answer: Option<Result<T, E>>) -> Result<T, SharedFault<E>>
    ensures { result ≡ answer_of answer }
{
    match answer {
        None => Err(SharedFault::SpentPass),
        Some(Ok(told)) => Ok(told),
        Some(Err(fault)) => Err(SharedFault::Inner(fault)),
    }
}

impl<D: Keeper> Shared<D> {
    /// The kept cluster under a lock, and its first pass, on slot 0, with 2^62 turns. Of the cluster no
    /// entry was made since it was opened. It comes back where there is no memory.
    pub fn new(alloc: Global, kept: Kept<D>) -> Result<(Shared<D>, Pass), Kept<D>>
        requires { IsNewlyKept D.rows D.settled kept }
        ensures pass { IfOk result (λ r. (r.1.lock ≡ r.0) × (r.1.left ≡ FIRST_TURNS) × (r.1.slot ≡ 0) × (r.1.made ≡ 1) × (r.1.joined ≡ 0)) }
        ensures base { IfOk result (λ r. r.1.base ≡ own_base kept) }
        ensures seen { IfOk result (λ r. r.1.seen ≡ []) }
        ensures moment { IfOk result (λ r. (r.1.moment ≡ kept.cluster.entries) × (r.1.sure ≡ None)) }
        ensures idle { IfOk result (λ r. runs_in r.1 ≡ None) }
        ensures refused { IfErr result (λ k. k ≡ kept) }
    {
        let moment = kept.cluster().entries();
        match TurnLock::new(alloc, Locked { kept }) {
            Ok((lock, turns)) => Ok((
                Shared { lock },
                Pass {
                    turns,
                    running: false,
                    moment,
                    sure: None,
                },
            )),
            Err(Locked { kept }) => Err(kept),
        }
    }

    /// Splits off a new pass, on a slot of its own in which nothing runs, with 2^50 of the turns. It takes
    /// no memory. There is none where the pass has no more than 2^50 turns, or each slot is given out.
    pub fn split(&self, pass: &mut Pass) -> Option<Pass>
        requires { pass.old.lock ≡ self.now }
        ensures same { pass.new ≡ record pass.old { left = pass.new.left; made = pass.new.made } }
        ensures at_once { (pass.old.left ≤ SPLIT_TURNS) ⊎ (pass.old.made ≡ SLOTS) → (result ≡ None) × (pass.new ≡ pass.old) }
        ensures none { IfNone result ((pass.new.left ≡ pass.old.left) × ((pass.old.left ≤ SPLIT_TURNS) ⊎ (pass.new.made ≡ SLOTS))) }
        ensures some { IfSome result (λ other. IsSplit pass.old pass.new other) }
        ensures unused { IfSome result (λ other. NoneBy slot_of_entry other.slot other.seen) }
        ensures idle { IfSome result (λ other. runs_in other ≡ None) }
    {
        let turns = self.lock.split(&mut pass.turns)?;
        Some(Pass {
            turns,
            running: false,
            moment: pass.moment,
            sure: None,
        })
    }

    /// Ends the other pass, in whose slot nothing runs and whose turns are given up. Both had seen a history
    /// of one base, and `into` has then seen all that both had seen.
    pub fn join(&self, into: &mut Pass, other: Pass)
        requires into { into.old.lock ≡ self.now }
        requires other { other.lock ≡ self.now }
        requires idle { runs_in other ≡ None }
        ensures same { into.new ≡ record into.old { made = into.new.made; joined = into.new.joined; seen = into.new.seen } }
        ensures made { into.new.made ≡ max into.old.made other.made }
        ensures joined { into.new.joined ≡ into.old.joined + other.joined + 1 }
        ensures seen { GrewPast slot_of_entry into.old.slot into.old.seen into.new.seen }
        ensures others { Grew other.seen into.new.seen }
        ensures base { other.base ≡ into.new.base }
        ensures lawful { IsLawfulPass into.new }
        ensures slot { runs_in into.new ≡ runs_in into.old }
    {
        let Pass {
            turns,
            running: _,
            moment: _,
            sure: _,
        } = other;
        self.lock.join(&mut into.turns, turns);
    }

    /// The kept cluster, once all passes were joined into this one. It is kept, and its feed of routes
    /// follows, for what the pass has seen with entries of others.
    pub fn close(self, pass: Pass) -> Kept<D>
        requires lock { pass.lock ≡ self }
        requires last { pass.joined + 1 ≡ pass.made }
        ensures { KeptPast D.rows result pass }
    {
        let Shared { lock } = self;
        let Pass {
            turns,
            running: _,
            moment: _,
            sure: _,
        } = pass;
        lock.close(turns).kept
    }

    // One turn of the pass, in its slot. There is no answer where it has no turn left.
    fn take_turn<R: Wait, W: Deed<D> + Drop>(
        &self,
        rt: &R,
        pass: &mut Pass,
        deed: W,
    ) -> Option<W::Answer>
        requires lock { pass.old.lock ≡ self.now }
        requires can { W.can deed }
        ensures spent { IsNone result ↔ (pass.old.left ≡ 0) }
        ensures unchanged { IfNone result (pass.new ≡ pass.old) }
        ensures turned { IfSome result (λ answer. HadTurn D.rows D.settled (λ before after. W.does deed pass.old.slot before answer after) pass.old (W.told answer) pass.new) }
        ensures lawful { IsLawfulPass pass.new }
    {
        let slot = pass.turns.number();
        match self.lock.turn(rt, &mut pass.turns, InSlot { slot, deed }) {
            Ok((answer, running, entries)) => {
                pass.running = running;
                pass.moment = entries;
                Some(answer)
            }
            Err(InSlot { slot: _, deed: _ }) => None,
        }
    }

    /// Begins the request in the pass's slot, by one turn.
    pub fn begin<R: Wait>(
        &self,
        rt: &R,
        alloc: Global,
        pass: &mut Pass,
        request: &Request,
    ) -> Result<Entry, SharedFault<BeginFault>>
        requires lock { pass.old.lock ≡ self.now }
        requires sound { IsSoundRequest request.now }
        ensures spent { (result ≡ Err SharedFault.SpentPass) ↔ (pass.old.left ≡ 0) }
        ensures unchanged { OnSpent result (pass.new ≡ pass.old) }
        ensures left { UnlessSpent result (pass.new.left + 1 ≡ pass.old.left) }
        ensures same { IsSamePass pass.old pass.new }
        ensures knows { UnlessSpent result (IsTold pass.old pass.new) }
        ensures seen { UnlessSpent result (SeesNext pass.old (told_by result) pass.new) }
        ensures lawful { IsLawfulPass pass.new }
        ensures busy { (result ≡ Err (SharedFault.Inner BeginFault.SlotBusy)) ↔ (0 < pass.old.left × IsSome (runs_in pass.old)) }
        ensures worn { (result ≡ Err (SharedFault.Inner BeginFault.Worn))
            ↔ (0 < pass.old.left × runs_in pass.old ≡ None × 2 ^ 62 ≤ moment_met (told_by result) pass.new) }
        ensures entry { IfOk result (λ began. began ≡ entry.Began pass.old.slot request.now) }
        ensures keeper { UnlessSpent result (WasDone D.rows LeavesKeeper (told_by result) pass.new) }
    {
        answered(self.take_turn(rt, pass, Begin { alloc, request }))
    }

    /// Hands the collection in the pass's slot its second list, which was made at this time, in seconds,
    /// by one turn.
    pub fn feed<R: Wait>(
        &self,
        rt: &R,
        alloc: Global,
        pass: &mut Pass,
        live: &[Text],
        at: u64,
    ) -> Result<Entry, SharedFault<FeedFault>>
        requires lock { pass.old.lock ≡ self.now }
        requires sound { All IsHandleId live.now }
        ensures spent { (result ≡ Err SharedFault.SpentPass) ↔ (pass.old.left ≡ 0) }
        ensures unchanged { OnSpent result (pass.new ≡ pass.old) }
        ensures left { UnlessSpent result (pass.new.left + 1 ≡ pass.old.left) }
        ensures same { IsSamePass pass.old pass.new }
        ensures knows { UnlessSpent result (IsTold pass.old pass.new) }
        ensures seen { UnlessSpent result (SeesNext pass.old (told_by result) pass.new) }
        ensures lawful { IsLawfulPass pass.new }
        ensures not_waiting { (result ≡ Err (SharedFault.Inner FeedFault.NotWaiting))
            ↔ (0 < pass.old.left × ¬ (state_of (runs_in pass.old) ≡ state.Waiting)) }
        ensures too_soon { (since grace : ℕ) → ((result ≡ Err (SharedFault.Inner (FeedFault.TooSoon since grace)))
            ↔ (0 < pass.old.left × WaitsFor (runs_in pass.old) (record { at = since; grace = grace }) × at < since + grace)) }
        ensures worn { (result ≡ Err (SharedFault.Inner FeedFault.Worn))
            ↔ (0 < pass.old.left × 2 ^ 62 ≤ moment_met (told_by result) pass.new
            × (grace : Grace) × WaitsFor (runs_in pass.old) grace × grace.at + grace.grace ≤ at) }
        ensures entry { IfOk result (λ fed. fed ≡ entry.Fed pass.old.slot at live.now) }
        ensures keeper { UnlessSpent result (WasDone D.rows LeavesKeeper (told_by result) pass.new) }
    {
        answered(self.take_turn(rt, pass, Feed { alloc, live, at }))
    }

    /// Makes the next call of the request in the pass's slot, by one turn. What it writes is given to the
    /// keeper in that turn.
    pub fn turn<R: Wait>(
        &self,
        rt: &R,
        alloc: Global,
        pass: &mut Pass,
    ) -> Result<Entry, SharedFault<PrepareFault>>
        requires lock { pass.old.lock ≡ self.now }
        ensures spent { (result ≡ Err SharedFault.SpentPass) ↔ (pass.old.left ≡ 0) }
        ensures unchanged { OnSpent result (pass.new ≡ pass.old) }
        ensures left { UnlessSpent result (pass.new.left + 1 ≡ pass.old.left) }
        ensures same { IsSamePass pass.old pass.new }
        ensures knows { UnlessSpent result (IsTold pass.old pass.new) }
        ensures seen { UnlessSpent result (SeesNext pass.old (told_by result) pass.new) }
        ensures lawful { IsLawfulPass pass.new }
        ensures idle { (result ≡ Err (SharedFault.Inner PrepareFault.SlotIdle)) ↔ (0 < pass.old.left × runs_in pass.old ≡ None) }
        ensures waiting { (result ≡ Err (SharedFault.Inner PrepareFault.Waiting))
            ↔ (0 < pass.old.left × state_of (runs_in pass.old) ≡ state.Waiting) }
        ensures worn { (result ≡ Err (SharedFault.Inner PrepareFault.Worn))
            ↔ (0 < pass.old.left × 2 ^ 62 ≤ moment_met (told_by result) pass.new × state_of (runs_in pass.old) ≡ state.Running) }
        ensures turned { IfOk result (λ told. WasDone D.rows (λ before after.
            IsDone D.faults pass.old.slot before after told ⊎ IsFailed D.given D.faults pass.old.slot before after told) (told_by result) pass.new) }
        ensures refused { IfErr result (λ fault. UnlessSpent result (WasDone D.rows (IsRefused D.faults) (told_by result) pass.new)) }
    {
        answered(self.take_turn(rt, pass, Call { alloc }))
    }

    /// Ends what runs in the pass's slot, by one turn. None where nothing does. Takes no memory.
    pub fn stop<R: Wait>(&self, rt: &R, pass: &mut Pass) -> Result<Option<Entry>, SpentPass>
        requires lock { pass.old.lock ≡ self.now }
        ensures spent { IsErr result ↔ (pass.old.left ≡ 0) }
        ensures unchanged { IfErr result (λ spent. pass.new ≡ pass.old) }
        ensures left { IfOk result (λ told. pass.new.left + 1 ≡ pass.old.left) }
        ensures same { IsSamePass pass.old pass.new }
        ensures knows { IfOk result (λ told. IsTold pass.old pass.new) }
        ensures seen { IfOk result (λ told. SeesNext pass.old (told_stopped result) pass.new) }
        ensures lawful { IsLawfulPass pass.new }
        ensures idle { (result ≡ Ok None) ↔ (0 < pass.old.left × runs_in pass.old ≡ None) }
        ensures entry { IfOk result (λ told. IfSome told (λ stopped. stopped ≡ entry.Stopped pass.old.slot)) }
        ensures idle_after { IfOk result (λ told. runs_in pass.new ≡ None) }
        ensures keeper { IfOk result (λ told. WasDone D.rows LeavesKeeper (told_stopped result) pass.new) }
    {
        self.take_turn(rt, pass, Stop).ok_or(SpentPass)
    }

    /// Makes sure of all that the pass has learned, by one turn. Where the settling of another pass made
    /// sure of it, nothing is asked of the keeper. On `Ok` the pass knows it.
    pub fn settle<R: Wait>(&self, rt: &R, pass: &mut Pass) -> Result<(), SharedFault<KeepFault>>
        requires lock { pass.old.lock ≡ self.now }
        ensures spent { (result ≡ Err SharedFault.SpentPass) ↔ (pass.old.left ≡ 0) }
        ensures unchanged { OnSpent result (pass.new ≡ pass.old) }
        ensures left { UnlessSpent result (pass.new.left + 1 ≡ pass.old.left) }
        ensures same { IsSamePass pass.old pass.new }
        ensures moment { pass.new.moment ≡ pass.old.moment }
        ensures seen { UnlessSpent result (SeesNext pass.old [] pass.new) }
        ensures lawful { IsLawfulPass pass.new }
        ensures settled { IfOk result (λ done. WasSettled D.rows D.settled pass.new) }
        ensures knows { IfOk result (λ done. KnowsSure pass.new × IsSure D.rows D.settled pass.new) }
        ensures not_known { IfErr result (λ fault. pass.new.sure ≡ pass.old.sure) }
        ensures keeper { UnlessSpent result (WasDone D.rows (SettlesAs D.rows D.settled D.faults D.broken pass.old.moment result) [] pass.new) }
    {
        let moment = pass.moment();
        let settled = answered(self.take_turn(rt, pass, Settle { moment }));
        pass.tell(moment);
        match settled {
            Ok(count) => {
                pass.know_sure(count);
                Ok(())
            }
            Err(fault) => Err(fault),
        }
    }

    /// The datastore's revision, and its routes by node, then by family and base, at the end of what the
    /// pass has seen with this turn.
    pub fn routes<R: Wait>(
        &self,
        rt: &R,
        pass: &mut Pass,
    ) -> Result<(u64, Vec<Route>), SharedFault<Memory>>
        requires lock { pass.old.lock ≡ self.now }
        ensures spent { (result ≡ Err SharedFault.SpentPass) ↔ (pass.old.left ≡ 0) }
        ensures unchanged { OnSpent result (pass.new ≡ pass.old) }
        ensures left { UnlessSpent result (pass.new.left + 1 ≡ pass.old.left) }
        ensures same { IsSamePass pass.old pass.new }
        ensures knows { UnlessSpent result (IsTold pass.old pass.new) }
        ensures seen { UnlessSpent result (SeesNext pass.old [] pass.new) }
        ensures lawful { IsLawfulPass pass.new }
        ensures routes { IfOk result (λ told. AreRoutes pass.new.base pass.new.seen told.0 told.1.items) }
    {
        answered(self.take_turn(rt, pass, Routes))
    }

    /// The datastore's revision, and what became of the routes after this one, in the order in which it
    /// came, up to the end of what the pass has seen with this turn.
    pub fn routes_since<R: Wait>(
        &self,
        rt: &R,
        pass: &mut Pass,
        revision: u64,
    ) -> Result<(u64, Vec<Change>), SharedFault<SinceFault>>
        requires lock { pass.old.lock ≡ self.now }
        ensures spent { (result ≡ Err SharedFault.SpentPass) ↔ (pass.old.left ≡ 0) }
        ensures unchanged { OnSpent result (pass.new ≡ pass.old) }
        ensures left { UnlessSpent result (pass.new.left + 1 ≡ pass.old.left) }
        ensures same { IsSamePass pass.old pass.new }
        ensures knows { UnlessSpent result (IsTold pass.old pass.new) }
        ensures seen { UnlessSpent result (SeesNext pass.old [] pass.new) }
        ensures lawful { IsLawfulPass pass.new }
        ensures changes { IfOk result (λ told. AreChanges pass.new.base pass.new.seen revision told.0 told.1.items) }
        ensures compacted { (floor : ℕ) → ((result ≡ Err (SharedFault.Inner (SinceFault.Compacted floor)))
            ↔ (0 < pass.old.left × IsCompacted pass.new.base pass.new.seen revision floor)) }
        ensures ahead { (counter : ℕ) → ((result ≡ Err (SharedFault.Inner (SinceFault.Ahead counter)))
            ↔ (0 < pass.old.left × IsAhead pass.new.base pass.new.seen revision counter)) }
    {
        answered(self.take_turn(rt, pass, RoutesSince { revision }))
    }

    /// Looks at the datastore by one turn, as it is at the end of what the pass has seen with this turn.
    pub fn look<R: Wait, L: Look + Drop>(
        &self,
        rt: &R,
        pass: &mut Pass,
        look: L,
    ) -> Result<L::Told, SpentPass>
        requires lock { pass.old.lock ≡ self.now }
        ensures spent { IsErr result ↔ (pass.old.left ≡ 0) }
        ensures unchanged { IfErr result (λ spent. pass.new ≡ pass.old) }
        ensures left { IfOk result (λ told. pass.new.left + 1 ≡ pass.old.left) }
        ensures same { IsSamePass pass.old pass.new }
        ensures knows { IfOk result (λ told. IsTold pass.old pass.new) }
        ensures seen { IfOk result (λ told. SeesNext pass.old [] pass.new) }
        ensures lawful { IsLawfulPass pass.new }
        ensures told { IfOk result (λ told. L.tells look (store_at pass.new.base pass.new.seen) told) }
    {
        self.take_turn(rt, pass, Looks { look }).ok_or(SpentPass)
    }
}
