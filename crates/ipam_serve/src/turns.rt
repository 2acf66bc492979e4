//! One turn of a session's slot. Each leaves a turn for the last stop.
ghost use Rattle.std.specs.Prelude.{◌≡◌, ◌≢◌, ◌+◌, ◌<◌, [], ◌∷◌, Some, None, Ok, Err, true, IsSome, IfOk, IfSome, OnOk, OnErr, ℕ};
ghost use Rattle.std.specs.List.{All};
ghost use Rattle.ipam_records.specs.Sound.{IsHandleId};
ghost use Rattle.ipam_model.specs.declared.entry.Entry.TheVariants as entry;
ghost use Rattle.ipam_model.specs.SoundRequest.{IsSoundRequest};
ghost use Rattle.ipam_shared.specs.Passes.{runs_in};
ghost use Rattle.ipam_serve.specs.Faults.{FoundDue, FoundRoom, IsWorn, OnHalted, OnMemory, OnWorn};
ghost use Rattle.ipam_serve.specs.Gains.{TookTurns, is_waiting};
ghost use Rattle.ipam_serve.specs.Keeping.{MakesCalls};
ghost use Rattle.ipam_model.specs.History.{store_at};
ghost use Rattle.ipam_serve.specs.Lines.{since_in};
ghost use Rattle.ipam_serve.specs.Turns.{Called, Fed, IsInFeed, IsToldOf, TakesLook, TakesOne, answer_told};

use crate::losses::Losses;
use crate::ran::{Broken, Ran};
use ipam_model::{Entry, Request};
use ipam_session::Since;
use ipam_shared::{
    BeginFault, FeedFault, Keeper, Look, Pass, PrepareFault, Shared, SharedFault, SinceFault,
    SpentPass,
};
use ipam_text::{Seq, Text};
use std::alloc::Global;
use std::sync::Wait;

/// Begins the request.
pub(crate) fn begin<R: Wait, D: Keeper>(
    rt: &R,
    alloc: Global,
    shared: &Shared<D>,
    pass: &mut Pass,
    request: &Request,
) -> Result<(), Broken>
    requires lock { pass.old.lock ≡ shared.now }
    requires idle { runs_in pass.old ≡ None }
    requires sound { IsSoundRequest request.now }
    ensures begun { OnOk result
        (TookTurns pass.old (entry.Began pass.old.slot request.now ∷ []) 0 pass.new) }
    ensures not_begun { OnErr result (TookTurns pass.old [] 1 pass.new) }
    ensures worn { OnWorn result (IsWorn 0 pass.old pass.new) }
    ensures memory { OnMemory result (FoundRoom pass.old pass.new) }
    ensures not_halted { OnHalted result ⊥ }
{
    if pass.left() < 2 {
        return Err(Broken::Worn);
    }
    match shared.begin(rt, alloc, pass, request) {
        Ok(entry) => {
            drop(entry);
            Ok(())
        }
        Err(fault) => Err(not_begun(fault)),
    }
}

fn not_begun(fault: SharedFault<BeginFault>) -> Broken
    requires turn { fault ≢ SharedFault.SpentPass }
    requires idle { fault ≢ SharedFault.Inner BeginFault.SlotBusy }
    ensures worn { result ≡ Broken.Worn → fault ≡ SharedFault.Inner BeginFault.Worn }
    ensures memory { result ≡ Broken.Memory → fault ≡ SharedFault.Inner BeginFault.Memory }
    ensures not_halted { result ≢ Broken.Halted }
{
    match fault {
        SharedFault::SpentPass => unreachable!(),
        SharedFault::Inner(inner) => match inner {
            BeginFault::SlotBusy => unreachable!(),
            BeginFault::Worn => Broken::Worn,
            BeginFault::Memory => Broken::Memory,
        },
    }
}

/// Makes the next call of what runs, or finds that it waits. None where the call has no answer.
pub(crate) fn call<R: Wait, D: Keeper>(
    rt: &R,
    alloc: Global,
    shared: &Shared<D>,
    pass: &mut Pass,
    losses: &mut Losses,
) -> Result<Option<Ran>, Broken>
    requires lock { pass.old.lock ≡ shared.now }
    requires runs { IsSome (runs_in pass.old) }
    ensures called { IfOk result (λ ran. Called pass.old ran pass.new) }
    ensures not_called { OnErr result (TookTurns pass.old [] 1 pass.new) }
    ensures worn { OnWorn result (IsWorn 0 pass.old pass.new) }
    ensures memory { OnMemory result (FoundRoom pass.old pass.new) }
    ensures not_halted { OnHalted result ⊥ }
    ensures keeper { MakesCalls D.rows D.given D.faults pass.old pass.new }
{
    if pass.left() < 2 {
        return Err(Broken::Worn);
    }
    match shared.turn(rt, alloc, pass) {
        Ok(entry) => {
            losses.note(&entry);
            Ok(told(entry))
        }
        Err(fault) => not_called(fault),
    }
}

fn told(entry: Entry) -> Option<Ran>
    ensures { result ≡ answer_told entry }
{
    match entry {
        Entry::Called(called) => called.answer.map(Ran::Answered),
        Entry::Began(_, _) | Entry::Fed(_, _, _) | Entry::Stopped(_) => None,
    }
}

fn not_called(fault: SharedFault<PrepareFault>) -> Result<Option<Ran>, Broken>
    requires turn { fault ≢ SharedFault.SpentPass }
    requires runs { fault ≢ SharedFault.Inner PrepareFault.SlotIdle }
    ensures waits { IfOk result
        (λ ran. (ran ≡ Some Ran.Waits) × (fault ≡ SharedFault.Inner PrepareFault.Waiting)) }
    ensures worn { OnWorn result (fault ≡ SharedFault.Inner PrepareFault.Worn) }
    ensures memory { OnMemory result (fault ≡ SharedFault.Inner PrepareFault.Memory) }
    ensures not_halted { OnHalted result ⊥ }
{
    match fault {
        SharedFault::SpentPass => unreachable!(),
        SharedFault::Inner(inner) => match inner {
            PrepareFault::SlotIdle => unreachable!(),
            PrepareFault::Waiting => Ok(Some(Ran::Waits)),
            PrepareFault::Worn => Err(Broken::Worn),
            PrepareFault::Memory => Err(Broken::Memory),
        },
    }
}

/// What became of a second list.
#[derive(Clone, Copy)]
pub(crate) enum Feeding {
    Fed,
    /// The grace is not over.
    TooSoon,
}

/// Feeds the collection that waits.
pub(crate) fn feed<R: Wait, D: Keeper>(
    rt: &R,
    alloc: Global,
    shared: &Shared<D>,
    pass: &mut Pass,
    live: &[Text],
    at: u64,
) -> Result<Feeding, Broken>
    requires lock { pass.old.lock ≡ shared.now }
    requires waits { is_waiting (runs_in pass.old) ≡ true }
    requires sound { All IsHandleId live.now }
    ensures fed { IfOk result (λ feeding. Fed pass.old live.now at feeding pass.new) }
    ensures not_fed { OnErr result (TookTurns pass.old [] 1 pass.new) }
    ensures worn { OnWorn result (IsWorn 0 pass.old pass.new) }
    ensures memory { OnMemory result (FoundDue pass.old at pass.new) }
    ensures not_halted { OnHalted result ⊥ }
{
    if pass.left() < 2 {
        return Err(Broken::Worn);
    }
    match shared.feed(rt, alloc, pass, live, at) {
        Ok(entry) => {
            drop(entry);
            Ok(Feeding::Fed)
        }
        Err(fault) => not_fed(fault),
    }
}

fn not_fed(fault: SharedFault<FeedFault>) -> Result<Feeding, Broken>
    requires turn { fault ≢ SharedFault.SpentPass }
    requires waits { fault ≢ SharedFault.Inner FeedFault.NotWaiting }
    ensures too_soon { IfOk result (λ feeding. (feeding ≡ Feeding.TooSoon)
        × (since grace : ℕ) × (fault ≡ SharedFault.Inner (FeedFault.TooSoon since grace))) }
    ensures worn { OnWorn result (fault ≡ SharedFault.Inner FeedFault.Worn) }
    ensures memory { OnMemory result (fault ≡ SharedFault.Inner FeedFault.Memory) }
    ensures not_halted { OnHalted result ⊥ }
{
    match fault {
        SharedFault::SpentPass => unreachable!(),
        SharedFault::Inner(inner) => match inner {
            FeedFault::NotWaiting => unreachable!(),
            FeedFault::TooSoon { at: _, grace: _ } => Ok(Feeding::TooSoon),
            FeedFault::Worn => Err(Broken::Worn),
            FeedFault::Memory => Err(Broken::Memory),
        },
    }
}

/// What became of the routes after the revision.
pub(crate) fn routes_since<R: Wait, D: Keeper>(
    rt: &R,
    shared: &Shared<D>,
    pass: &mut Pass,
    revision: u64,
) -> Result<Since, Broken>
    requires lock { pass.old.lock ≡ shared.now }
    ensures turn { TakesOne result pass.old pass.new }
    ensures told { IfOk result (λ since. since ≡ since_in pass.new revision) }
    ensures memory { OnMemory result ((pass.new.left < pass.old.left) × IsInFeed pass.new revision) }
{
    if pass.left() < 2 {
        return Err(Broken::Worn);
    }
    match shared.routes_since(rt, pass, revision) {
        Ok((counter, changes)) => Ok(Since::Changes(counter, Seq::of(changes))),
        Err(fault) => not_told(fault),
    }
}

fn not_told(fault: SharedFault<SinceFault>) -> Result<Since, Broken>
    requires { fault ≢ SharedFault.SpentPass }
    ensures told { IfOk result (IsToldOf fault) }
    ensures memory { OnErr result (result ≡ Err Broken.Memory) }
    ensures want_of_memory { OnErr result (fault ≡ SharedFault.Inner SinceFault.Memory) }
{
    match fault {
        SharedFault::SpentPass => unreachable!(),
        SharedFault::Inner(inner) => match inner {
            SinceFault::Compacted(floor) => Ok(Since::Compacted(floor)),
            SinceFault::Ahead(counter) => Ok(Since::Ahead(counter)),
            SinceFault::Memory => Err(Broken::Memory),
        },
    }
}

/// What the look tells of the datastore. None where too few turns are left.
pub(crate) fn look<R: Wait, D: Keeper, L: Look + Drop>(
    rt: &R,
    shared: &Shared<D>,
    pass: &mut Pass,
    look: L,
) -> Option<L::Told>
    requires lock { pass.old.lock ≡ shared.now }
    ensures turn { TakesLook result pass.old pass.new }
    ensures told { IfSome result (λ told. L.tells look (store_at pass.new.base pass.new.seen) told) }
{
    if pass.left() < 2 {
        return None;
    }
    match shared.look(rt, pass, look) {
        Ok(told) => Some(told),
        Err(SpentPass) => unreachable!(),
    }
}
