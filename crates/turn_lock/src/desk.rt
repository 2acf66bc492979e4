// The steps of a turn, on the table of a lock. A seat is a pass while it takes them.
ghost use Rattle.std.specs.Prelude.{◌≡◌, ◌+◌, ◌-◌, ◌<◌, ◌≤◌, List, [], ◌∷◌, ◌++◌, length};
ghost use Rattle.atomic_table.specs.Seated.{TableId};
ghost use Rattle.turn_lock.specs.declared.limits.TheConstants.{BELLS, WORDS};
ghost use Rattle.turn_lock.specs.Histories.{AtMostOneBy};
ghost use Rattle.turn_lock.specs.Moves.{IsIdle, queued, holding, resting, after_turn, Took};
ghost use Rattle.turn_lock.specs.Passes.{held_or, Adds, IsDesk, IsSameSeat, MayRun, Turned};

use crate::booked::{Booked, Step};
use crate::limits::{BELLS, MOST_PASSES};
use crate::plays::{Added, Count, Draw, InTurn, Look, PassOn, Ring};
use crate::view::View;
use atomic_table::Shared;
use std::marker::Brand;
use std::snapshot::Snapshot;
use std::sync::Wait;

// The words of a lock's table.
const TICKET: usize = 0;

const SERVING: usize = 1;

const COUNT: usize = 2;

pub(crate) type Desk<T> = Shared<
    T,
    View<<T as Booked>::Origin, <T as Booked>::Entry>,
    Snapshot<T>,
    InTurn,
>;

pub(crate) type Seat<T> = atomic_table::Seat<T, View<<T as Booked>::Origin, <T as Booked>::Entry>>;

// The word that is rung for a ticket. At most 64 passes wait, with tickets in a row, so each has a bell of its own.
fn bell_of(ticket: u64) -> usize
    ensures { (BELLS ≤ result) × (result < WORDS) }
{
    BELLS + (ticket % u64::from(MOST_PASSES)) as usize
}

fn draw<T: Booked>(desk: &Desk<T>, seat: &mut Seat<T>) -> u64
    requires desk { IsDesk desk.now.table_id × (seat.old.table_id ≡ desk.now.table_id) }
    requires seat { (seat.old.me.0.live ≡ 1) × (seat.old.me.0.holds ≡ 0) × (seat.old.me.0.waits ≡ []) × (0 < seat.old.me.0.left) }
    ensures same { IsSameSeat seat.old seat.new }
    ensures drew { seat.new.me ≡ (queued result seat.old.me.0, seat.old.me.1) }
{
    desk.fetch_add::<Draw>(seat, TICKET, 1)
}

// Waits until the ticket is served, and takes the value. The bell is read before the look at what is served,
// so a ring that comes after the look changes it, and the sleep ends or doesn't begin.
fn wait<T: Booked, R: Wait>(rt: &R, desk: &Desk<T>, seat: &mut Seat<T>, ticket: u64)
    requires desk { IsDesk desk.now.table_id × (seat.old.table_id ≡ desk.now.table_id) }
    requires seat { (seat.old.me.0.live ≡ 1) × (seat.old.me.0.holds ≡ 0) × (seat.old.me.0.waits ≡ ticket ∷ []) }
    ensures same { IsSameSeat seat.old seat.new }
    ensures took { Took T.stands T.by seat.old.me seat.new.me }
{
    let bell = bell_of(ticket);
    for _ in rt.forever() {
        let rung = desk.peek(bell);
        let serving = desk.load::<Look>(seat, SERVING);
        if serving == ticket {
            return;
        }
        desk.park(rt, bell, (rung % (1 << 32)) as u32);
    }
    unreachable!()
}

// Runs the step on the value that the seat holds. The number is how many entries it added.
fn work<T: Booked, S: Step<T>>(
    desk: &Desk<T>,
    seat: &mut Seat<T>,
    step: S,
) -> (S::Out, Snapshot<T>, u64)
    requires desk { IsDesk desk.now.table_id × (seat.old.table_id ≡ desk.now.table_id) }
    requires held { (value : T) × (seat.old.me.1 ≡ (0, value) ∷ []) × S.can step value × ((origin : T.Origin) × (history : List T.Entry) × T.stands value origin history) }
    ensures same { IsSameSeat seat.old seat.new }
    ensures held { seat.new.me ≡ (seat.old.me.0, (0, held_or result.1.value seat.new.me.1) ∷ []) }
    ensures before { seat.old.me.1 ≡ (0, result.1.value) ∷ [] }
    ensures did { S.does step result.1.value result.0 (held_or result.1.value seat.new.me.1) }
    ensures own { AtMostOneBy T.by (S.by step) (S.adds step result.1.value result.0 (held_or result.1.value seat.new.me.1)) }
    ensures adds { Adds T.stands result.1.value (held_or result.1.value seat.new.me.1) (S.adds step result.1.value result.0 (held_or result.1.value seat.new.me.1)) }
    ensures counted { result.2 ≡ length (S.adds step result.1.value result.0 (held_or result.1.value seat.new.me.1)) }
{
    let value = seat.slot_mut(desk, 0);
    let before = Snapshot::of(&*value);
    let first = value.entries();
    let out = step.run(value);
    let last = value.entries();
    (out, before, last - first)
}

// Counts the entries of a step.
fn count<A: Added<T::Entry>, T: Booked, S: Step<T>>(
    desk: &Desk<T>,
    seat: &mut Seat<T>,
    entries: u64,
    _step: &Snapshot<S>,
    _before: &Snapshot<T>,
    _out: &S::Out,
)
    requires desk { IsDesk desk.now.table_id × (seat.old.table_id ≡ desk.now.table_id) }
    requires seat { (seat.old.me.0.live ≡ 1) × (seat.old.me.0.holds ≡ 1) × (seat.old.me.0.spare ≡ 0) }
    requires added { A.added ≡ S.adds _step.now.value _before.now.value _out.now (held_or _before.now.value seat.old.me.1) }
    requires own { AtMostOneBy T.by seat.old.me.0.number (S.adds _step.now.value _before.now.value _out.now (held_or _before.now.value seat.old.me.1)) }
    requires stood { (value : T) × ((origin : T.Origin) → seat.old.me.0.origin ≡ origin ∷ [] → T.stands value origin (S.adds _step.now.value _before.now.value _out.now (held_or _before.now.value seat.old.me.1) ++ seat.old.me.0.seen)) }
    requires entries { entries ≡ length (S.adds _step.now.value _before.now.value _out.now (held_or _before.now.value seat.old.me.1)) }
    ensures same { IsSameSeat seat.old seat.new }
    ensures counted { seat.new.me ≡ (holding (S.adds _step.now.value _before.now.value _out.now (held_or _before.now.value seat.old.me.1) ++ seat.old.me.0.seen) seat.old.me.0, seat.old.me.1) }
{
    desk.fetch_add::<Count<A>>(seat, COUNT, entries);
}

// Puts the value back, and serves the next ticket.
fn pass_on<T: Booked>(desk: &Desk<T>, seat: &mut Seat<T>, ticket: u64)
    requires desk { IsDesk desk.now.table_id × (seat.old.table_id ≡ desk.now.table_id) }
    requires seat { (seat.old.me.0.live ≡ 1) × (seat.old.me.0.holds ≡ 1) × (seat.old.me.0.waits ≡ ticket ∷ []) }
    requires held { (value : T) × (seat.old.me.1 ≡ (0, value) ∷ []) × ((origin : T.Origin) → seat.old.me.0.origin ≡ origin ∷ [] → T.stands value origin seat.old.me.0.seen) }
    ensures same { IsSameSeat seat.old seat.new }
    ensures passed { seat.new.me ≡ (resting seat.old.me.0, []) }
{
    desk.fetch_add::<PassOn>(seat, SERVING, 1);
    let next = ticket.wrapping_add(1);
    // Who draws a ticket after this look finds the next one served, and doesn't sleep.
    if desk.peek(TICKET) != next {
        ring(desk, seat, bell_of(next));
    }
}

// Rings a bell, and wakes who waits for it.
fn ring<T: Booked>(desk: &Desk<T>, seat: &mut Seat<T>, bell: usize)
    requires desk { IsDesk desk.now.table_id × (seat.old.table_id ≡ desk.now.table_id) }
    requires bell { (BELLS ≤ bell) × (bell < WORDS) }
    ensures same { IsSameSeat seat.old seat.new }
    ensures rang { seat.new.me ≡ seat.old.me }
{
    desk.fetch_add::<Ring>(seat, bell, 1);
    desk.wake_one(bell);
}

// One turn: a ticket, the wait, the step, its entries, and the next ticket.
pub(crate) fn take_turn<T: Booked, R: Wait, S: Step<T>>(
    rt: &R,
    desk: &Desk<T>,
    seat: &mut Seat<T>,
    step: S,
) -> S::Out
    requires desk { IsDesk desk.now.table_id × (seat.old.table_id ≡ desk.now.table_id) }
    requires seat { IsIdle seat.old.me.0 × (seat.old.me.1 ≡ []) × (0 < seat.old.me.0.left) × ((origin : T.Origin) × (seat.old.me.0.origin ≡ origin ∷ [])) }
    requires by { S.by step ≡ seat.old.me.0.number }
    requires can { MayRun T.stands T.by (S.can step) seat.old.me.0.number seat.old.me.0.origin seat.old.me.0.seen }
    ensures same { IsSameSeat seat.old seat.new }
    ensures view { seat.new.me ≡ (after_turn seat.new.me.0.seen seat.old.me.0, []) }
    ensures turned { Turned T.stands T.by (λ before after. S.does step before result after) (λ before after. S.adds step before result after) seat.old.me.0.number seat.old.me.0.origin seat.old.me.0.seen seat.new.me.0.seen }
{
    let ticket = draw(desk, seat);
    wait(rt, desk, seat, ticket);
    let taken = Snapshot::of(&step);
    let (out, before, entries) = work(desk, seat, step);
    count::<Brand, T, S>(desk, seat, entries, &taken, &before, &out);
    pass_on(desk, seat, ticket);
    out
}
