// The lock.
ghost use Rattle.std.specs.Prelude.{◌≡◌, ◌≢◌, ℕ, List, length, ◌⊎◌, ◌+◌, ◌-◌, ◌<◌, ◌≤◌, max, None, [], ◌∷◌, ◌++◌, IfOk, IfErr, IfSome, IfNone};
ghost use Rattle.turn_lock.specs.Histories.{NoneBy, Grew, GrewPast};
ghost use Rattle.turn_lock.specs.Passes.{MayRun, Stood, Turned, StandsPast, IsSplit};

use crate::booked::{Booked, Step};
use crate::desk::{Seat, take_turn};
use crate::limits::{FIRST_TURNS, MOST_PASSES, NEXT, SPLIT_TURNS, WORDS};
use crate::numbers::{absorb, split_off};
use crate::plays::InTurn;
use crate::turns::Turns;
use crate::view::View;
use atomic_table::{Badge, Refused, Table};
use std::alloc::Global;
use std::marker::Model;
use std::mem;
use std::snapshot::Snapshot;
use std::sync::Wait;

/// A value under a lock. Contracts see which lock it is.
/// Where the value is `Drop`, so is the lock; else it has to be closed.
pub struct TurnLock<T: Booked> {
    table: Table<T, View<T::Origin, T::Entry>, Snapshot<T>, InTurn, Global>,
}

impl<T: Booked + Drop> Drop for TurnLock<T> {
    fn drop(self) {
        let TurnLock { table: _ } = self;
    }
}

impl<T: Booked> Model for TurnLock<T> {
    ghost use Rattle.atomic_table.specs.Seated.{TableId, table_id_coded};
    ghost use Rattle.turn_lock.specs.Passes.{IsDesk};

    ghost Value = { TableId };

    ghost coded = { table_id_coded };

    ghost view = { λ l. l.table.shared.table_id };

    ghost invariant = { λ l. IsDesk l.table.shared.table_id };
}

// The words of a new lock: the first number of a pass is drawn, and nothing else has happened.
fn first_words() -> [u64; WORDS]
    ensures { (bells : List ℕ) × (result ≡ 0 ∷ 0 ∷ 0 ∷ 1 ∷ bells) × (length bells ≡ 64) }
{
    let mut words = [0; WORDS];
    words[NEXT] = 1;
    words
}

// The value alone in a vector. It comes back where there is no memory.
fn shelf<T>(alloc: Global, value: T) -> Result<Vec<T>, T>
    ensures ok { IfOk result (λ slots. slots.items ≡ value ∷ []) }
    ensures err { IfErr result (λ v. v ≡ value) }
{
    let Ok(mut slots) = Vec::with_capacity(alloc, 1) else {
        return Err(value);
    };
    match slots.push(value) {
        Ok(()) => Ok(slots),
        Err(failed) => {
            slots.destroy_empty();
            Err(failed.value)
        }
    }
}

impl<T: Booked> TurnLock<T> {
    /// A lock over a value with no entries, and its first pass, which has the number 0 and 2^62 turns.
    /// The value comes back where there is no memory.
    pub fn new(alloc: Global, value: T) -> Result<(TurnLock<T>, Turns<T::Origin, T::Entry>), T>
        requires { T.stands value (T.start value) [] }
        ensures pass { IfOk result (λ r. (r.1.lock ≡ r.0) × (r.1.left ≡ FIRST_TURNS) × (r.1.number ≡ 0) × (r.1.made ≡ 1) × (r.1.joined ≡ 0)) }
        ensures seen { IfOk result (λ r. (r.1.origin ≡ T.start value ∷ []) × (r.1.seen ≡ [])) }
        ensures refused { IfErr result (λ v. v ≡ value) }
    {
        let about = Snapshot::of(&value);
        let slots = shelf(alloc, value)?;
        match Table::new(alloc, &first_words(), slots, &about) {
            Ok((table, seat)) => Ok((
                TurnLock { table },
                Turns {
                    badge: seat.into_badge(),
                    left: FIRST_TURNS,
                    number: 0,
                    made: 1,
                    joined: 0,
                },
            )),
            Err(Refused { mut slots }) => {
                let value = slots.pop().unwrap();
                slots.destroy_empty();
                Err(value)
            }
        }
    }

    /// Waits for its turn, and runs the step on the value. The step comes back where the pass has no turn left.
    pub fn turn<R: Wait, S: Step<T>>(
        &self,
        rt: &R,
        pass: &mut Turns<T::Origin, T::Entry>,
        step: S,
    ) -> Result<S::Out, S>
        requires lock { pass.old.lock ≡ self.now }
        requires by { S.by step ≡ pass.old.number }
        requires can { MayRun T.stands T.by (S.can step) pass.old.number pass.old.origin pass.old.seen }
        ensures ran { IfOk result (λ out. (0 < pass.old.left) × (pass.new ≡ record pass.old { left = pass.old.left - 1; seen = pass.new.seen })) }
        ensures turned { IfOk result (λ out. Turned T.stands T.by (λ before after. S.does step before out after) (λ before after. S.adds step before out after) pass.old.number pass.old.origin pass.old.seen pass.new.seen) }
        ensures refused { IfErr result (λ s. (s ≡ step) × (pass.old.left ≡ 0) × (pass.new ≡ pass.old)) }
    {
        if pass.left == 0 {
            return Err(step);
        }
        let mut seat: Seat<T> = mem::replace(&mut pass.badge, Badge::blank()).into_seat();
        let out = take_turn(rt, &self.table.shared, &mut seat, step);
        pass.badge = seat.into_badge();
        pass.left -= 1;
        Ok(out)
    }

    /// Splits off a new pass, with a number of its own and 2^50 of the turns. It takes no memory.
    /// There is none where the pass has no more than 2^50 turns, or each number below 64 is taken.
    pub fn split(&self, pass: &mut Turns<T::Origin, T::Entry>) -> Option<Turns<T::Origin, T::Entry>>
        requires { pass.old.lock ≡ self.now }
        ensures same { pass.new ≡ record pass.old { left = pass.new.left; made = pass.new.made } }
        ensures at_once { (pass.old.left ≤ SPLIT_TURNS) ⊎ (pass.old.made ≡ MOST_PASSES) → (result ≡ None) × (pass.new ≡ pass.old) }
        ensures none { IfNone result ((pass.new.left ≡ pass.old.left) × ((pass.old.left ≤ SPLIT_TURNS) ⊎ (pass.new.made ≡ MOST_PASSES))) }
        ensures some { IfSome result (λ other. IsSplit pass.old pass.new other) }
        ensures unused { IfSome result (λ other. NoneBy T.by other.number other.seen) }
    {
        if pass.left <= SPLIT_TURNS || pass.made == MOST_PASSES {
            return None;
        }
        let mut seat: Seat<T> = mem::replace(&mut pass.badge, Badge::blank()).into_seat();
        let split = split_off(&self.table.shared, &mut seat);
        pass.badge = seat.into_badge();
        match split {
            Some((number, other)) => {
                pass.left -= SPLIT_TURNS;
                pass.made = number + 1;
                Some(Turns {
                    badge: other.into_badge(),
                    left: SPLIT_TURNS,
                    number,
                    made: number + 1,
                    joined: 0,
                })
            }
            None => {
                pass.made = MOST_PASSES;
                None
            }
        }
    }

    /// Ends the other pass, whose turns are given up. Both had seen a history with one start, and `into`
    /// has then seen all that both had seen.
    pub fn join(&self, into: &mut Turns<T::Origin, T::Entry>, other: Turns<T::Origin, T::Entry>)
        requires into { into.old.lock ≡ self.now }
        requires other { other.lock ≡ self.now }
        ensures same { into.new ≡ record into.old { made = into.new.made; joined = into.new.joined; seen = into.new.seen } }
        ensures made { into.new.made ≡ max into.old.made other.made }
        ensures joined { into.new.joined ≡ into.old.joined + other.joined + 1 }
        ensures seen { GrewPast T.by into.old.number into.old.seen into.new.seen }
        ensures others { Grew other.seen into.new.seen }
        ensures origin { other.origin ≡ into.new.origin }
        ensures stood { Stood T.stands into.new.origin into.new.seen }
    {
        let Turns {
            badge,
            left: _,
            number: _,
            made,
            joined,
        } = other;
        let mut seat: Seat<T> = mem::replace(&mut into.badge, Badge::blank()).into_seat();
        absorb(&self.table.shared, &mut seat, badge.into_seat());
        into.badge = seat.into_badge();
        into.made = into.made.max(made);
        into.joined += joined + 1;
    }

    /// The value, once all passes were joined into this one. It stands for what the pass has seen, with entries of others.
    pub fn close(self, pass: Turns<T::Origin, T::Entry>) -> T
        requires lock { pass.lock ≡ self }
        requires last { pass.joined + 1 ≡ pass.made }
        ensures { StandsPast T.stands T.by result pass.number pass.origin pass.seen }
    {
        let TurnLock { table } = self;
        let Turns {
            badge,
            left: _,
            number: _,
            made: _,
            joined: _,
        } = pass;
        let mut closed = table.close_with(badge.into_seat());
        let value = closed.take(0);
        closed.free();
        value
    }
}
