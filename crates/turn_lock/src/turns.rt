// A pass of a lock.
ghost use Rattle.std.specs.Prelude.{◌≡◌, ◌+◌, ◌<◌, ◌≤◌, ◌↔◌, IsTrue};
ghost use Rattle.turn_lock.specs.declared.limits.TheConstants.{MOST_PASSES};

use crate::view::View;
use atomic_table::Badge;
use std::marker::Model;

/// The right to take turns at one lock, and what its holder knows of the lock's history.
/// It has no copy. A pass that is dropped keeps its lock from being closed.
#[derive(Drop)]
pub struct Turns<O, E> {
    pub(crate) badge: Badge<View<O, E>>,
    pub(crate) left: u64,
    pub(crate) number: u8,
    pub(crate) made: u8,
    pub(crate) joined: u8,
}

impl<O, E> Model for Turns<O, E> {
    ghost use Rattle.turn_lock.specs.Passes.{Pass, pass_coded, view_of, IsPass};

    ghost Value = { Pass O E };

    ghost coded = { pass_coded O.code E.code };

    ghost view = { λ t. record { lock = t.badge.table_id; left = t.left; number = t.number; made = t.made; joined = t.joined; origin = (view_of t.badge.views).origin; seen = (view_of t.badge.views).seen } };

    ghost invariant = { λ t. IsPass t.badge.views t.left t.number t.made t.joined };
}

impl<O, E> Turns<O, E> {
    /// How many turns it may still take.
    pub fn left(&self) -> u64
        ensures { result ≡ self.now.left }
    {
        self.left
    }

    /// The number, from 0 to 63. No two passes of a lock have one number.
    pub fn number(&self) -> u8
        ensures is { result ≡ self.now.number }
        ensures low { (result < self.now.made) × (self.now.made ≤ MOST_PASSES) }
    {
        self.number
    }

    /// How many numbers below 64 it knows to be taken.
    pub fn made(&self) -> u8
        ensures { result ≡ self.now.made }
    {
        self.made
    }

    /// Whether all other passes of the lock were joined into it, directly or through joined ones.
    pub fn is_last(&self) -> bool
        ensures { IsTrue result ↔ (self.now.joined + 1 ≡ self.now.made) }
    {
        u64::from(self.joined) + 1 == u64::from(self.made)
    }
}
