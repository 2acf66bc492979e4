// A count of turns. To its lock it has no entries.
ghost use Rattle.std.specs.Prelude.{◌≡◌, ℕ, List, []};

use turn_lock::{Booked, Step};

/// How many turns were made, up to 2^64, where it begins again.
#[derive(Drop)]
pub struct Tally {
    pub turns: u64,
}

impl Booked for Tally {
    type Origin = u64;

    type Entry = u8;

    ghost by = { λ entry. entry };

    ghost start = { λ tally. 0 };

    ghost first = { λ origin. 0 };

    ghost stands = { λ tally origin history. history ≡ [] };

    fn entries(&self) -> u64 {
        0
    }
}

/// Counts one turn of the pass with this number.
#[derive(Drop)]
pub struct Tick {
    pub by: u8,
}

impl Step<Tally> for Tick {
    type Out = ();

    ghost by = { λ tick. tick.by };

    ghost can = { λ tick tally. Unit {0} };

    ghost does = { λ tick before out after. Unit {0} };

    ghost adds = { λ tick before out after. [] };

    fn run(self, value: &mut Tally) {
        value.turns = value.turns.wrapping_add(1);
    }
}
