//! A clock that gives the readings of a list.
ghost use Rattle.std.specs.Prelude.{◌≡◌, slice_index_or, drop};
ghost use Rattle.ipam_io.specs.Readings.{last_reading};

use super::clock::Clock;
use std::marker::Model;

/// A clock that gives the readings of a list in order, and then the last of them again; 0
/// where the list is empty.
#[derive(Drop)]
pub struct ListClock {
    readings: Vec<u64>,
    given: usize,
    last: u64,
}

impl Model for ListClock {
    ghost use Rattle.std.specs.Prelude.{◌≤◌, drop, vec_len};
    ghost use Rattle.ipam_io.specs.Fakes.{ListClockValue};

    ghost Value = { ListClockValue };

    ghost view = { λ clock. record {
      left = drop clock.given clock.readings.items;
      last = clock.last;
    } };

    ghost invariant = { λ clock. clock.given ≤ vec_len clock.readings };
}

impl ListClock {
    /// A clock that gives these readings; with none it gives 0.
    pub fn new(readings: Vec<u64>) -> ListClock
        ensures { result
            ≡ record { left = readings.items; last = last_reading readings.items } }
    {
        let last = readings.last().copied().unwrap_or(0);
        ListClock {
            readings,
            given: 0,
            last,
        }
    }
}

impl Clock for ListClock {
    ghost use Rattle.std.specs.Prelude.{Some};
    ghost use Rattle.ipam_io.specs.Readings.{readings_then};

    ghost ahead = { λ clock. Some (readings_then clock.left clock.last) };

    fn now(&mut self) -> u64
        ensures reading { result ≡ slice_index_or self.old.left 0 self.old.last }
        ensures after { self.new ≡ record self.old { left = drop 1 self.old.left } }
    {
        let Some(reading) = self.readings.get(self.given).copied() else {
            return self.last;
        };
        self.given += 1;
        reading
    }
}
