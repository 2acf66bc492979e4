//! A gate that stops the passes whose numbers a list has.
ghost use Rattle.std.specs.Prelude.{◌≡◌, ◌≤◌};
ghost use Rattle.ipam_io.specs.Counts.{next_count, is_next_listed};

use super::gate::{Gate, Passed, Point};
use super::parts::CallList;
use std::marker::Model;

/// A gate that stops the passes whose numbers a list has, and counts those at a turn.
#[derive(Drop)]
pub struct ListGate {
    passes: CallList,
    stops: u64,
    turns: u64,
}

impl Model for ListGate {
    ghost use Rattle.ipam_io.specs.Fakes.{ListGateValue};

    ghost Value = { ListGateValue };

    ghost view = { λ gate. record {
      stops = gate.stops;
      turns = gate.turns;
      calls = gate.passes.calls;
      stopping = gate.passes.listed.items;
    } };
}

impl ListGate {
    /// A gate. Of its passes, counted from 1 whatever their point, those are stopped that are in
    /// `stopping`.
    pub fn new(stopping: Vec<u64>) -> ListGate
        ensures { result ≡ record { stops = 0; turns = 0; calls = 0; stopping = stopping.items } }
    {
        ListGate {
            passes: CallList::new(stopping),
            stops: 0,
            turns: 0,
        }
    }
}

impl Gate for ListGate {
    ghost use Rattle.std.specs.Prelude.{Some, if◌then◌else◌};
    ghost use Rattle.ipam_io.specs.Passing.{count_of_turns};

    ghost stops = { λ gate. gate.stops };

    ghost turns = { λ gate. Some gate.turns };

    /// Stops if this pass is one that is to be stopped.
    fn pass(&mut self, point: Point) -> Passed
        ensures answer { result
            ≡ (if is_next_listed self.old.stopping self.old.calls
            then Passed.Stop else Passed.Go) }
        ensures after { self.new
            ≡ record self.old {
              stops = (if is_next_listed self.old.stopping self.old.calls
                  then next_count self.old.stops else self.old.stops);
              turns = count_of_turns point self.old.turns;
              calls = next_count self.old.calls;
            } }
        ensures never_falls { self.old.stops ≤ self.new.stops }
    {
        if point == Point::Turn {
            self.turns = self.turns.saturating_add(1);
        }
        if self.passes.next_is_listed() {
            self.stops = self.stops.saturating_add(1);
            return Passed::Stop;
        }
        Passed::Go
    }
}
