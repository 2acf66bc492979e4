//! Where a program asks whether it is to go on.
ghost use Rattle.std.specs.Prelude.{◌≡◌, ℕ, ◌≤◌, Option};
ghost use Rattle.std.specs.Option.{option_map};
ghost use Rattle.ipam_io.specs.Counts.{Rose};
ghost use Rattle.ipam_io.specs.Passing.{OnStop, OnGo, count_of_turns};

/// Where a pass is made.
#[derive(Clone, Copy, PartialEq, Eq)]
pub enum Point {
    /// Before a line of a session is read.
    Line,
    /// Before a turn of a request, which is one call of the datastore.
    Turn,
}

/// What a gate answers.
#[derive(Clone, Copy)]
pub enum Passed {
    /// Go on.
    Go,
    /// Stop here.
    Stop,
}

/// What is asked whether to go on.
pub trait Gate {
    /// How many passes were stopped.
    ghost stops: { Self → ℕ };

    /// How many passes were made at a turn, where the gate tells.
    ghost turns: { Self → Option ℕ };

    /// Asks at this point whether to go on. A pass at a turn is counted also where it is stopped.
    fn pass(&mut self, point: Point) -> Passed
        ensures stop { OnStop result (Rose (stops self.old) (stops self.new)) }
        ensures go { OnGo result (stops self.new ≡ stops self.old) }
        ensures never_falls { stops self.old ≤ stops self.new }
        ensures turn { turns self.new ≡ option_map (count_of_turns point) (turns self.old) };
}
