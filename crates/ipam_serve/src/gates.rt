//! Gates that sessions ask.
ghost use Rattle.std.specs.Prelude.{◌≡◌, ◌≤◌, ℕ, Option};
ghost use Rattle.std.specs.Option.{option_map};
ghost use Rattle.ipam_io.specs.Counts.{Rose};
ghost use Rattle.ipam_io.specs.declared.gate.Point.{Point as AtPoint};
ghost use Rattle.ipam_io.specs.Passing.{OnGo, OnStop, count_of_turns};
ghost use Rattle.ipam_shared.specs.PassValue.{PassValue};
ghost use Rattle.ipam_serve.specs.Asking.{count_of_lines};

use ipam_io::{Gate, ListGate, OpenGate, Passed, Point};
use ipam_shared::Pass;

/// What a session asks before it reads a line and before each call. It is as a `Gate`, and also tells
/// how often it was asked before a line.
pub trait SessionGate {
    /// How many passes were stopped.
    ghost stops: { Self → ℕ };

    /// How many passes were made at a turn, where the gate tells.
    ghost turns: { Self → Option ℕ };

    /// How many passes were made before a line, where the gate tells.
    ghost lines: { Self → Option ℕ };

    /// What is so of it before and after it was asked at this point and let the session go on, and of the
    /// session's pass then. Only `pass` states it: who has this asked the gate when the pass was so.
    ghost admits: { Self → AtPoint → PassValue → Self → Type 0 };

    /// Asks at this point whether to go on, where the session has this pass. It is counted also where it is
    /// stopped.
    fn pass(&mut self, point: Point, session: &Pass) -> Passed
        ensures stop { OnStop result (Rose (stops self.old) (stops self.new)) }
        ensures go { OnGo result (stops self.new ≡ stops self.old) }
        ensures admits { OnGo result (admits self.old point session.now self.new) }
        ensures never_falls { stops self.old ≤ stops self.new }
        ensures turn { turns self.new ≡ option_map (count_of_turns point) (turns self.old) }
        ensures line { lines self.new ≡ option_map (count_of_lines point) (lines self.old) };
}

/// Stops no session, and counts none of its passes.
impl SessionGate for OpenGate {
    ghost use Rattle.std.specs.Prelude.{⊤, None};

    ghost stops = { λ _. 0 };

    ghost turns = { λ _. None };

    ghost lines = { λ _. None };

    ghost admits = { λ _ _ _ _. ⊤ };

    fn pass(&mut self, point: Point, _session: &Pass) -> Passed {
        Gate::pass(self, point)
    }
}

/// Stops a session at the passes whose numbers its list has. It does not tell how many passes were before a
/// line.
impl SessionGate for ListGate {
    ghost use Rattle.std.specs.Prelude.{None, Some};

    ghost stops = { λ gate. gate.stops };

    ghost turns = { λ gate. Some gate.turns };

    ghost lines = { λ _. None };

    ghost admits = { λ before _ _ after. after.stops ≡ before.stops };

    fn pass(&mut self, point: Point, _session: &Pass) -> Passed {
        Gate::pass(self, point)
    }
}
