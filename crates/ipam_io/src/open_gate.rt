//! A gate that is always open.
ghost use Rattle.std.specs.Prelude.{◌≡◌};

use super::gate::{Gate, Passed, Point};

/// A gate that never stops a pass, and counts none.
#[derive(Clone, Copy, Default)]
pub struct OpenGate;

impl OpenGate {
    /// A gate; any two are alike.
    pub fn new() -> OpenGate {
        OpenGate
    }
}

impl Gate for OpenGate {
    ghost use Rattle.std.specs.Prelude.{None};

    ghost stops = { λ _. 0 };

    ghost turns = { λ _. None };

    /// Says to go on.
    fn pass(&mut self, _point: Point) -> Passed
        ensures { result ≡ Passed.Go }
    {
        Passed::Go
    }
}
