//! Numbers that are drawn from a state of 64 bits.
ghost use Rattle.std.specs.Prelude.{◌≡◌, ◌<◌};
ghost use Rattle.ipam_command.specs.Draws.{draw, next_state};

/// What the next state is made with.
const FACTOR: u128 = 6_364_136_223_846_793_005;

const TERM: u128 = 1_442_695_040_888_963_407;
/// How many states there are.
const STATES: u128 = 0x1_0000_0000_0000_0000;
/// No contract states the low bits of a state.
const UNTOLD: u64 = 0x2_0000_0000;

/// The state of the draws.
#[derive(Drop)]
pub(crate) struct Draws {
    x: u64,
}

impl Draws {
    /// Draws of which none was made yet.
    pub(crate) fn new() -> Draws
        ensures { result.x ≡ 1 }
    {
        Draws { x: 1 }
    }

    /// Draws a number below this one.
    #[tactic(auto, unfolding(crate::specs::Draws::draw, crate::specs::Draws::next_state))]
    pub(crate) fn draw(&mut self, below: u64) -> u64
        requires { 0 < below }
        ensures value { result ≡ draw below self.old.x }
        ensures small { result < below }
        ensures state { self.new.x ≡ next_state self.old.x }
    {
        self.x = ((FACTOR * u128::from(self.x) + TERM) % STATES) as u64;
        self.x / UNTOLD % below
    }
}
