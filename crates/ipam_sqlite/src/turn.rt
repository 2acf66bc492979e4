//! Something is tried, with pauses in between, until it is done or no time is left.
ghost use Rattle.std.specs.Prelude.{◌≡◌, ◌+◌, ◌-◌, ◌*◌, ◌≤◌, min, ℕ, Bool, false};

/// The longest pause, in ticks.
const LONGEST_PAUSE: u64 = 50;

/// What is tried until it is done.
pub trait Tries {
    /// Whether it is done.
    ghost is_done: { Self → Bool };

    /// How often it was tried.
    ghost tries: { Self → ℕ };

    /// Tries once, and answers whether it is done.
    fn attempt(&mut self) -> bool
        ensures done { result ≡ is_done self.new }
        ensures tries { tries self.new ≤ tries self.old + 1 };
}

/// What passes the time between two tries. A tick is a tenth of a millisecond.
pub trait Pauses {
    /// How many ticks may still be waited.
    ghost left: { Self → ℕ };

    /// How many ticks may still be waited.
    fn left(&self) -> u64
        ensures { result ≡ left self.now };

    /// Sleeps so many ticks. What is left falls by as many, or by more where more time went by.
    fn pause(&mut self, ticks: u64)
        ensures { left self.new ≤ left self.old - ticks };
}

/// Tries, with pauses that grow from one tick to fifty, until it is done or no time is left. It is tried after
/// the last pause, too, which may end up to its length later. Answers whether it is done.
pub fn wait_for<T: Tries, P: Pauses>(tries: &mut T, pauses: &mut P) -> bool
    ensures done { result ≡ T.is_done tries.new }
    ensures timed_out { result ≡ false → P.left pauses.new ≡ 0 }
    ensures tries { T.tries tries.new ≤ T.tries tries.old + P.left pauses.old + 1 }
{
    let mut pause = 1;
    for _ in 0..pauses.left() {
        if tries.attempt() {
            return true;
        }
        if pauses.left() == 0 {
            return false;
        }
        pauses.pause(pause);
        pause = after(pause);
    }
    tries.attempt()
}

/// How long the next pause is, after one of so many ticks.
fn after(pause: u64) -> u64
    requires { 1 ≤ pause }
    ensures positive { 1 ≤ result }
    ensures doubled { result ≡ min (pause * 2) 50 }
{
    if pause < LONGEST_PAUSE / 2 {
        pause * 2
    } else {
        LONGEST_PAUSE
    }
}
