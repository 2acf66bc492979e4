//! Sleeps after lost races.
ghost use Rattle.std.specs.Prelude.{◌≤◌};

use std::sync::Wait;
use std::sync::atomic::AtomicU64;
use std::time::Duration;

/// The least time that a session sleeps, in nanoseconds.
const LEAST_NANOS: u64 = 50_000;

/// The most, in nanoseconds.
const MOST_NANOS: u64 = 20_000_000;

/// How often the least time is doubled at most.
const MOST_DOUBLINGS: u32 = 8;

/// Sleeps, for 50 microseconds up to 20 milliseconds. The time is eight times as long after each further
/// loss for the same line, and half as long at the first loss for a later one: so it stays long while many
/// sessions meet at one block, where each lost race costs two writes. It is another for each slot, so that
/// two sessions that met once do not meet again.
#[derive(Drop)]
pub(crate) struct Sleeps {
    pub(crate) slot: u8,
    pub(crate) doublings: u32,
    // nobody wakes who sleeps on it
    pub(crate) silent: AtomicU64,
}

impl Sleeps {
    /// Sleeps after a lost race. So many were lost for the line that is done, this one among them.
    pub(crate) fn sleep<R: Wait>(&mut self, rt: &R, losses: u32) {
        self.doublings = if losses < 2 {
            self.doublings.saturating_sub(1)
        } else {
            self.doublings.saturating_add(3).min(MOST_DOUBLINGS)
        };
        let time = Duration::from_nanos(sleep_nanos(self.slot, self.doublings));
        self.silent.park_timeout(rt, 0, time);
    }
}

/// How long a session in this slot sleeps, in nanoseconds: the least time, doubled so often, and by the
/// slot up to half of that less or more.
fn sleep_nanos(slot: u8, doublings: u32) -> u64
    ensures least { LEAST_NANOS ≤ result }
    ensures most { result ≤ MOST_NANOS }
{
    let whole = LEAST_NANOS << doublings.clamp(1, MOST_DOUBLINGS);
    let spread = (u64::from(slot) * 37 + u64::from(doublings % 64) * 11) % 64;
    (whole / 2 + whole * spread / 64).clamp(LEAST_NANOS, MOST_NANOS)
}
