//! The system's clock.
ghost use Rattle.std.specs.Prelude.{◌≡◌, ◌≤◌};
ghost use Rattle.ipam_io.specs.Standard.{latest_time};

use super::clock::Clock;

/// The system's clock, in whole seconds since the start of 1970. It does not tell its readings.
#[derive(Drop)]
pub struct SystemClock<R> {
    runtime: R,
    latest: u64,
}

impl<R: std::rt::Clock> SystemClock<R> {
    /// A clock that asks this runtime.
    pub fn new(runtime: R) -> SystemClock<R>
        ensures { latest_time result ≡ 0 }
    {
        SystemClock { runtime, latest: 0 }
    }
}

impl<R: std::rt::Clock> Clock for SystemClock<R> {
    ghost use Rattle.std.specs.Prelude.{None};

    ghost ahead = { λ _. None };

    /// The latest time that the system gave so far, in whole seconds since 1970. It never falls,
    /// also where the system's clock is set back or can't be read; it is 0 before the first time.
    fn now(&mut self) -> u64
        ensures reading { result ≡ latest_time self.new }
        ensures never_falls { latest_time self.old ≤ latest_time self.new }
    {
        if let Ok(time) = self.runtime.since_1970() {
            self.latest = self.latest.max(time.as_secs());
        }
        self.latest
    }
}
