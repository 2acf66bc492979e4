//! How long it is waited where no connection can be accepted for a while.
ghost use Rattle.std.specs.Prelude.{◌≡◌, ◌*◌, min, false};
ghost use Rattle.std.specs.Duration.{as_nanos};

use crate::notes::{Note, Tells};
use ipam_socket::Passing;
use log::Log;
use std::sync::Wait;
use std::thread;
use std::time::{Clock, Duration};

/// How many milliseconds the first pause takes.
const FIRST_MILLIS: u64 = 10;

/// How many milliseconds a pause takes at most.
const MOST_MILLIS: u64 = 1_000;

/// The pauses between tries to accept a connection that fail for a cause that passes.
#[derive(Clone, Copy)]
pub struct Pauses {
    millis: u64,
    // whether the cause of the first one was written
    is_told: bool,
}

impl Pauses {
    /// No pause was made.
    pub fn new() -> Pauses
        ensures first { result.millis ≡ 10 }
        ensures untold { result.is_told ≡ false }
    {
        Pauses {
            millis: FIRST_MILLIS,
            is_told: false,
        }
    }

    /// How long the next pause takes. The one after it takes twice as long, and a second at most.
    pub fn next(&mut self) -> Duration
        ensures pause { as_nanos result ≡ self.old.millis * 1000000 }
        ensures doubled { self.new.millis ≡ min (self.old.millis * 2) 1000 }
        ensures told { self.new.is_told ≡ self.old.is_told }
    {
        let pause = Duration::from_millis(self.millis);
        self.millis = self.millis.saturating_mul(2).min(MOST_MILLIS);
        pause
    }

    /// Makes the next pause a short one again, since a connection was accepted. A cause that was
    /// written once is not written again.
    pub fn shorten(&mut self)
        ensures first { self.new.millis ≡ 10 }
        ensures told { self.new.is_told ≡ self.old.is_told }
    {
        self.millis = FIRST_MILLIS;
    }

    /// Makes a pause by the clock of this runtime, and tells its cause if it is the first one.
    pub(crate) fn wait_out<R: Wait + Log + Clock, N: Tells>(
        &mut self,
        rt: &R,
        notes: &mut N,
        cause: Passing,
    ) {
        if !self.is_told {
            self.is_told = true;
            notes.tell(rt, Note::Passing(cause));
        }
        thread::sleep(rt, self.next());
    }
}
