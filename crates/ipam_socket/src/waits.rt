//! How much longer a link waits for a line.
ghost use Rattle.std.specs.Prelude.{◌≡◌, ◌-◌, ◌↔◌, length, slice_get, Some, IfSome, IsNone, true, false};
ghost use Rattle.std.specs.Duration.{as_nanos};
ghost use Rattle.ipam_socket.specs.Waiting.{nanos_left, is_begun, limits_of};

use crate::limits::Limits;
use std::time::Duration;

const LINE_FEED: u8 = b'\n';

/// How much longer is waited for a line. Only the time that is spent waiting for bytes counts, and
/// so no client is cut off for what its daemon takes to answer.
#[derive(Clone, Copy)]
pub struct Waits {
    limits: Limits,
    /// Whether the time that is left is that of a line that has begun, or of the first.
    is_begun: bool,
    left: Duration,
}

impl Waits {
    /// What is waited for the first line.
    pub fn new(limits: Limits) -> Waits
        ensures left { nanos_left result ≡ as_nanos limits.first }
        ensures begun { is_begun result ≡ true }
        ensures limits { limits_of result ≡ limits }
    {
        Waits {
            limits,
            is_begun: true,
            left: limits.first,
        }
    }

    /// What is waited for the next line, where a session before had some.
    pub fn between(limits: Limits) -> Waits
        ensures left { nanos_left result ≡ as_nanos limits.between }
        ensures begun { is_begun result ≡ false }
        ensures limits { limits_of result ≡ limits }
    {
        Waits {
            limits,
            is_begun: false,
            left: limits.between,
        }
    }

    /// Whether a line has begun, or the first is waited for.
    pub fn has_begun(&self) -> bool
        ensures { result ≡ is_begun self.now }
    {
        self.is_begun
    }

    /// How much longer is waited. None where no time is left.
    pub fn left(&self) -> Option<Duration>
        ensures none { IsNone result ↔ (nanos_left self.now ≡ 0) }
        ensures some { IfSome result (λ left. as_nanos left ≡ nanos_left self.now) }
    {
        if self.left.is_zero() {
            None
        } else {
            Some(self.left)
        }
    }

    /// Takes the time that was waited from the time that is left.
    pub fn spend(&mut self, waited: Duration)
        ensures left { nanos_left self.new ≡ nanos_left self.old - as_nanos waited }
        ensures begun { is_begun self.new ≡ is_begun self.old }
        ensures limits { limits_of self.new ≡ limits_of self.old }
    {
        self.left = self.left.saturating_sub(waited);
    }

    /// Notes that these bytes came. Where they end a line, the next one may take its time to begin;
    /// where they begin a line, the rest of it has a limit of its own, which further bytes of it
    /// leave alone.
    pub fn took(&mut self, bytes: &[u8])
        ensures ended { slice_get bytes.now (length bytes.now - 1) ≡ Some 10
            → (is_begun self.new ≡ false) × (nanos_left self.new ≡ as_nanos (limits_of self.old).between) }
        ensures limits { limits_of self.new ≡ limits_of self.old }
    {
        match bytes.last() {
            None => {}
            Some(&LINE_FEED) => {
                self.is_begun = false;
                self.left = self.limits.between;
            }
            Some(_) => {
                if !self.is_begun || bytes.contains(&LINE_FEED) {
                    self.is_begun = true;
                    self.left = self.limits.line;
                }
            }
        }
    }
}
