//! What connections come from.
ghost use Rattle.std.specs.Prelude.{◌≡◌, ℕ, IfOk, OnOk, OnErr};
ghost use Rattle.ipam_io.specs.Counts.{Rose, next_count};
ghost use Rattle.ipam_socket.specs.Listening.{CountsCame};

use crate::bell::Bell;
use crate::passing::Passing;
use ipam_io::Failed;
use std::alloc::AllocError;

/// What came of one try to accept a connection.
#[derive(Drop)]
pub enum Came<T> {
    /// A connection.
    One(T),
    /// No connection, for as long as one try waits.
    Nobody,
    /// The bell rang.
    Woken,
    /// No connection, for a cause that passes.
    Passing(Passing),
}

/// What connections are accepted from, each once it has something to serve. One whose session was left is kept there,
/// and accepted again.
pub trait Listens<T> {
    /// How many connections were accepted, again or for the first time.
    ghost accepted: { Self → ℕ };

    /// How many were kept.
    ghost kept: { Self → ℕ };

    /// How often listening or accepting failed, for a cause that does not pass.
    ghost faults: { Self → ℕ };

    /// Begins to listen.
    fn open(&mut self) -> Result<(), Failed>
        ensures accepted { accepted self.new ≡ accepted self.old }
        ensures kept { kept self.new ≡ kept self.old }
        ensures fault { OnErr result (Rose (faults self.old) (faults self.new)) }
        ensures no_fault { OnOk result (faults self.new ≡ faults self.old) };

    /// What ends a try from another thread. It ends no try where nothing listens.
    fn bell(&self) -> Result<Bell, AllocError>;

    /// Accepts the next connection, or waits for one for a limited time. It fails where nothing listens.
    fn accept(&mut self) -> Result<Came<T>, Failed>
        ensures one { IfOk result (λ came. CountsCame came (accepted self.old) (accepted self.new)) }
        ensures none { OnErr result (accepted self.new ≡ accepted self.old) }
        ensures kept { kept self.new ≡ kept self.old }
        ensures fault { OnErr result (Rose (faults self.old) (faults self.new)) }
        ensures no_fault { OnOk result (faults self.new ≡ faults self.old) };

    /// Keeps a connection whose session was left, until it can be accepted again. It may be closed before.
    fn keep(&mut self, connection: T)
        ensures accepted { accepted self.new ≡ accepted self.old }
        ensures kept { kept self.new ≡ next_count (kept self.old) }
        ensures faults { faults self.new ≡ faults self.old };

    /// Listens no more.
    fn close(&mut self)
        ensures accepted { accepted self.new ≡ accepted self.old }
        ensures kept { kept self.new ≡ kept self.old }
        ensures faults { faults self.new ≡ faults self.old };
}
