//! Connections are handed over, and each is served. Notes are handed over so too.
ghost use Rattle.std.specs.Prelude.{◌≡◌, ℕ, OnSome, IfNone, OnOk, OnErr};
ghost use Rattle.std.specs.Bool.{OnTrue, OnFalse};
ghost use Rattle.ipam_io.specs.Counts.{Rose, next_count};
ghost use Rattle.ipam_daemon.specs.Handing.{IsEachKept, IsEachServed, IsHandedOver, IsOneHandedOver, raised};

use crate::leaving::TakesNow;
use crate::notes::Tells;
use crate::pausing::Pauses;
use ipam_socket::{Came, Failed, Listens};
use log::Log;
use std::sync::Wait;
use std::time::Clock;

/// How many connections that were left may wait to be kept. Further ones are closed.
pub(crate) const MOST_LEFT: usize = 512;

/// Who serves connections, each to its end, or writes notes.
pub trait Attends<T> {
    /// How many were served.
    ghost attended: { Self → ℕ };

    /// What it means that this one was served, by who served, before and after.
    ghost serves: { Self → T → Self → Type 0 };

    /// Serves the connection to its end.
    fn attend<R: Wait + Log + Clock>(&mut self, rt: &R, connection: T)
        ensures counted { attended self.new ≡ next_count (attended self.old) }
        ensures served { serves self.old connection self.new };
}

/// Where connections are taken from.
pub trait Takes<T> {
    /// How many were taken.
    ghost taken: { Self → ℕ };

    /// No more can come.
    ghost over: { Self → Type 0 };

    /// Takes the next connection, once there is one. None where no more can come.
    fn take<R: Wait>(&mut self, rt: &R) -> Option<T>
        ensures one { OnSome result (taken self.new ≡ next_count (taken self.old)) }
        ensures none { IfNone result (taken self.new ≡ taken self.old) }
        ensures over { IfNone result (over self.new) };
}

/// Where connections are handed to.
pub trait Hands<T> {
    /// How many were handed over.
    ghost handed: { Self → ℕ };

    /// Hands the connection over, once there is room. It comes back where nobody can take it.
    fn hand<R: Wait>(&mut self, rt: &R, connection: T) -> Result<(), T>
        ensures one { OnOk result (handed self.new ≡ next_count (handed self.old)) }
        ensures none { OnErr result (handed self.new ≡ handed self.old) };
}

/// Who looks whether an alarm was raised.
pub trait Watches {
    /// How many looks found it raised.
    ghost found: { Self → ℕ };

    /// Looks once whether it was raised.
    fn is_raised(&mut self) -> bool
        ensures raised { OnTrue result (Rose (found self.old) (found self.new)) }
        ensures not_raised { OnFalse result (found self.new ≡ found self.old) };
}

/// Serves each connection that is handed over, until no more can come.
#[tactic(auto, using(crate::proofs::Counts::served_none, crate::proofs::Counts::served_more))]
pub fn work<R: Wait + Log + Clock, T, Q: Takes<T>, W: Attends<T>>(
    rt: &R,
    connections: &mut Q,
    worker: &mut W,
)
    ensures each { IsEachServed (Q.taken connections.old) (Q.taken connections.new)
        (W.attended worker.old) (W.attended worker.new) }
    ensures over { Q.over connections.new }
{
    for _ in rt.forever() {
        match connections.take(rt) {
            Some(connection) => worker.attend(rt, connection),
            None => return,
        }
    }
    unreachable!()
}

/// Accepts connections, one after the other, and hands each over, or has it served here where nobody can take it.
/// Once it is woken, it has those kept that were left. Where accepting fails for a cause that passes, it pauses, by the
/// clock of this runtime. It ends where a look before a try finds the alarm raised, or accepting fails for good, and
/// nowhere else.
#[tactic(auto, using(crate::proofs::Counts::handed_none, crate::proofs::Counts::handed_more, crate::proofs::Counts::handed_still, crate::proofs::Counts::kept_none, crate::proofs::Counts::kept_still, crate::proofs::Counts::kept_on))]
pub fn hand_over_all<
    R: Wait + Log + Clock,
    T,
    L: Listens<T>,
    H: Hands<T>,
    B: TakesNow<T>,
    W: Attends<T>,
    A: Watches,
    N: Tells,
>(
    rt: &R,
    listener: &mut L,
    to: &mut H,
    left: &mut B,
    own: &mut W,
    watch: &mut A,
    notes: &mut N,
) -> Result<(), Failed>
    ensures each { IsHandedOver (L.accepted listener.old) (L.accepted listener.new)
        (H.handed to.old) (H.handed to.new) (W.attended own.old) (W.attended own.new) }
    ensures kept { IsEachKept (B.taken left.old) (B.taken left.new) (L.kept listener.old) (L.kept listener.new) }
    ensures alarm { OnOk result (Rose (A.found watch.old) (A.found watch.new)) }
    ensures no_alarm { OnErr result (A.found watch.new ≡ A.found watch.old) }
    ensures fault { OnErr result (Rose (L.faults listener.old) (L.faults listener.new)) }
    ensures no_fault { OnOk result (L.faults listener.new ≡ L.faults listener.old) }
{
    let mut pauses = Pauses::new();
    for _ in rt.forever() {
        if watch.is_raised() {
            return Ok(());
        }
        match listener.accept()? {
            Came::One(connection) => {
                pauses.shorten();
                hand_one(rt, connection, to, own);
            }
            Came::Nobody => pauses = Pauses::new(),
            Came::Woken => keep_left(rt, left, listener),
            Came::Passing(cause) => pauses.wait_out(rt, notes, cause),
        }
    }
    unreachable!()
}

/// Has the connections kept that were left, up to so many: those that were left since have it woken again.
#[tactic(auto, using(crate::proofs::Counts::kept_none, crate::proofs::Counts::kept_more, crate::proofs::Counts::kept_all))]
fn keep_left<R: Wait, T, B: TakesNow<T>, L: Listens<T>>(rt: &R, left: &mut B, listener: &mut L)
    ensures kept { IsEachKept (B.taken left.old) (B.taken left.new) (L.kept listener.old) (L.kept listener.new) }
    ensures accepted { L.accepted listener.new ≡ L.accepted listener.old }
    ensures faults { L.faults listener.new ≡ L.faults listener.old }
{
    for _ in 0..MOST_LEFT {
        match left.take_now(rt) {
            Some(connection) => listener.keep(connection),
            None => return,
        }
    }
}

/// Hands the connection over, or has it served here.
fn hand_one<R: Wait + Log + Clock, T, H: Hands<T>, W: Attends<T>>(
    rt: &R,
    connection: T,
    to: &mut H,
    own: &mut W,
)
    ensures { IsOneHandedOver (H.handed to.old) (H.handed to.new) (W.attended own.old) (W.attended own.new) }
{
    if let Err(refused) = to.hand(rt, connection) {
        own.attend(rt, refused);
    }
}
