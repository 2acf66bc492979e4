//! Connections whose sessions were left go back to who accepts them.
ghost use Rattle.std.specs.Prelude.{◌≡◌, ℕ, OnSome, IfNone};
ghost use Rattle.ipam_io.specs.Counts.{next_count};

use crate::channel::{HandingEnd, Offered, TakingEnd, channel};
use crate::handing::MOST_LEFT;
use ipam_socket::Bell;
use std::alloc::{AllocError, Global};
use std::sync::Wait;

/// Where connections are taken from that were left.
pub trait TakesNow<T> {
    /// How many were taken.
    ghost taken: { Self → ℕ };

    /// Takes the next connection, if there is one now.
    fn take_now<R: Wait>(&mut self, rt: &R) -> Option<T>
        ensures one { OnSome result (taken self.new ≡ next_count (taken self.old)) }
        ensures none { IfNone result (taken self.new ≡ taken self.old) };
}

/// Who takes connections that were left.
pub trait Leaves<T> {
    /// Takes the connection, and waits for nobody. Whether it is kept is not promised.
    fn leave<R: Wait>(&mut self, rt: &R, connection: T);
}

/// A part of what connections are left by: they wait to be kept, and a bell tells so.
#[derive(Drop)]
pub struct LeavingEnd<T> {
    to: HandingEnd<T>,
    bell: Bell,
}

impl<T: Drop> LeavingEnd<T> {
    /// The first part, with this bell, and the end from which they are taken to be kept.
    pub(crate) fn new(
        alloc: Global,
        bell: Bell,
    ) -> Result<(LeavingEnd<T>, TakingEnd<T>), AllocError> {
        let (to, left) = channel(alloc, MOST_LEFT)?;
        Ok((LeavingEnd { to, bell }, left))
    }

    /// Makes another end, by which connections go to the same place.
    pub(crate) fn another(&self) -> Result<LeavingEnd<T>, AllocError> {
        Ok(LeavingEnd {
            to: self.to.another()?,
            bell: self.bell.another()?,
        })
    }
}

impl<T: Drop> Leaves<T> for LeavingEnd<T> {
    /// Hands the connection to who keeps it. It is closed where too many wait for that.
    fn leave<R: Wait>(&mut self, rt: &R, connection: T) {
        match self.to.offer(rt, connection) {
            Offered::Handed => self.bell.ring(),
            Offered::Full | Offered::Nobody => {}
        }
    }
}
