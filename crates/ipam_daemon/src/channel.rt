//! A channel of connections, or of notes, whose ends count.
ghost use Rattle.std.specs.Prelude.{◌≡◌, true};
ghost use Rattle.ipam_io.specs.Counts.{next_count};

use crate::handing::{Hands, Takes};
use crate::leaving::TakesNow;
use crossbeam_channel::{Receiver, Sender};
use std::alloc::{AllocError, Global};
use std::sync::Wait;

/// The end of a channel to which items are handed.
#[derive(Drop)]
pub(crate) struct HandingEnd<T> {
    to: Sender<T>,
    handed: u64,
}

/// What came of an item that was offered.
#[derive(Clone, Copy)]
pub(crate) enum Offered {
    /// It was handed over.
    Handed,
    /// There was no room.
    Full,
    /// Each other end is gone.
    Nobody,
}

/// An end of a channel from which items are taken, each by one of those that have an end.
#[derive(Drop)]
pub(crate) struct TakingEnd<T> {
    from: Receiver<T>,
    taken: u64,
    is_over: bool,
}

/// A channel in which up to so many items wait to be taken.
pub(crate) fn channel<T: Drop>(
    alloc: Global,
    most: usize,
) -> Result<(HandingEnd<T>, TakingEnd<T>), AllocError> {
    let (to, from) = crossbeam_channel::bounded(alloc, most)?;
    let from = TakingEnd {
        from,
        taken: 0,
        is_over: false,
    };
    Ok((HandingEnd { to, handed: 0 }, from))
}

impl<T: Drop> HandingEnd<T> {
    /// A further end that hands items to this channel, and has handed none yet. Fails with `AllocError`.
    pub(crate) fn another(&self) -> Result<HandingEnd<T>, AllocError> {
        Ok(HandingEnd {
            to: self.to.clone()?,
            handed: 0,
        })
    }

    /// Hands the item over if there is room at once. Else it is dropped.
    pub(crate) fn offer<R: Wait>(&mut self, rt: &R, item: T) -> Offered {
        match self.to.try_send(rt, item) {
            Ok(()) => {
                self.handed = self.handed.saturating_add(1);
                Offered::Handed
            }
            Err(refused) => {
                if refused.is_disconnected() {
                    return Offered::Nobody;
                }
                Offered::Full
            }
        }
    }
}

impl<T: Drop> TakingEnd<T> {
    /// A further end that takes items from this channel, and has taken none yet. Fails with `AllocError`.
    pub(crate) fn another(&self) -> Result<TakingEnd<T>, AllocError> {
        Ok(TakingEnd {
            from: self.from.clone()?,
            taken: 0,
            is_over: false,
        })
    }
}

impl<T: Drop> Hands<T> for HandingEnd<T> {
    ghost handed = { λ end. end.handed };

    /// Hands the item over, once there is room. It comes back where each other end is gone, and nowhere else: a
    /// channel with room for an item takes no memory later.
    fn hand<R: Wait>(&mut self, rt: &R, item: T) -> Result<(), T> {
        match self.to.send(rt, item) {
            Ok(()) => {
                self.handed = self.handed.saturating_add(1);
                Ok(())
            }
            Err(refused) => Err(refused.into_inner()),
        }
    }
}

impl<T: Drop> Takes<T> for TakingEnd<T> {
    ghost taken = { λ end. end.taken };

    ghost over = { λ end. end.is_over ≡ true };

    /// Takes the next item. None where the other end is gone and nothing is left.
    fn take<R: Wait>(&mut self, rt: &R) -> Option<T> {
        match self.from.recv(rt) {
            Ok(item) => {
                self.taken = self.taken.saturating_add(1);
                Some(item)
            }
            Err(_) => {
                self.is_over = true;
                None
            }
        }
    }
}

impl<T: Drop> TakesNow<T> for TakingEnd<T> {
    ghost taken = { λ end. end.taken };

    fn take_now<R: Wait>(&mut self, rt: &R) -> Option<T> {
        match self.from.try_recv(rt) {
            Ok(item) => {
                self.taken = self.taken.saturating_add(1);
                Some(item)
            }
            Err(_) => None,
        }
    }
}
