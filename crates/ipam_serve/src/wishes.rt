//! Lines are read.
ghost use Rattle.std.specs.Prelude.{◌≡◌, IfOk, IfSome, OnErr};
ghost use Rattle.ipam_session.specs.Wishes.{IsSoundWish};
ghost use Rattle.ipam_serve.specs.Lines.{asked_by};

use crate::opening::Opening;
use ipam_session::{AskFault, Wish, read_wish};
use std::alloc::{AllocError, Global};
use std::sync::Wait;

/// What takes the memory for reading a line. What is generic over it knows nothing of it, and so can't state by
/// itself that it found none.
pub trait ReadsWishes {
    /// It found no memory.
    ghost wants: { Self → Type 0 };

    /// What the line asks, or None where it asks nothing. Its bytes are let go. Fails with `AllocError`.
    fn wish_of<R: Wait>(
        &self,
        rt: &R,
        opening: &Opening,
        line: Vec<u8>,
    ) -> Result<Option<Wish>, AllocError>
        ensures read { IfOk result (λ found. asked_by line.items ≡ found) }
        ensures sound { IfOk result (λ found. IfSome found IsSoundWish) }
        ensures wants { OnErr result (wants self.now) };
}

impl ReadsWishes for Global {
    ghost wants = { λ _. Unit {0} };

    fn wish_of<R: Wait>(
        &self,
        rt: &R,
        opening: &Opening,
        line: Vec<u8>,
    ) -> Result<Option<Wish>, AllocError> {
        let turn = opening.turn(rt, line.len());
        let asked = read_wish(*self, line.as_slice());
        turn.end();
        match asked {
            Ok(wish) => Ok(Some(wish)),
            Err(AskFault::Unreadable) => Ok(None),
            Err(AskFault::Memory) => Err(AllocError),
        }
    }
}
