//! What the fakes are made of.
ghost use Rattle.std.specs.Prelude.{◌≡◌, ◌+◌, ◌-◌, ◌≤◌, ◌<◌, ◌++◌, [], min, take, drop, length, vec_len, vec_capacity, IfOk, IsErr, ◌↔◌};
ghost use Rattle.ipam_io.specs.Counts.{next_count, is_next_listed};

use super::source::Failed;
use std::alloc::{AllocError, Global};
use std::marker::Model;

// The calls made so far, and the numbers of those that are singled out. The first call is 1.
#[derive(Drop)]
pub(crate) struct CallList {
    pub(crate) listed: Vec<u64>,
    pub(crate) calls: u64,
}

impl CallList {
    pub(crate) fn new(listed: Vec<u64>) -> CallList
        ensures listed { result.listed ≡ listed }
        ensures calls { result.calls ≡ 0 }
    {
        CallList { listed, calls: 0 }
    }

    // Counts a call, and says whether it is listed.
    pub(crate) fn next_is_listed(&mut self) -> bool
        ensures listed { self.new.listed ≡ self.old.listed }
        ensures calls { self.new.calls ≡ next_count self.old.calls }
        ensures value { result ≡ is_next_listed self.old.listed.items self.old.calls }
    {
        self.calls = self.calls.saturating_add(1);
        self.listed.contains(&self.calls)
    }
}

// The bytes of a source that no read has taken.
#[derive(Drop)]
pub(crate) struct Unread {
    bytes: Vec<u8>,
    taken: usize,
}

impl Model for Unread {
    ghost use Rattle.std.specs.Prelude.{List, ℕ, ◌≤◌, drop, vec_len};

    ghost Value = { List ℕ };

    ghost view = { λ unread. drop unread.taken unread.bytes.items };

    ghost invariant = { λ unread. unread.taken ≤ vec_len unread.bytes };
}

impl Unread {
    pub(crate) fn new(bytes: Vec<u8>) -> Unread
        ensures { result ≡ bytes.items }
    {
        Unread { bytes, taken: 0 }
    }

    // Takes as many bytes as there are or as fit, into the front of `into`.
    pub(crate) fn take_into(&mut self, into: &mut [u8]) -> usize
        ensures count { result ≡ min (length into.old) (length self.old) }
        ensures filled { into.new ≡ take result self.old ++ drop result into.old }
        ensures left { self.new ≡ drop result self.old }
    {
        let left = &self.bytes[self.taken..];
        let count = into.len().min(left.len());
        into[..count].copy_from_slice(&left[..count]);
        self.taken += count;
        count
    }
}

// The bytes written to a sink, for which there is room from the start.
#[derive(Drop)]
pub(crate) struct Page {
    pub(crate) written: Vec<u8>,
    pub(crate) room: usize,
    ghost within_room: { vec_len written ≤ room },
    ghost reserved: { room ≤ vec_capacity written },
}

impl Page {
    pub(crate) fn new(alloc: Global, room: usize) -> Result<Page, AllocError>
        ensures empty { IfOk result (λ page. page.written.items ≡ []) }
        ensures room { IfOk result (λ page. page.room ≡ room) }
    {
        let written = Vec::with_capacity(alloc, room)?;
        Ok(Page { written, room })
    }

    // Appends as much of the piece as fits, which fails where that is not all of it.
    pub(crate) fn append(&mut self, piece: &[u8]) -> Result<(), Failed>
        ensures room { self.new.room ≡ self.old.room }
        ensures written { self.new.written.items
            ≡ self.old.written.items ++ take (self.old.room - length self.old.written.items) piece.now }
        ensures fails { IsErr result ↔ (self.old.room < length self.old.written.items + length piece.now) }
    {
        let fitting = piece.len().min(self.room - self.written.len());
        self.written
            .extend_from_slice(&piece[..fitting])
            .map_err(|_| Failed)?;
        if fitting < piece.len() {
            return Err(Failed);
        }
        Ok(())
    }
}
