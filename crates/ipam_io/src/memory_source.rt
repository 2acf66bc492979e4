//! A source in memory.
ghost use Rattle.std.specs.Prelude.{◌≡◌, ◌≤◌, ◌++◌, min, take, drop, length, IfOk, OnErr, IsErr, IsTrue, ◌↔◌};
ghost use Rattle.ipam_io.specs.Counts.{next_count, is_next_listed};

use super::parts::{CallList, Unread};
use super::source::{Failed, Source};
use std::marker::Model;

/// A source that gives the bytes it was made with, and fails at the reads whose numbers a list
/// has.
#[derive(Drop)]
pub struct MemorySource {
    unread: Unread,
    reads: CallList,
    faults: u64,
}

impl Model for MemorySource {
    ghost use Rattle.ipam_io.specs.Fakes.{MemorySourceValue};

    ghost Value = { MemorySourceValue };

    ghost view = { λ source. record {
      left = source.unread;
      faults = source.faults;
      calls = source.reads.calls;
      failing = source.reads.listed.items;
    } };
}

impl MemorySource {
    /// A source of these bytes. Of its reads, counted from 1, those fail that are in `failing`.
    pub fn new(bytes: Vec<u8>, failing: Vec<u64>) -> MemorySource
        ensures { result
            ≡ record { left = bytes.items; faults = 0; calls = 0; failing = failing.items } }
    {
        MemorySource {
            unread: Unread::new(bytes),
            reads: CallList::new(failing),
            faults: 0,
        }
    }
}

impl Source for MemorySource {
    ghost use Rattle.std.specs.Prelude.{Some, None};

    ghost left = { λ source. Some source.left };

    ghost read_faults = { λ source. source.faults };

    ghost read_rest = { λ _. (None, 0) };

    /// As many bytes as there are or as fit, unless this read is one that is to fail.
    fn read(&mut self, into: &mut [u8]) -> Result<usize, Failed>
        ensures fails { IsErr result ↔ IsTrue (is_next_listed self.old.failing self.old.calls) }
        ensures count { IfOk result (λ n. n ≡ min (length into.old) (length self.old.left)) }
        ensures filled { IfOk result (λ n. into.new ≡ take n self.old.left ++ drop n into.old) }
        ensures not_filled { OnErr result (into.new ≡ into.old) }

        ensures after { IfOk result (λ n. self.new
            ≡ record self.old {
              left = drop n self.old.left;
              calls = next_count self.old.calls;
            }) }
        ensures after_fault { OnErr result (self.new
            ≡ record self.old {
              faults = next_count self.old.faults;
              calls = next_count self.old.calls;
            }) }
        ensures never_falls { self.old.faults ≤ self.new.faults }
    {
        if self.reads.next_is_listed() {
            self.faults = self.faults.saturating_add(1);
            return Err(Failed);
        }
        Ok(self.unread.take_into(into))
    }
}
