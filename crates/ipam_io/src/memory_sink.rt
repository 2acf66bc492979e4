//! A sink in memory.
ghost use Rattle.std.specs.Prelude.{◌≡◌, ◌≤◌, ◌<◌, ◌+◌, ◌-◌, ◌++◌, ◌⊎◌, [], length, IfOk, OnOk, OnErr, IsErr, IsTrue, ◌↔◌};
ghost use Rattle.ipam_io.specs.Counts.{next_count, is_next_listed};

use super::parts::{CallList, Page};
use super::sink::Sink;
use super::source::Failed;
use std::alloc::{AllocError, Global};
use std::marker::Model;

/// A sink that keeps what is written to it. It fails where its room ends, and at the writes
/// whose numbers a list has.
#[derive(Drop)]
pub struct MemorySink {
    page: Page,
    writes: CallList,
    faults: u64,
}

impl Model for MemorySink {
    ghost use Rattle.ipam_io.specs.Fakes.{MemorySinkValue};

    ghost Value = { MemorySinkValue };

    ghost view = { λ sink. record {
      written = sink.page.written.items;
      room = sink.page.room;
      faults = sink.faults;
      calls = sink.writes.calls;
      failing = sink.writes.listed.items;
    } };
}

impl MemorySink {
    /// A sink with room for that many bytes in all, which it reserves here; it takes no memory
    /// later. Of its writes, counted from 1, those fail that are in `failing`.
    pub fn new(alloc: Global, room: usize, failing: Vec<u64>) -> Result<MemorySink, AllocError>
        ensures { IfOk result (λ sink. sink
            ≡ record {
              written = [];
              room = room;
              faults = 0;
              calls = 0;
              failing = failing.items;
            }) }
    {
        Ok(MemorySink {
            page: Page::new(alloc, room)?,
            writes: CallList::new(failing),
            faults: 0,
        })
    }

    /// The bytes written so far.
    pub fn written(&self) -> &[u8]
        ensures { result.now ≡ self.now.written }
    {
        self.page.written.as_slice()
    }
}

impl Sink for MemorySink {
    ghost use Rattle.std.specs.Prelude.{Some, None};
    ghost use Rattle.ipam_io.specs.Fakes.{accepted_part};

    ghost written = { λ sink. Some sink.written };

    ghost write_faults = { λ sink. sink.faults };

    ghost write_rest = { λ _. (None, 0) };

    /// A write that is to fail writes nothing, and one past the room what still fits.
    fn write(&mut self, piece: &[u8]) -> Result<(), Failed>
        ensures fails { IsErr result ↔ (IsTrue (is_next_listed self.old.failing self.old.calls)
            ⊎ (self.old.room < length self.old.written + length piece.now)) }
        ensures after { OnOk result (self.new
            ≡ record self.old {
              written = self.old.written ++ piece.now;
              calls = next_count self.old.calls;
            }) }
        ensures after_fault { OnErr result (self.new
            ≡ record self.old {
              written = self.old.written
                  ++ accepted_part (is_next_listed self.old.failing self.old.calls)
                  (self.old.room - length self.old.written) piece.now;
              faults = next_count self.old.faults;
              calls = next_count self.old.calls;
            }) }
        ensures never_falls { self.old.faults ≤ self.new.faults }
    {
        if self.writes.next_is_listed() || self.page.append(piece).is_err() {
            self.faults = self.faults.saturating_add(1);
            return Err(Failed);
        }
        Ok(())
    }
}
