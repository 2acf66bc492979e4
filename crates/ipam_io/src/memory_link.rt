//! A link in memory.
ghost use Rattle.std.specs.Prelude.{◌≡◌, ◌≤◌, ◌<◌, ◌+◌, ◌-◌, ◌++◌, ◌⊎◌, [], min, take, drop, length, IfOk, OnOk, OnErr, IsErr, IsTrue, ◌↔◌};
ghost use Rattle.ipam_io.specs.Counts.{next_count, is_next_listed};

use super::link::Link;
use super::parts::{CallList, Page, Unread};
use super::sink::Sink;
use super::source::{Failed, Source};
use std::alloc::{AllocError, Global};
use std::marker::Model;

/// A link that gives the bytes it was made with and keeps what is written to it. It fails where
/// its room ends, and at the reads and writes whose numbers a list has.
#[derive(Drop)]
pub struct MemoryLink {
    unread: Unread,
    page: Page,
    calls: CallList,
    read_faults: u64,
    write_faults: u64,
}

impl Model for MemoryLink {
    ghost use Rattle.ipam_io.specs.Fakes.{MemoryLinkValue};

    ghost Value = { MemoryLinkValue };

    ghost view = { λ link. record {
      left = link.unread;
      written = link.page.written.items;
      room = link.page.room;
      read_faults = link.read_faults;
      write_faults = link.write_faults;
      calls = link.calls.calls;
      failing = link.calls.listed.items;
    } };
}

impl MemoryLink {
    /// A link that gives these bytes, with room for so many that are written, which it reserves
    /// here; it takes no memory later. Of its reads and writes, counted together from 1, those
    /// fail that are in `failing`.
    pub fn new(
        alloc: Global,
        bytes: Vec<u8>,
        room: usize,
        failing: Vec<u64>,
    ) -> Result<MemoryLink, AllocError>
        ensures { IfOk result (λ link. link ≡ record {
          left = bytes.items;
          written = [];
          room = room;
          read_faults = 0;
          write_faults = 0;
          calls = 0;
          failing = failing.items;
        }) }
    {
        Ok(MemoryLink {
            unread: Unread::new(bytes),
            page: Page::new(alloc, room)?,
            calls: CallList::new(failing),
            read_faults: 0,
            write_faults: 0,
        })
    }

    /// The bytes written so far.
    pub fn written(&self) -> &[u8]
        ensures { result.now ≡ self.now.written }
    {
        self.page.written.as_slice()
    }
}

impl Source for MemoryLink {
    ghost use Rattle.std.specs.Prelude.{Some};

    ghost left = { λ link. Some link.left };

    ghost read_faults = { λ link. link.read_faults };

    ghost read_rest = { λ link. (Some link.written, link.write_faults) };

    /// As many bytes as there are or as fit, unless this call is one that is to fail.
    fn read(&mut self, into: &mut [u8]) -> Result<usize, Failed>
        ensures fails { IsErr result ↔ IsTrue (is_next_listed self.old.failing self.old.calls) }
        ensures count { IfOk result (λ n. n ≡ min (length into.old) (length self.old.left)) }
        ensures filled { IfOk result (λ n. into.new ≡ take n self.old.left ++ drop n into.old) }
        ensures not_filled { OnErr result (into.new ≡ into.old) }

        ensures after { IfOk result (λ n. self.new
            ≡ record self.old { left = drop n self.old.left; calls = next_count self.old.calls }) }
        ensures after_fault { OnErr result (self.new
            ≡ record self.old {
              read_faults = next_count self.old.read_faults;
              calls = next_count self.old.calls;
            }) }
        ensures never_falls { self.old.read_faults ≤ self.new.read_faults }
    {
        if self.calls.next_is_listed() {
            self.read_faults = self.read_faults.saturating_add(1);
            return Err(Failed);
        }
        Ok(self.unread.take_into(into))
    }
}

impl Sink for MemoryLink {
    ghost use Rattle.std.specs.Prelude.{Some};
    ghost use Rattle.ipam_io.specs.Fakes.{accepted_part};

    ghost written = { λ link. Some link.written };

    ghost write_faults = { λ link. link.write_faults };

    ghost write_rest = { λ link. (Some link.left, link.read_faults) };

    /// A call that is to fail writes nothing, and one past the room what still fits.
    fn write(&mut self, piece: &[u8]) -> Result<(), Failed>
        ensures fails { IsErr result ↔ (IsTrue (is_next_listed self.old.failing self.old.calls)
            ⊎ (self.old.room < length self.old.written + length piece.now)) }

        ensures after { OnOk result (self.new
            ≡ record self.old {
              written = self.old.written ++ piece.now;
              calls = next_count self.old.calls;
            }) }
        ensures after_fault { OnErr result (self.new
            ≡ record self.old {
              written = self.old.written
                  ++ accepted_part (is_next_listed self.old.failing self.old.calls)
                  (self.old.room - length self.old.written) piece.now;
              write_faults = next_count self.old.write_faults;
              calls = next_count self.old.calls;
            }) }
        ensures never_falls { self.old.write_faults ≤ self.new.write_faults }
    {
        if self.calls.next_is_listed() || self.page.append(piece).is_err() {
            self.write_faults = self.write_faults.saturating_add(1);
            return Err(Failed);
        }
        Ok(())
    }
}

impl Link for MemoryLink {
    ghost use Rattle.std.specs.Prelude.{refl};

    ghost read_leaves_sink = { λ _. refl };

    ghost write_leaves_source = { λ _. refl };
}
