//! Lines on standard error about sessions and connections. A thread of its own writes them, so that nobody else waits
//! where standard error takes no more.
ghost use Rattle.std.specs.Prelude.{◌≡◌, IfOk};

use crate::channel::{HandingEnd, Offered, TakingEnd, channel};
use crate::ending::{log_dropped, log_note};
use crate::handing::Attends;
use ipam_serve::SessionEnd;
use ipam_socket::Passing;
use log::Log;
use std::alloc::{AllocError, Global};
use std::sync::atomic::{AtomicU64, Ordering};
use std::sync::{Arc, Wait};
use std::time::Clock;

/// How many notes may wait to be written. Further ones are dropped.
const MOST_NOTES: usize = 256;

/// What a line is about.
#[derive(Clone, Copy)]
pub enum Note {
    /// A session ended so.
    Ended(SessionEnd),
    /// A connection did not begin as a session does.
    Refused,
    /// No connection was accepted, for this cause.
    Passing(Passing),
    /// The system made threads for so many workers, of so many that were asked for.
    Workers(usize, u8),
}

/// Takes notes. Whether they are written is not promised.
pub trait Tells {
    /// Takes the note, and waits for nobody.
    fn tell<R: Wait + Log>(&mut self, rt: &R, note: Note);
}

/// Hands notes to the scribe, without waiting for it. A note that finds no room is dropped, and counted.
#[derive(Drop)]
pub(crate) struct Notes {
    to: HandingEnd<Note>,
    dropped: Arc<AtomicU64, Global>,
}

/// Who writes notes, one after the other, and before one how many were dropped.
#[derive(Drop)]
pub(crate) struct Scribe {
    dropped: Arc<AtomicU64, Global>,
    notes: u64,
}

impl Notes {
    /// The first part, the end from which its notes are taken, and who is to write them.
    pub(crate) fn new(alloc: Global) -> Result<(Notes, TakingEnd<Note>, Scribe), AllocError>
        ensures { IfOk result (λ made. made.2.notes ≡ 0) }
    {
        let (to, from) = channel(alloc, MOST_NOTES)?;
        let dropped = Arc::new(alloc, AtomicU64::new(0))?;
        let scribe = Scribe {
            dropped: Arc::try_clone(&dropped)?,
            notes: 0,
        };
        Ok((Notes { to, dropped }, from, scribe))
    }

    /// A further handle by which notes go to this scribe. Fails with `AllocError`.
    pub(crate) fn another(&self) -> Result<Notes, AllocError> {
        Ok(Notes {
            to: self.to.another()?,
            dropped: Arc::try_clone(&self.dropped)?,
        })
    }
}

impl Tells for Notes {
    /// Hands the note to the scribe. Where the system made no thread for one, it is written here.
    fn tell<R: Wait + Log>(&mut self, rt: &R, note: Note) {
        match self.to.offer(rt, note) {
            Offered::Handed => {}
            Offered::Full => {
                self.dropped.fetch_add(1, Ordering::SeqCst);
            }
            Offered::Nobody => log_note(rt, note),
        }
    }
}

impl Attends<Note> for Scribe {
    ghost use Rattle.ipam_io.specs.Counts.{next_count};

    ghost attended = { λ scribe. scribe.notes };

    ghost serves = { λ before _ after. after.notes ≡ next_count before.notes };

    /// Writes the note, once standard error takes it.
    fn attend<R: Wait + Log + Clock>(&mut self, rt: &R, note: Note) {
        self.notes = self.notes.saturating_add(1);
        let dropped = self.dropped.swap(0, Ordering::SeqCst);
        if dropped > 0 {
            log_dropped(rt, dropped);
        }
        log_note(rt, note);
    }
}
