//! Tries to accept a connection, of which some fail, by a clock that makes no pause.
use crate::told::Told;
use ipam_daemon::{
    Attends, Bell, Came, Hands, Listens, Note, Passing, TakesNow, Tells, Watches, hand_over_all,
};
use ipam_socket::Failed;
use log::kv::Source;
use log::span::Spans;
use log::{Log, Metadata, Record};
use std::alloc::{AllocError, Global};
use std::cell::RefCell;
use std::fmt::Display;
use std::io;
use std::sync::Wait;
use std::time::{Clock, Duration};

/// How many connections are left, and wait to be kept.
const LEFT: u64 = 3;

/// The text about tries to accept, each of which is a letter: `c` one at which a connection comes, `n` one at which
/// nobody does, `w` one that is woken, and `p` one that fails for a cause that passes. The try after the last one fails
/// for good.
pub(crate) fn told<R: Wait>(rt: &R, alloc: Global, steps: &str) -> Result<String, AllocError> {
    let rt = Paused {
        wait: rt,
        alloc,
        pauses: RefCell::new(Told::new(alloc)),
    };
    let mut tries = Tries {
        letters: steps.lines().next().unwrap_or("").as_bytes(),
        accepted: 0,
        kept: 0,
        faults: 0,
    };
    let mut left = Left {
        waiting: LEFT,
        taken: 0,
    };
    let (mut to, mut own) = (Counts(0), Counts(0));
    let (mut watch, mut notes) = (Counts(0), Counts(0));
    let ended = hand_over_all(
        &rt, &mut tries, &mut to, &mut left, &mut own, &mut watch, &mut notes,
    );
    let (handed, told, kept, faults) = (to.0, notes.0, tries.kept, tries.faults);
    let is_over = ended.is_err();
    let Paused { pauses, .. } = rt;
    let pauses = pauses.into_inner().into_text()?;
    format!(in alloc;
        "{handed} handed over, {kept} kept, told {told} times, {faults} faults, over: {is_over}, pauses{pauses}\n"
    )
}

/// A runtime whose pauses are written down in place of being made.
#[derive(Drop)]
struct Paused<'a, R> {
    wait: &'a R,
    alloc: Global,
    pauses: RefCell<Told>,
}

impl<R: Wait> Wait for Paused<'_, R> {}

impl<R> Clock for Paused<'_, R> {
    fn monotonic(&self) -> io::Result<Duration> {
        Ok(Duration::ZERO)
    }

    fn since_1970(&self) -> io::Result<Duration> {
        Ok(Duration::ZERO)
    }

    fn sleep(&self, pause: Duration) {
        if let Ok(mut pauses) = self.pauses.try_borrow_mut() {
            pauses.push(format!(in self.alloc; " {}", pause.as_millis()));
        }
    }
}

impl<R> Log for Paused<'_, R> {
    fn enabled(&self, _metadata: &Metadata<'_>) -> bool {
        false
    }

    fn log<D: Display, K: Source, S: Spans>(&self, _record: &Record<'_, D, K, S>) {}

    fn flush(&self) {}

    fn target(&self) -> &str {
        ""
    }
}

/// The letters of the tries that are still to come.
#[derive(Drop)]
struct Tries<'a> {
    letters: &'a [u8],
    accepted: u64,
    kept: u64,
    faults: u64,
}

impl Listens<u8> for Tries<'_> {
    ghost accepted = { λ tries. tries.accepted };

    ghost kept = { λ tries. tries.kept };

    ghost faults = { λ tries. tries.faults };

    fn open(&mut self) -> Result<(), Failed> {
        Ok(())
    }

    fn bell(&self) -> Result<Bell, AllocError> {
        Ok(Bell::silent())
    }

    fn accept(&mut self) -> Result<Came<u8>, Failed> {
        let Some((letter, rest)) = self.letters.split_first() else {
            self.faults = self.faults.saturating_add(1);
            return Err(Failed);
        };
        self.letters = rest;
        match *letter {
            b'c' => {
                self.accepted = self.accepted.saturating_add(1);
                Ok(Came::One(b'c'))
            }
            b'w' => Ok(Came::Woken),
            b'p' => Ok(Came::Passing(Passing::ProcessFiles)),
            _ => Ok(Came::Nobody),
        }
    }

    fn keep(&mut self, _connection: u8) {
        self.kept = self.kept.saturating_add(1);
    }

    fn close(&mut self) {}
}

/// Connections that were left, and how many of them were taken.
#[derive(Drop)]
struct Left {
    waiting: u64,
    taken: u64,
}

impl TakesNow<u8> for Left {
    ghost taken = { λ left. left.taken };

    fn take_now<R: Wait>(&mut self, _rt: &R) -> Option<u8> {
        if self.waiting == 0 {
            return None;
        }
        self.waiting = self.waiting.saturating_sub(1);
        self.taken = self.taken.saturating_add(1);
        Some(b'l')
    }
}

/// A count of connections that were handed over or served, of looks, or of notes.
#[derive(Drop)]
struct Counts(u64);

impl Hands<u8> for Counts {
    ghost handed = { λ counts. counts.0 };

    fn hand<R: Wait>(&mut self, _rt: &R, _connection: u8) -> Result<(), u8> {
        self.0 = self.0.saturating_add(1);
        Ok(())
    }
}

impl Attends<u8> for Counts {
    ghost use Rattle.std.specs.Prelude.{◌≡◌};
    ghost use Rattle.ipam_io.specs.Counts.{next_count};

    ghost attended = { λ counts. counts.0 };

    ghost serves = { λ before _ after. after.0 ≡ next_count before.0 };

    fn attend<R: Wait + Log + Clock>(&mut self, _rt: &R, _connection: u8) {
        self.0 = self.0.saturating_add(1);
    }
}

impl Watches for Counts {
    ghost found = { λ counts. counts.0 };

    fn is_raised(&mut self) -> bool {
        false
    }
}

impl Tells for Counts {
    fn tell<R: Wait + Log>(&mut self, _rt: &R, _note: Note) {
        self.0 = self.0.saturating_add(1);
    }
}
