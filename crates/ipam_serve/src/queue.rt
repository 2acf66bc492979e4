//! The queue.
ghost use Rattle.std.specs.Prelude.{◌<◌, ◌≤◌};

use std::array;
use std::sync::Wait;
use std::sync::atomic::{AtomicU64, Ordering};
use std::time::Duration;

/// How many bells there are. So many may wait, each with a bell of its own.
const BELLS: usize = 64;

/// How many milliseconds one waits for the place before, until it is given up. Where requests often take
/// longer, many go on at once and lose races to each other, which makes them longer still.
const WAIT_MILLIS: u64 = 100;

/// How often one waits at most.
pub const MOST_WAITS: u32 = 16;

/// A queue. Who has a place in it goes on once the one before has left it, or has kept others waiting for too
/// long: then it is waited for no more.
#[derive(Drop)]
pub struct Queue {
    // the number of the next place
    next: AtomicU64,
    // the last number that may go on
    turn: AtomicU64,
    // how many wait until others have left
    outside: AtomicU64,
    // what is rung for a number: the one of the number modulo their count
    bells: [AtomicU64; BELLS],
}

/// A place in a queue.
#[derive(Clone, Copy)]
pub struct Place {
    number: u64,
    /// How often its owner waited.
    pub waits: u32,
}

/// The sessions that had a place in a queue at some time.
#[derive(Clone, Copy)]
pub struct Others {
    // the number of the place behind theirs
    behind: u64,
}

impl Queue {
    /// A queue in which nobody has a place.
    pub fn new() -> Queue {
        Queue {
            next: AtomicU64::new(0),
            turn: AtomicU64::new(0),
            outside: AtomicU64::new(0),
            bells: array::from_fn(|_| AtomicU64::new(0)),
        }
    }

    /// Takes the last place, and waits until it may go on.
    pub fn enter<R: Wait>(&self, rt: &R) -> Place
        ensures { result.waits ≤ MOST_WAITS }
    {
        let number = self.next.fetch_add(1, Ordering::SeqCst);
        let waits = self.await_turn(rt, number);
        Place { number, waits }
    }

    /// Waits until this number may go on, and tells how often it waited.
    fn await_turn<R: Wait>(&self, rt: &R, number: u64) -> u32
        ensures { result ≤ MOST_WAITS }
    {
        for waits in 0..MOST_WAITS {
            if self.may_go_on(rt, number) {
                return waits;
            }
        }
        MOST_WAITS
    }

    /// Whether this number may go on. Where it may not, waits once, and gives up the number before where nothing
    /// has moved by then. The bell is read before the look at the turn, so a ring that comes after the look
    /// changes it, and the sleep ends or doesn't begin.
    fn may_go_on<R: Wait>(&self, rt: &R, number: u64) -> bool {
        let bell = &self.bells[bell_of(number)];
        let rung = bell.load(Ordering::SeqCst);
        let turn = self.turn.load(Ordering::SeqCst);
        if number <= turn {
            return true;
        }
        bell.park_timeout(
            rt,
            (rung % (1 << 32)) as u32,
            Duration::from_millis(WAIT_MILLIS),
        );
        let next = turn.saturating_add(1);
        let moved = self
            .turn
            .compare_exchange(turn, next, Ordering::SeqCst, Ordering::SeqCst);
        if moved.is_ok() {
            self.ring(next);
        }
        false
    }

    /// Leaves the place, and lets the next one go on. Returns those who have a place by then.
    pub fn leave(&self, place: Place) -> Others {
        let next = place.number.saturating_add(1);
        if self.turn.fetch_max(next, Ordering::SeqCst) < next {
            self.ring(next);
        }
        Others {
            behind: self.next.load(Ordering::SeqCst),
        }
    }

    /// Waits, with no place in the queue, until these have left it, and tells how often it waited. Who keeps
    /// others waiting for too long is given up here too.
    pub fn outwait<R: Wait>(&self, rt: &R, others: Others) -> u32
        ensures { result ≤ MOST_WAITS }
    {
        if others.behind <= self.turn.load(Ordering::SeqCst) {
            return 0;
        }
        self.outside.fetch_add(1, Ordering::SeqCst);
        let waits = self.await_turn(rt, others.behind);
        self.outside.fetch_sub(1, Ordering::SeqCst);
        waits
    }

    /// Wakes all who wait for this number, be it their own or the one behind others. Who takes it after the
    /// look finds that it may go on, and so does who waits outside after it.
    fn ring(&self, number: u64) {
        if number < self.next.load(Ordering::SeqCst) || 0 < self.outside.load(Ordering::SeqCst) {
            let bell = &self.bells[bell_of(number)];
            bell.fetch_add(1, Ordering::SeqCst);
            bell.wake_all();
        }
    }
}

/// The bell of a number.
fn bell_of(number: u64) -> usize
    ensures { result < BELLS }
{
    (number % BELLS as u64) as usize
}
