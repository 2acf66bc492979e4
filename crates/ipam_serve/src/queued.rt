//! The patience of sessions that share a queue.
use crate::patience::Patience;
use crate::queue::{Others, Place, Queue};
use crate::sleeps::Sleeps;
use std::alloc::Global;
use std::sync::atomic::AtomicU64;
use std::sync::{Arc, Wait};

/// Requests enter one queue, and leave it with their answer. So they seldom meet at a block, and what one
/// reads and writes stays near one processor. Where a race is lost all the same, it sleeps.
#[derive(Drop)]
pub struct Queued {
    queue: Arc<Queue, Global>,
    place: Option<Place>,
    // who had a place when the last one was left, until they were waited for
    others: Option<Others>,
    sleeps: Sleeps,
}

impl Queued {
    /// The patience of a session in this slot, with no place in the queue.
    pub fn new(queue: Arc<Queue, Global>, slot: u8) -> Queued {
        Queued {
            queue,
            place: None,
            others: None,
            sleeps: Sleeps {
                slot,
                doublings: 0,
                silent: AtomicU64::new(0),
            },
        }
    }
}

impl Patience for Queued {
    fn enter<R: Wait>(&mut self, rt: &R) {
        self.others = None;
        self.place = Some(self.queue.enter(rt));
    }

    fn wait<R: Wait>(&mut self, rt: &R, losses: u32) {
        self.sleeps.sleep(rt, losses);
    }

    fn leave(&mut self) {
        if let Some(place) = self.place.take() {
            self.others = Some(self.queue.leave(place));
        }
    }

    fn before_settling<R: Wait>(&mut self, rt: &R) {
        if let Some(others) = self.others.take() {
            self.queue.outwait(rt, others);
        }
    }
}
