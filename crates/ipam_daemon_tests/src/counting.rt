//! A patience that counts how often it is asked.
use ipam_serve::{Patience, Queue, Queued};
use std::alloc::{AllocError, Global};
use std::sync::{Arc, Wait};

/// The patience of a daemon's session. It counts the waits, keeps after how many losses the last one came, and
/// counts how often it was entered, left and asked before a settling.
#[derive(Drop)]
pub(crate) struct Counting {
    queued: Queued,
    waits: u32,
    losses: u32,
    entered: u32,
    left: u32,
    settlings: u32,
}

impl Counting {
    /// The patience of a session in this slot, whose requests enter this queue.
    pub(crate) fn new(queue: Arc<Queue, Global>, slot: u8) -> Counting {
        Counting {
            queued: Queued::new(queue, slot),
            waits: 0,
            losses: 0,
            entered: 0,
            left: 0,
            settlings: 0,
        }
    }

    /// A line of what it was asked.
    pub(crate) fn told(&self, alloc: Global) -> Result<String, AllocError> {
        let (waits, losses, settlings) = (self.waits, self.losses, self.settlings);
        let (entered, left) = (self.entered, self.left);
        format!(in alloc;
            "entered {entered}, waits {waits}, losses {losses}, left {left}, settlings {settlings}\n"
        )
    }
}

impl Patience for Counting {
    fn enter<R: Wait>(&mut self, rt: &R) {
        self.entered = self.entered.wrapping_add(1);
        self.queued.enter(rt);
    }

    fn wait<R: Wait>(&mut self, rt: &R, losses: u32) {
        self.waits = self.waits.wrapping_add(1);
        self.losses = losses;
        self.queued.wait(rt, losses);
    }

    fn leave(&mut self) {
        self.left = self.left.wrapping_add(1);
        self.queued.leave();
    }

    fn before_settling<R: Wait>(&mut self, rt: &R) {
        self.settlings = self.settlings.wrapping_add(1);
        self.queued.before_settling(rt);
    }
}
