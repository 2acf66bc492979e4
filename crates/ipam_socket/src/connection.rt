//! A connection of the daemon, which may be kept between two lines of its session.
use crate::stream::{Connected, Stream};
use std::alloc::Global;
use std::sync::Arc;
use std::sync::atomic::{AtomicBool, AtomicU64, Ordering};

/// A connection, with what the link of its session and whoever keeps it between two lines look at.
#[derive(Drop)]
pub struct Connection {
    stream: Stream,
    // how many connections of the listener wait for a worker
    waiting: Arc<AtomicU64, Global>,
    is_waiting: AtomicBool,
    has_begun: AtomicBool,
    is_idle: AtomicBool,
    is_left: AtomicBool,
}

impl Connection {
    /// A connection over which no session began. The count is of all that wait for a worker, and common to them.
    pub fn new(stream: Stream, waiting: Arc<AtomicU64, Global>) -> Connection {
        Connection {
            stream,
            waiting,
            is_waiting: AtomicBool::new(false),
            has_begun: AtomicBool::new(false),
            is_idle: AtomicBool::new(false),
            is_left: AtomicBool::new(false),
        }
    }

    /// From now on it waits for a worker.
    pub(crate) fn await_worker(&self) {
        if !self.is_waiting.swap(true, Ordering::SeqCst) {
            self.waiting.fetch_add(1, Ordering::SeqCst);
        }
    }

    /// A worker has it: it waits no more, and its session isn't left. Whether one was left before.
    pub(crate) fn begin(&self) -> bool {
        if self.is_waiting.swap(false, Ordering::SeqCst) {
            self.waiting.fetch_sub(1, Ordering::SeqCst);
        }
        self.is_idle.store(false, Ordering::SeqCst);
        self.is_left.store(false, Ordering::SeqCst);
        self.has_begun()
    }

    /// Whether a session over it was left, now or before.
    pub fn has_begun(&self) -> bool {
        self.has_begun.load(Ordering::SeqCst)
    }

    /// Whether others wait for a worker.
    pub fn others_wait(&self) -> bool {
        self.waiting.load(Ordering::SeqCst) > 0
    }

    /// From now on its session may be left between two lines, or may not. A session may be left where the next line is
    /// answered alike by a new one.
    pub fn set_idle(&self, is_idle: bool) {
        self.is_idle.store(is_idle, Ordering::SeqCst);
    }

    /// Whether its session may be left between two lines.
    pub(crate) fn is_idle(&self) -> bool {
        self.is_idle.load(Ordering::SeqCst)
    }

    /// Its session is left: it is to be kept, and a new session answers its next line.
    pub(crate) fn leave(&self) {
        self.has_begun.store(true, Ordering::SeqCst);
        self.is_left.store(true, Ordering::SeqCst);
    }

    /// Whether its session was left between two lines, and did not end.
    pub fn is_left(&self) -> bool {
        self.is_left.load(Ordering::SeqCst)
    }
}

impl Connected for Connection {
    fn stream(&self) -> &Stream {
        &self.stream
    }

    fn kept(&self) -> Option<&Connection> {
        Some(self)
    }
}

impl Connected for &Connection {
    fn stream(&self) -> &Stream {
        &self.stream
    }

    fn kept(&self) -> Option<&Connection> {
        Some(self)
    }
}
