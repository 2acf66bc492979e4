//! How long one side of a session waits for the other.
use std::time::Duration;

/// How long a link waits before it fails.
#[derive(Clone, Copy)]
pub struct Limits {
    /// For the whole first line. The daemon waits for so long for it to begin, and then for the whole of it.
    pub first: Duration,
    /// For the rest of a line that has begun.
    pub line: Duration,
    /// For the next line to begin.
    pub between: Duration,
    /// For the peer to take a whole write.
    pub write: Duration,
}

/// How many seconds the daemon waits for the first line of a session to begin, and then for the whole of it.
const FIRST_LINE_SECONDS: u64 = 10;

/// How many seconds either side waits for the rest of a line that has begun.
const LINE_SECONDS: u64 = 10;

/// How many seconds the daemon waits for the next line to begin. A collection may wait longer than
/// its grace for the line that feeds it.
const BETWEEN_SECONDS: u64 = 600;

/// How many seconds either side waits for the other to take a whole write.
const WRITE_SECONDS: u64 = 10;

/// How many seconds a call waits for the whole reply, and for a host to take its connection.
const REPLY_SECONDS: u64 = 30;

impl Limits {
    /// The limits of the daemon at a session.
    pub fn of_session() -> Limits {
        Limits {
            first: Duration::from_secs(FIRST_LINE_SECONDS),
            line: Duration::from_secs(LINE_SECONDS),
            between: Duration::from_secs(BETWEEN_SECONDS),
            write: Duration::from_secs(WRITE_SECONDS),
        }
    }

    /// The limits of a call, whose one reply is the first line that it reads.
    pub fn of_call() -> Limits {
        Limits {
            first: Duration::from_secs(REPLY_SECONDS),
            line: Duration::from_secs(LINE_SECONDS),
            between: Duration::from_secs(REPLY_SECONDS),
            write: Duration::from_secs(WRITE_SECONDS),
        }
    }
}
