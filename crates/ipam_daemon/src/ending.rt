//! What is logged.
use crate::notes::Note;
use ipam_serve::SessionEnd;
use log::{Log, info, warn};

/// Logs one record of a session that ended so, which is dropped where it can't be written.
pub fn log_end<R: Log>(rt: &R, end: SessionEnd) {
    match end {
        SessionEnd::Closed => info!(rt; target: "ipam", "session closed"),
        SessionEnd::Cut
        | SessionEnd::LineTooLong
        | SessionEnd::ReadFault
        | SessionEnd::WriteFault
        | SessionEnd::Halted
        | SessionEnd::Worn
        | SessionEnd::Memory
        | SessionEnd::KeeperFault => warn!(rt; target: "ipam", "session ended early"),
    }
}

/// Logs one record of the note.
pub(crate) fn log_note<R: Log>(rt: &R, note: Note) {
    match note {
        Note::Ended(end) => log_end(rt, end),
        Note::Refused => {
            warn!(rt; target: "ipam", "connection closed: it did not begin as a session does");
        }
        Note::Passing(cause) => {
            warn!(rt; target: "ipam", "no connection was accepted for now: {cause}");
        }
        Note::Workers(count, asked) => {
            warn!(rt; target: "ipam", "{count} of {asked} workers: the system makes no more threads");
        }
    }
}

/// Logs that so many records were dropped, since standard error took no more.
pub(crate) fn log_dropped<R: Log>(rt: &R, count: u64) {
    warn!(rt; target: "ipam", "{count} lines were dropped, since standard error took no more");
}
