//! What is logged at ends.
use crate::told::Told;
use ipam_daemon::{SessionEnd, log_end};
use log::sink::Memory;
use std::alloc::{AllocError, Global};

/// What is logged at each end of a session.
pub(crate) fn told_logged(alloc: Global) -> Result<String, AllocError> {
    let ends = [
        SessionEnd::Closed,
        SessionEnd::Cut,
        SessionEnd::LineTooLong,
        SessionEnd::ReadFault,
        SessionEnd::WriteFault,
        SessionEnd::Halted,
        SessionEnd::Worn,
        SessionEnd::Memory,
        SessionEnd::KeeperFault,
    ];
    let mut told = Told::new(alloc);
    for end in ends {
        tell_logged(alloc, end, &mut told);
    }
    told.into_text()
}

fn tell_logged(alloc: Global, end: SessionEnd, told: &mut Told) {
    let log = Memory::new(alloc);
    log_end(&log, end);
    for line in log.into_lines().as_slice() {
        told.push(format!(in alloc; "{end:?} {}\n", line.as_str()));
    }
}
