//! The readings of clocks.
use ipam_io::{Clock, SystemClock};
use std::alloc::{AllocError, Global};
use std::cell::Cell;
use std::io;
use std::io::ErrorKind;
use std::time::Duration;

/// The numbers, which stand between spaces.
pub(crate) fn numbers(alloc: Global, text: &str) -> Result<Vec<u64>, AllocError> {
    let mut numbers = Vec::new(alloc);
    for word in text.split(' ') {
        if let Ok(number) = word.parse::<u64>() {
            numbers.push(number)?;
        }
    }
    Ok(numbers)
}

// A system's clock that has these times in order, and can't be read at the zeros among them.
#[derive(Drop)]
struct Told {
    milliseconds: Vec<u64>,
    asked: Cell<usize>,
}

impl std::rt::Clock for Told {
    fn monotonic(&self) -> io::Result<Duration> {
        Err(io::Error::from(ErrorKind::Unsupported))
    }

    fn since_1970(&self) -> io::Result<Duration> {
        let asked = self.asked.get();
        self.asked.set(asked.saturating_add(1));
        match self.milliseconds.get(asked).copied() {
            None | Some(0) => Err(io::Error::from(ErrorKind::Unsupported)),
            Some(time) => Ok(Duration::from_millis(time)),
        }
    }
}

/// Seven readings of a system whose clock has these milliseconds, and can't be read at the zeros
/// among them.
pub(crate) fn times_text(alloc: Global, text: &str) -> Result<String, AllocError> {
    let mut clock = SystemClock::new(Told {
        milliseconds: numbers(alloc, text)?,
        asked: Cell::new(0),
    });
    let mut out = String::new(alloc);
    for _ in 0..7 {
        let reading = format!(in alloc; "{} ", clock.now())?;
        out.push_str(reading.as_str())?;
    }
    Ok(out)
}

/// Whether the system's time is past the year 2020.
pub(crate) fn system_text(rt: &HostRuntime) -> Result<String, AllocError> {
    let is_past = SystemClock::new(rt).now() > 1_577_836_800;
    format!(in rt.alloc(); "{is_past}")
}
