//! The last line of a daemon on standard error.
use crate::channel::channel;
use crate::crew::start;
use crate::handing::{Attends, Hands};
use crate::host::Host;
use ipam_text::Text;
use log::Log;
use std::alloc::{AllocError, Global};
use std::sync::atomic::{AtomicU64, Ordering};
use std::sync::{Arc, Wait};
use std::thread;
use std::time::{Clock, Duration};

/// How many milliseconds pass between two looks whether the line was written.
const LOOK_MILLIS: u64 = 5;

/// How many looks are made: for a second.
const MOST_LOOKS: u32 = 200;

/// Who writes a line on standard error.
#[derive(Drop)]
struct LastLine<R> {
    rt: R,
    // 0 until it is written
    written: Arc<AtomicU64, Global>,
    lines: u64,
}

impl<R: Eprint> Attends<Text> for LastLine<R> {
    ghost use Rattle.std.specs.Prelude.{◌≡◌};
    ghost use Rattle.ipam_io.specs.Counts.{next_count};

    ghost attended = { λ last. last.lines };

    ghost serves = { λ before _ after. after.lines ≡ next_count before.lines };

    /// Writes the line, once standard error takes it.
    fn attend<W: Wait + Log + Clock>(&mut self, _rt: &W, line: Text) {
        self.lines = self.lines.saturating_add(1);
        let _ = eprintln!(self.rt; "{}", line.as_str());
        self.written.store(1, Ordering::SeqCst);
    }
}

/// Has the line written on standard error by a thread of its own, and waits for that for a second at most: a daemon ends
/// also where standard error takes no more. Where the system makes no thread, the line is written here.
pub fn tell_in_time<R: Host>(rt: R, alloc: Global, line: Text) -> Result<(), AllocError> {
    let written = Arc::new(alloc, AtomicU64::new(0))?;
    let last = LastLine {
        rt,
        written: Arc::try_clone(&written)?,
        lines: 0,
    };
    let (mut to, from) = channel(alloc, 1)?;
    let thread = start(rt, from, last);
    match to.hand(&rt, line) {
        Ok(()) => wait_for(&rt, &written),
        Err(line) => {
            let _ = eprintln!(rt; "{}", line.as_str());
        }
    }
    drop(thread);
    Ok(())
}

/// Waits until it is written.
fn wait_for<R: Clock>(rt: &R, written: &AtomicU64) {
    for _ in 0..MOST_LOOKS {
        if written.load(Ordering::SeqCst) != 0 {
            return;
        }
        thread::sleep(rt, Duration::from_millis(LOOK_MILLIS));
    }
}
