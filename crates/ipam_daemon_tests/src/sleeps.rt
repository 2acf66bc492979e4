//! Sleeps after lost races.
use crate::told::Told;
use ipam_serve::{Patience, Queue, Queued};
use std::alloc::AllocError;
use std::io;
use std::sync::{Arc, Wait};
use std::time::{Duration, Instant};

/// Whether sleeps are long enough. A line `lost N LEAST` is a sleep after that many races were lost for one line of a
/// session, which has to take so many microseconds at least.
pub(crate) fn told<R: Wait>(wait: &R, rt: &HostRuntime, steps: &str) -> Result<String, AllocError> {
    let mut patience = Queued::new(Arc::new(rt.alloc(), Queue::new())?, 0);
    let mut told = Told::new(rt.alloc());
    for line in steps.lines() {
        if let Some((losses, least)) = sleep_of(line) {
            let slept = sleep(wait, rt, &mut patience, losses).unwrap_or(Duration::ZERO);
            told.push_line(if slept < least { "too short" } else { "long" });
        }
    }
    told.into_text()
}

/// After how many lost races the line asks for a sleep, and how long it takes at least.
fn sleep_of(line: &str) -> Option<(u32, Duration)> {
    let (losses, least) = line.strip_prefix("lost ")?.split_once(' ')?;
    Some((
        losses.parse().ok()?,
        Duration::from_micros(least.parse().ok()?),
    ))
}

/// How long a sleep takes.
fn sleep<R: Wait>(
    wait: &R,
    rt: &HostRuntime,
    patience: &mut Queued,
    losses: u32,
) -> io::Result<Duration> {
    let start = Instant::now(rt)?;
    patience.wait(wait, losses);
    start.elapsed(rt)
}
