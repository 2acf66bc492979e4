// Which case a text is.

use crate::told::Told;
use crate::workers::Job;
use crate::{asks, keepers, pair, steps, threads};
use std::alloc::{AllocError, Global};
use std::io;
use std::sync::Wait;
use std::thread::Threads;
use std::time::{Clock, Instant};

/// What came of the case of this text.
pub fn shared_told<R: Threads + Wait + Sync + Clock + Eprint>(
    rt: &R,
    alloc: Global,
    case: &str,
) -> io::Result<String> {
    let start = Instant::now(rt)?;
    let told = told_of(rt, alloc, case)?;
    let nanoseconds = start.elapsed(rt)?.as_nanos();
    eprintln!(rt; "{nanoseconds} ns")?;
    Ok(told)
}

/// The first line has the name of the case and two numbers, or what fails, and steps may follow.
fn told_of<R: Threads + Wait + Sync>(
    rt: &R,
    alloc: Global,
    case: &str,
) -> Result<String, AllocError> {
    let (line, steps) = case.split_once('\n').unwrap_or((case, ""));
    let (name, words) = line.split_once(' ').unwrap_or((line, ""));
    let mut told = Told::new(alloc);
    match name {
        "grants" | "turns" => tell_threads(rt, alloc, name, words, &mut told),
        _ => tell_steps(rt, alloc, name, words, steps, &mut told),
    }
    told.into_text()
}

/// `OTHERS COUNT`: each of so many threads and one more asks for so many addresses, over a keeper whose writes fail now
/// and then, or takes so many turns.
fn tell_threads<R: Threads + Wait + Sync>(
    rt: &R,
    alloc: Global,
    name: &str,
    words: &str,
    told: &mut Told,
) {
    let (others, count) = words.split_once(' ').unwrap_or((words, ""));
    let count = count.parse().unwrap_or(0);
    let (pools, failing, job) = match name {
        "grants" => (keepers::LARGE, 20_000, Job::Grants(count)),
        _ => (keepers::MANY, 0, Job::Turns(count)),
    };
    match keepers::failing_now_and_then(alloc, pools, failing) {
        Ok(keeper) => threads::tell(rt, alloc, keeper, others.parse().unwrap_or(0), job, told),
        Err(_) => told.push(Err(AllocError)),
    }
}

/// Steps by a kept cluster after so many entries, by two passes, or of requests one after the other.
fn tell_steps<R: Wait>(
    rt: &R,
    alloc: Global,
    name: &str,
    words: &str,
    steps: &str,
    told: &mut Told,
) {
    let pools = match name {
        "kept" => keepers::MANY,
        "passes" => keepers::SMALL,
        _ => "",
    };
    let Ok(keeper) = keepers::failing_at(alloc, pools, words) else {
        told.push(Err(AllocError));
        return;
    };
    match name {
        "kept" => steps::tell(alloc, keeper, words.parse().unwrap_or(0), steps, told),
        "passes" => pair::tell(rt, alloc, keeper, steps, told),
        _ => asks::tell(alloc, keeper, steps, told),
    }
}
