//! Which case a scenario is.
use crate::{accepting, ends, queues, sessions, silent, sleeps, two};
use std::alloc::AllocError;
use std::sync::Wait;

/// The title of the scenario and how many lines came of it, or these where they are not those that are
/// wanted.
pub fn report<R: Wait>(wait: &R, rt: &HostRuntime, scenario: &str) -> Result<String, AllocError> {
    let (title, steps) = scenario.split_once('\n').unwrap_or((scenario, ""));
    let found = told(wait, rt, title, steps)?;
    ipam_io::report(rt.alloc(), scenario, found.as_str())
}

/// What comes of the steps. The title begins with the kind of the scenario, as in `two sessions:`.
fn told<R: Wait>(
    wait: &R,
    rt: &HostRuntime,
    title: &str,
    steps: &str,
) -> Result<String, AllocError> {
    let alloc = rt.alloc();
    let (kind, _) = title.split_once(':').unwrap_or((title, ""));
    match kind {
        "session" => sessions::told(wait, alloc, steps),
        "two sessions" => two::told(wait, alloc, steps),
        "queue" => queues::told(wait, alloc, steps),
        "sleeps" => sleeps::told(wait, rt, steps),
        "accepting" => accepting::told(wait, alloc, steps),
        "logged" => ends::told_logged(alloc),
        "silent" => silent::told(rt),
        "left" => silent::told_left(rt),
        _ => String::from_str(alloc, "no such kind\n"),
    }
}
