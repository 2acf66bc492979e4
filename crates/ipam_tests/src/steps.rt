//! A scenario is played: steps over a keeper in memory, and what comes of them.
use crate::command::push_run;
use crate::command_texts::{play_of, push_line};
use crate::{audits, client, freed};
use ipam_keeper::{Keeper, MemoryKeeper};
use std::alloc::{AllocError, Global};
use std::thread::Threads;

/// Plays the scenario, and answers its title and how many lines came of it, or these where they are not those that
/// are wanted.
pub fn report<R: Threads + Sync>(
    threads: &R,
    alloc: Global,
    scenario: &str,
) -> Result<String, AllocError> {
    let found = played(threads, alloc, scenario)?;
    ipam_io::report(alloc, scenario, found.as_str())
}

/// What comes of the scenario. Below its title it has steps, or the line `script`, and the script.
fn played<R: Threads + Sync>(
    threads: &R,
    alloc: Global,
    scenario: &str,
) -> Result<String, AllocError> {
    let (_, lines) = scenario.split_once('\n').unwrap_or((scenario, ""));
    let mut keeper = MemoryKeeper::new(Vec::new(alloc), Vec::new(alloc));
    let mut told = String::new(alloc);
    if let Some(script) = lines.strip_prefix("script\n") {
        let line = play_of(alloc, script)?;
        push_run(alloc, &mut keeper, line.as_str(), &mut told)?;
        return Ok(told);
    }
    for line in lines.lines() {
        step(threads, alloc, &mut keeper, line, &mut told)?;
    }
    Ok(told)
}

/// Plays a line, and appends what comes of it. `row` puts a row, `do` runs a command over the rows, and `audit` the
/// words of an audit. `call` is the client's call, and `unlinked` one over a link whose first call fails. `free` is
/// the freeing of one assignment.
fn step<R: Threads + Sync>(
    threads: &R,
    alloc: Global,
    keeper: &mut MemoryKeeper,
    line: &str,
    told: &mut String,
) -> Result<(), AllocError> {
    let (word, rest) = line.split_once(' ').unwrap_or((line, ""));
    match word {
        "row" => put_row(keeper, rest),
        "do" => push_run(alloc, keeper, rest, told),
        "audit" => audits::push_report(threads, alloc, keeper, rest, told),
        "call" => client::push_call(alloc, 0, rest, told),
        "unlinked" => client::push_call(alloc, 1, rest, told),
        "free" => push_line(told, freed::free_text(alloc, rest)?.as_str()),
        _ => Ok(()),
    }
}

/// Puts the row of a line `REVISION KEY BODY`.
fn put_row(keeper: &mut MemoryKeeper, line: &str) -> Result<(), AllocError> {
    let (revision, rest) = line.split_once(' ').unwrap_or((line, ""));
    let (key, body) = rest.split_once(' ').unwrap_or((rest, ""));
    match keeper.put(key, revision.parse().unwrap_or(0), body) {
        Ok(()) => Ok(()),
        Err(_) => Err(AllocError),
    }
}
