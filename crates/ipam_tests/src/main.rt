//! The tests of what no program of this repository can be asked. They are one program, since a program that links
//! most of the product takes a compiler minutes. Standard input has a section for each kind of tests. A section begins
//! with a line that has its name, as `== leaf`; no case has a line that begins so. Standard output has the same
//! sections, and in each what the tests answer.
//!
//! `leaf` and `lock`: a case is a line, with a kind and a question, as `times|0 5000` and `threads|15 200`; the output
//! has the answer after them. In a line of `leaf` `␤` stands for a line feed.
//! - `leaf`: the system's clock where it is set back or can't be read, lines of a source after a read that failed, a
//!   connection over TCP, the error of a call that lost too many races, a result without addresses, members of JSON
//!   values that are read by their paths, a store against a plain one, and calls of the libraries that the program does
//!   not make.
//! - `lock`: a book of notes under a turn lock, used by one thread, by two and by sixteen.
//!
//! `command`, `shared` and `daemon`: a case has several lines, and a blank line stands between two. Those of `command`
//! and `daemon` are scenarios, each with the lines that are wanted of its steps; the output has each title and how many
//! lines these were, or the lines that came where they are others. Of a case of `shared` the output has what came of
//! it, and standard error how long it took.
//! - `command`: commands over rows in memory, scripts that are played, audits, the client's calls of a daemon whose
//!   reply is in memory, and the freeing of one assignment.
//! - `shared` and `daemon` are those of `ipam_daemon_tests`.
#![tactic(auto)]

mod answers;
mod audits;
mod book;
mod calls;
mod client;
mod clocks;
mod command;
mod command_texts;
mod compared;
mod fields;
mod freed;
mod lines;
mod links;
mod lock_cases;
mod plain;
mod records;
mod steps;
mod texts;
mod writers;

use std::alloc::AllocError;
use std::io;
use std::sync::Wait;
use std::thread::Threads;
use std::time::Clock;

/// What the tests of this kind tell of a case, which they may play by several threads. `threads` is the runtime too:
/// what makes them.
fn told<R: Threads + Wait + Sync + Clock + Eprint>(
    threads: &R,
    rt: &HostRuntime,
    kind: &str,
    case: &str,
) -> io::Result<String> {
    let told = match kind {
        "leaf" => answers::answered(rt, case)?,
        "lock" => lock_cases::answered(threads, rt.alloc(), case)?,
        "command" => steps::report(threads, rt.alloc(), case)?,
        "shared" => ipam_daemon_tests::shared_told(threads, rt.alloc(), case)?,
        "daemon" => ipam_daemon_tests::report(threads, rt, case)?,
        _ => format!(in rt.alloc(); "no section is named {kind}")?,
    };
    Ok(told)
}

/// What stands between two cases of this kind.
fn between(kind: &str) -> &'static str {
    match kind {
        "command" | "shared" | "daemon" => "\n\n",
        _ => "\n",
    }
}

/// Writes the section's first line, and what the tests of its kind tell of each case.
fn answer_section<R: Threads + Wait + Sync + Clock + Eprint>(
    threads: &R,
    rt: &HostRuntime,
    section: &str,
) -> io::Result<()> {
    let (name, cases) = section.split_once('\n').unwrap_or((section, ""));
    println!(rt; "== {name}")?;
    let cases = cases.strip_suffix('\n').unwrap_or(cases);
    for case in cases.split(between(name)) {
        let told = told(threads, rt, name, case)?;
        println!(rt; "{told}")?;
    }
    Ok(())
}

fn main(rt: HostRuntime) -> io::Result<()> {
    let text = io::read_to_string(rt.alloc(), rt.reader())?;
    let text = text.strip_prefix("== ").unwrap_or(text.as_str());
    for section in text.split("\n== ") {
        answer_section(&rt, &rt, section)?;
    }
    Ok(())
}
