// Which measurement is asked for.

use crate::work::{Work, timed};
use crate::{addresses, choices, store, texts, threads};
use std::io;
use std::sync::Wait;
use std::thread::Threads;

/// What is measured, and two numbers.
#[derive(Clone, Copy)]
struct Asked<'a> {
    name: &'a str,
    count: u32,
    other: u32,
}

/// Makes the measurement of each paragraph. `threads` is the runtime too: what makes them.
pub fn measure_all<R: Threads + Wait + Sync>(
    threads: &R,
    rt: &HostRuntime,
    text: &str,
) -> io::Result<()> {
    for part in text.trim_end().split("\n\n") {
        measure(threads, rt, part)?;
    }
    Ok(())
}

fn measure<R: Threads + Wait + Sync>(threads: &R, rt: &HostRuntime, part: &str) -> io::Result<()> {
    let (line, lines) = part.split_once('\n').unwrap_or((part, ""));
    let asked = parse(line);
    if asked.name == "turn-lock" {
        return threads::take_turns(threads, rt, asked.count, asked.other);
    }
    let lines: Vec<&str> = lines.lines().collect(rt.alloc())?;
    measure_lines(rt, asked, &lines)
}

fn parse(line: &str) -> Asked<'_> {
    let mut words = line.split(' ');
    Asked {
        name: words.next().unwrap_or(""),
        count: number(words.next()),
        other: number(words.next()),
    }
}

fn number(word: Option<&str>) -> u32 {
    word.unwrap_or("").parse().unwrap_or(0)
}

fn measure_lines(rt: &HostRuntime, asked: Asked<'_>, lines: &[&str]) -> io::Result<()> {
    match asked.name {
        "read-addresses" => timed(rt, Work::ReadAddresses(lines), asked.count),
        "print-addresses" => addresses::print(rt, lines, asked.count),
        _ => measure_rows(rt, asked, lines),
    }
}

fn measure_rows(rt: &HostRuntime, asked: Asked<'_>, rows: &[&str]) -> io::Result<()> {
    match asked.name {
        "read" => timed(rt, Work::Read(rows), asked.count),
        "print" => texts::print(rt, rows, asked.count),
        "create" => timed(rt, Work::Create(rows), asked.count),
        "get" => store::get(rt, rows, asked.count),
        _ => choices::choose_and_pick(rt, rows, asked.count, asked.other),
    }
}
