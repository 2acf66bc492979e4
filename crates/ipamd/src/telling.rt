//! Lines on standard error: each has the cause of what standard output says shortly. Where one
//! can't be written, nothing else changes.
use ipam_sqlite::{StorageFault, daemon_at};
use std::alloc::AllocError;
use std::fs;
use std::io::{self, IsTerminal};

/// A database of so many bytes has some 50,000 rows, and reading them takes a while.
const LARGE: u64 = 16 * 1024 * 1024;

/// How many requests to a daemon there are from one line to the next. Each asks for a resource or a page of rows.
pub(crate) const EACH_REQUESTS: u64 = 100;

/// How many rows of a backup there are from one line to the next.
pub(crate) const EACH_ROWS: u64 = 10_000;

/// Says on standard error which of the words is wrong: the first, or those that have to follow one that begins a command.
pub(crate) fn tell_unknown(rt: &HostRuntime, words: &[String]) {
    let [first, ..] = words else {
        return;
    };
    let first = first.as_str();
    let _ = match wanted_by(first) {
        Some(wanted) => {
            eprintln!(rt; "ipam: {first} wants {wanted}; ipam --help tells the words")
        }
        None if first == "\u{fffd}" => {
            eprintln!(rt; "ipam: a word is no UTF-8; ipam --help tells the words")
        }
        None => eprintln!(rt; "ipam: unknown word {first:?}; ipam --help tells the words"),
    };
}

/// What has to follow a word that begins a command, or stands before it. None of another word.
fn wanted_by(first: &str) -> Option<&'static str> {
    match first {
        "cni" | "play" | "apply" | "--help" | "--version" => Some("no more words"),
        "show" => Some(
            "no more words, or --json, --metrics, blocks, IP, node NODE, handle HANDLE, config, addresses, addresses CIDR, addresses --node NODE, or borrowed",
        ),
        "get" => Some(
            "no more words, or one of config, pools, reservations, block, affinity and handle",
        ),
        "gen" => Some("N, a number of requests"),
        "routes" => Some("NODE"),
        "release" => Some("NODE CIDR"),
        "unreserve" => Some("NAME"),
        "audit" => Some("N, a number from 1 to 16"),
        "backup" => Some("FILE"),
        "call" => Some("ADDRESS"),
        "serve" => Some("ADDRESS N, with N from 1 to 16"),
        "--no-wait" => Some("the words of a command"),
        _ => None,
    }
}

/// Tells a person at a terminal that the rows of a large database are being read.
pub(crate) fn tell_reading(rt: &HostRuntime, path: &str) {
    if !rt.stderr().is_terminal() {
        return;
    }
    match fs::metadata(rt, path) {
        Ok(found) if found.len() >= LARGE => {
            let _ = eprintln!(rt; "ipam: {path}: reading its rows");
        }
        _ => {}
    }
}

/// Tells that the file of a command that only looks is not there, which is read as no rows.
pub(crate) fn tell_missing(rt: &HostRuntime, path: &str) {
    match fs::metadata(rt, path) {
        Err(error) if error.kind() == io::ErrorKind::NotFound => {
            let _ = eprintln!(rt; "ipam: {path}: there is no such file, so there are no rows");
        }
        _ => {}
    }
}

/// Tells a person at a terminal how far a long work has come, a line from each so many to the next.
pub(crate) fn tell_progress(rt: &HostRuntime, count: u64, each: u64, what: &str) {
    if count.checked_rem(each) == Some(0) && rt.stderr().is_terminal() {
        let _ = eprintln!(rt; "ipam: {count} {what}");
    }
}

/// The line of why the database failed, and where a daemon has it, of how that is asked.
pub(crate) fn line_of_fault(
    rt: &HostRuntime,
    path: &str,
    why: StorageFault,
) -> Result<String, AllocError> {
    let daemon = match why {
        StorageFault::HeldByDaemon => daemon_at(rt, path),
        _ => None,
    };
    match &daemon {
        Some(address) => {
            let address = address.as_str();
            format!(in rt.alloc();
                "ipam: {path}: {why}: ask it by ipam --daemon {address} WORDS, or ipam call {address}"
            )
        }
        None => format!(in rt.alloc(); "ipam: {path}: {why}"),
    }
}

/// Tells why the database failed.
pub(crate) fn tell_why(rt: &HostRuntime, path: &str, why: StorageFault) {
    let _ = match line_of_fault(rt, path, why) {
        Ok(line) => eprintln!(rt; "{line}"),
        Err(AllocError) => eprintln!(rt; "ipam: {path}: {why}"),
    };
}

/// Tells that `IPAM_DB` names no file.
pub(crate) fn tell_no_path(rt: &HostRuntime) {
    let _ = eprintln!(rt; "ipam: IPAM_DB is empty or no UTF-8, so it names no file");
}
