// Questions of one line, and the answers to them.

use crate::{clocks, compared, fields, lines, links, records, texts};
use std::alloc::{AllocError, Global};

/// The line, and after it the answer to its question.
pub fn answered(rt: &HostRuntime, line: &str) -> Result<String, AllocError> {
    let (kind, question) = line.split_once('|').unwrap_or((line, ""));
    let answer = answer(rt, kind, question)?;
    format!(in rt.alloc(); "{line}|{answer}")
}

/// The answer to a question of this kind. A kind that is not known is answered as want of memory.
fn answer(rt: &HostRuntime, kind: &str, question: &str) -> Result<String, AllocError> {
    match kind {
        "system" => clocks::system_text(rt),
        "socket" => links::socket_text(rt, question),
        "times" => clocks::times_text(rt.alloc(), question),
        "lines" => lines::lines_text(rt.alloc(), question),
        "again" => texts::again_text(rt.alloc(), question),
        "empty" => texts::empty_text(rt.alloc(), question),
        _ => value_answer(rt.alloc(), kind, question),
    }
}

fn value_answer(alloc: Global, kind: &str, question: &str) -> Result<String, AllocError> {
    match kind {
        "field" => fields::field_answer(alloc, question),
        "written" => fields::written_answer(alloc, question),
        "free" => records::free_text(alloc, question),
        "of" => records::of_text(alloc, question),
        "freed" => records::freed_text(alloc, question),
        "plain" => compared::handles_text(alloc),
        _ => Err(AllocError),
    }
}
