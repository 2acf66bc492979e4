//! What is read of lines, where some reads fail.
use crate::clocks::numbers;
use ipam_io::{Got, Lines, LinesFault, MemorySource};
use std::alloc::{AllocError, Global};

const LIMIT: usize = 1_048_576;

/// The bytes of the numbers of the signs, where `␤` stands for a line feed.
pub(crate) fn bytes_of(alloc: Global, text: &str) -> Result<Vec<u8>, AllocError> {
    let mut bytes = Vec::new(alloc);
    for sign in text.chars() {
        let byte = if sign == '␤' { 10 } else { u32::from(sign) };
        bytes.push(u8::try_from(byte).unwrap_or(b'?'))?;
    }
    Ok(bytes)
}

fn got_text(alloc: Global, got: &Result<Got, LinesFault>) -> Result<String, AllocError> {
    match got {
        Ok(got) => format!(in alloc; "{got:?} "),
        Err(fault) => format!(in alloc; "{fault:?} "),
    }
}

/// What so many calls answer, each with a space after it.
fn answers(alloc: Global, source: &mut MemorySource, calls: u32) -> Result<String, AllocError> {
    let mut lines = Lines::<LIMIT>::new(alloc);
    let mut out = String::new(alloc);
    for _ in 0..calls {
        let text = got_text(alloc, &lines.next(source))?;
        out.push_str(text.as_str())?;
    }
    Ok(out)
}

/// What is answered of `CALLS|READS|BYTES`, where the reads of these numbers fail.
pub(crate) fn lines_text(alloc: Global, text: &str) -> Result<String, AllocError> {
    let (calls, rest) = text.split_once('|').unwrap_or((text, ""));
    let (reads, bytes) = rest.split_once('|').unwrap_or((rest, ""));
    let mut source = MemorySource::new(bytes_of(alloc, bytes)?, numbers(alloc, reads)?);
    answers(alloc, &mut source, calls.parse().unwrap_or(0))
}
