//! An audit is run by its words.
use crate::command::push_reply;
use crate::command_texts::words_of;
use ipam_commands::run_audit;
use ipam_io::MemorySink;
use ipam_keeper::MemoryKeeper;
use std::alloc::{AllocError, Global};
use std::thread::Threads;

/// How many bytes an audit may write.
const ROOM: usize = 65_536;

/// Runs the words, and appends the status and what was written.
pub(crate) fn push_report<R: Threads + Sync>(
    threads: &R,
    alloc: Global,
    keeper: &mut MemoryKeeper,
    words: &str,
    told: &mut String,
) -> Result<(), AllocError> {
    let mut sink = MemorySink::new(alloc, ROOM, Vec::new(alloc))?;
    let words = words_of(alloc, words)?;
    let status = run_audit(threads, alloc, &words, &mut sink, keeper);
    push_reply(alloc, status, sink.written(), told)
}
