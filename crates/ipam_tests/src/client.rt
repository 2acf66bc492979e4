//! The client's call of a daemon whose reply is in memory.
use crate::command::{Given, given_of, push_reply};
use crate::command_texts::push_line;
use ipam_call::run_call;
use ipam_io::{MemoryLink, MemorySink, MemorySource};
use ipam_text::Text;
use std::alloc::{AllocError, Global};

/// How many bytes may be sent.
const ROOM: usize = 65_536;

/// Makes the call of a line `REPLY⇒ENVIRONMENT⇒INPUT`, and appends its status, what it wrote, and the line that it
/// sent, if any. The link's call of this number fails; none is 0.
pub(crate) fn push_call(
    alloc: Global,
    failing: u64,
    line: &str,
    told: &mut String,
) -> Result<(), AllocError> {
    let (reply, rest) = line.split_once('⇒').unwrap_or((line, ""));
    let mut link = link_of(alloc, failing, reply)?;
    let Given {
        env,
        mut source,
        mut sink,
    } = given_of(alloc, rest)?;
    let status = status_of(alloc, &env, &mut source, &mut sink, &mut link);
    push_reply(alloc, status, sink.written(), told)?;
    told.push_str(str::from_utf8(link.written()).unwrap_or("no text"))
}

/// The status with which the call ends. Apart, since `run_call` has a long contract.
fn status_of(
    alloc: Global,
    env: &[(Text, Text)],
    source: &mut MemorySource,
    sink: &mut MemorySink,
    link: &mut MemoryLink,
) -> u8 {
    run_call(alloc, env, source, sink, link)
}

/// A link that holds the reply as a line, or nothing where the reply is empty.
fn link_of(alloc: Global, failing: u64, reply: &str) -> Result<MemoryLink, AllocError> {
    let mut held = String::new(alloc);
    if !reply.is_empty() {
        push_line(&mut held, reply)?;
    }
    MemoryLink::new(alloc, held.into_bytes(), ROOM, vec![in alloc; failing]?)
}
