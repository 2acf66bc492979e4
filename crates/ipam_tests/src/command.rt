//! Runs a command, and writes down what comes of it.
use crate::command_texts::words_of;
use ipam_command::run_command;
use ipam_io::{MemorySink, MemorySource};
use ipam_keeper::Keeper;
use ipam_text::Text;
use std::alloc::{AllocError, Global};

/// The pairs that stand in the environment of a command before its own.
const COMMON: &str = "CNI_NETNS=/var/run/netns/x¦CNI_IFNAME=eth0¦CNI_PATH=/opt/cni/bin";

/// How many bytes may be written.
const ROOM: usize = 1_000_000;

/// Runs the command of a line `WORDS⇒ENVIRONMENT⇒INPUT`, and appends its status and what it wrote.
pub(crate) fn push_run<D: Keeper>(
    alloc: Global,
    keeper: &mut D,
    line: &str,
    told: &mut String,
) -> Result<(), AllocError> {
    let (words, rest) = line.split_once('⇒').unwrap_or((line, ""));
    let words = words_of(alloc, words)?;
    let Given {
        env,
        mut source,
        mut sink,
    } = given_of(alloc, rest)?;
    let status = status_of(alloc, &words, &env, &mut source, &mut sink, keeper);
    push_reply(alloc, status, sink.written(), told)
}

/// What a command is given beside its words, and where it writes.
#[derive(Drop)]
pub(crate) struct Given {
    pub(crate) env: Vec<(Text, Text)>,
    pub(crate) source: MemorySource,
    pub(crate) sink: MemorySink,
}

/// The status with which the command ends. Apart, since `run_command` has a long contract.
fn status_of<D: Keeper>(
    alloc: Global,
    words: &[String],
    env: &[(Text, Text)],
    source: &mut MemorySource,
    sink: &mut MemorySink,
    keeper: &mut D,
) -> u8 {
    run_command(alloc, words, env, source, sink, keeper)
}

/// What a command is given by a text `ENVIRONMENT⇒INPUT`.
pub(crate) fn given_of(alloc: Global, text: &str) -> Result<Given, AllocError> {
    let (pairs, input) = text.split_once('⇒').unwrap_or((text, ""));
    let mut env = Vec::new(alloc);
    push_pairs(alloc, COMMON, &mut env)?;
    push_pairs(alloc, pairs, &mut env)?;
    let input = String::from_str(alloc, input)?;
    let source = MemorySource::new(input.into_bytes(), Vec::new(alloc));
    let sink = MemorySink::new(alloc, ROOM, Vec::new(alloc))?;
    Ok(Given { env, source, sink })
}

/// Appends the pairs of a text such as `CNI_COMMAND=ADD¦CNI_IFNAME=eth0`.
fn push_pairs(alloc: Global, text: &str, env: &mut Vec<(Text, Text)>) -> Result<(), AllocError> {
    for pair in text.split('¦') {
        if let Some((name, value)) = pair.split_once('=') {
            let name = Text::copied(alloc, name)?;
            env.push((name, Text::copied(alloc, value)?))?;
        }
    }
    Ok(())
}

/// Appends the status and what was written. Where this doesn't end with a line feed, `|` stands at its end.
pub(crate) fn push_reply(
    alloc: Global,
    status: u8,
    written: &[u8],
    told: &mut String,
) -> Result<(), AllocError> {
    let whole = str::from_utf8(written).unwrap_or("no text\n");
    let end = if whole.ends_with('\n') { "" } else { "|" };
    let lines = whole.strip_suffix('\n').unwrap_or(whole);
    let reply = format!(in alloc; "{status} {lines}{end}\n")?;
    told.push_str(reply.as_str())
}
