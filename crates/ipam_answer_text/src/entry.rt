//! The lines of a journal.
ghost use Rattle.std.specs.Prelude.{◌≡◌, ◌++◌, decimal, IfOk, OnOk, OnErr, string_bytes};
ghost use Rattle.ipam_records.specs.KeyText.{key_bytes};
ghost use Rattle.ipam_answer_text.specs.Entries.{numbered, spaced, call_text, kind_text, fate_text, told_text, written_text, at_text, asked_text, heard_text, began_line, fed_line, called_line, entry_line};

use crate::answer::push_answer;
use ipam_model::{CallName, Called, Entry, Fate, Request, Told};
use ipam_records::{Key, Kind, Record, key_text, to_text};
use ipam_request_text::{push_live, push_request};
use ipam_text::Text;
use itoa::Buffer;
use std::alloc::{AllocError, Global};

/// The room that most lines need, in bytes.
const ROOM: usize = 4_096;

/// Appends the line of the entry, which ends by its line feed.
pub fn push_entry(alloc: Global, out: &mut String, entry: &Entry) -> Result<(), AllocError>
    ensures ok { OnOk result (string_bytes out.new ≡ string_bytes out.old ++ entry_line entry.now) }
    ensures err { OnErr result (string_bytes out.new ≡ string_bytes out.old) }
{
    let mut line = String::with_capacity(alloc, ROOM)?;
    push_line(alloc, &mut line, entry)?;
    out.push_str(line.as_str())
}

#[tactic(auto, unfolding(crate::specs::Entries::stopped_line))]
fn push_line(alloc: Global, out: &mut String, entry: &Entry) -> Result<(), AllocError>
    ensures { OnOk result (string_bytes out.new ≡ string_bytes out.old ++ entry_line entry.now) }
{
    match entry {
        Entry::Began(slot, request) => push_began(alloc, out, *slot, request),
        Entry::Fed(slot, at, live) => push_fed(alloc, out, *slot, *at, live.as_slice()),
        Entry::Called(called) => push_called(alloc, out, called),
        Entry::Stopped(slot) => {
            push_number(out, u64::from(*slot))?;
            out.push_str(" stopped\n")
        }
    }
}

#[tactic(auto, unfolding(crate::specs::Entries::began_line))]
fn push_began(
    alloc: Global,
    out: &mut String,
    slot: u8,
    request: &Request,
) -> Result<(), AllocError>
    ensures { OnOk result (string_bytes out.new ≡ string_bytes out.old ++ began_line slot request.now) }
{
    push_number(out, u64::from(slot))?;
    out.push_str(" began ")?;
    push_request(alloc, out, request)?;
    out.push_str("\n")
}

#[tactic(auto, unfolding(crate::specs::Entries::fed_line))]
fn push_fed(
    alloc: Global,
    out: &mut String,
    slot: u8,
    at: u64,
    live: &[Text],
) -> Result<(), AllocError>
    ensures { OnOk result (string_bytes out.new ≡ string_bytes out.old ++ fed_line slot at live.now) }
{
    push_number(out, u64::from(slot))?;
    out.push_str(" fed ")?;
    push_at(out, at)?;
    push_live(alloc, out, live)?;
    out.push_str("\n")
}

#[tactic(auto, unfolding(crate::specs::Entries::called_line))]
fn push_called(alloc: Global, out: &mut String, called: &Called) -> Result<(), AllocError>
    ensures { OnOk result (string_bytes out.new ≡ string_bytes out.old ++ called_line called.now) }
{
    push_number(out, u64::from(called.slot))?;
    out.push_str(" called ")?;
    push_asked(alloc, out, called)?;
    out.push_str(" ")?;
    push_heard(alloc, out, called)?;
    out.push_str("\n")
}

/// Appends the call and its fate.
#[tactic(auto, unfolding(crate::specs::Entries::asked_text))]
fn push_asked(alloc: Global, out: &mut String, called: &Called) -> Result<(), AllocError>
    ensures { OnOk result (string_bytes out.new ≡ string_bytes out.old ++ asked_text called.now) }
{
    push_call(alloc, out, &called.call)?;
    out.push_str(" ")?;
    out.push_str(fate_name(called.fate))
}

/// Appends the reply, what was written and the answer.
#[tactic(auto, unfolding(crate::specs::Entries::heard_text))]
fn push_heard(alloc: Global, out: &mut String, called: &Called) -> Result<(), AllocError>
    ensures { OnOk result (string_bytes out.new ≡ string_bytes out.old ++ heard_text called.now) }
{
    push_told(out, called.reply)?;
    out.push_str(" ")?;
    push_written(alloc, out, &called.written)?;
    out.push_str(" ")?;
    match &called.answer {
        Some(answer) => push_answer(alloc, out, answer),
        None => out.push_str("-"),
    }
}

fn push_call(alloc: Global, out: &mut String, call: &CallName) -> Result<(), AllocError>
    ensures { OnOk result (string_bytes out.new ≡ string_bytes out.old ++ call_text call.now) }
{
    match call {
        CallName::Get(key) => {
            out.push_str("get ")?;
            push_key(alloc, out, key)
        }
        CallName::List(kind) => {
            out.push_str("list ")?;
            out.push_str(kind_name(*kind))
        }
        CallName::Create(key) => {
            out.push_str("create ")?;
            push_key(alloc, out, key)
        }
        CallName::Update(key, revision) => {
            out.push_str("update ")?;
            push_row(alloc, out, key, *revision)
        }
        CallName::Delete(key, revision) => {
            out.push_str("delete ")?;
            push_row(alloc, out, key, *revision)
        }
    }
}

/// Appends the key and the revision.
fn push_row(alloc: Global, out: &mut String, key: &Key, revision: u64) -> Result<(), AllocError>
    ensures { OnOk result
        (string_bytes out.new ≡ string_bytes out.old ++ spaced (key_bytes key.now) revision) }
{
    push_key(alloc, out, key)?;
    out.push_str(" ")?;
    push_number(out, revision)
}

fn push_key(alloc: Global, out: &mut String, key: &Key) -> Result<(), AllocError>
    ensures { OnOk result (string_bytes out.new ≡ string_bytes out.old ++ key_bytes key.now) }
{
    let text = key_text(alloc, key)?;
    out.push_str(text.as_str())
}

fn push_number(out: &mut String, number: u64) -> Result<(), AllocError>
    ensures { OnOk result (string_bytes out.new ≡ string_bytes out.old ++ decimal number) }
{
    let mut buffer = Buffer::new();
    out.push_str(buffer.format(number))
}

fn kind_name(kind: Kind) -> &'static str
    ensures { result.now ≡ kind_text kind }
{
    match kind {
        Kind::Block => "block",
        Kind::Affinity => "affinity",
        Kind::Handle => "handle",
    }
}

fn fate_name(fate: Fate) -> &'static str
    ensures { result.now ≡ fate_text fate }
{
    match fate {
        Fate::Well => "well",
        Fate::Before => "before",
        Fate::After => "after",
    }
}

fn push_told(out: &mut String, told: Told) -> Result<(), AllocError>
    ensures { OnOk result (string_bytes out.new ≡ string_bytes out.old ++ told_text told) }
{
    match told {
        Told::Nothing => out.push_str("none"),
        Told::Found(revision) => push_numbered(out, "found ", revision),
        Told::Missing => out.push_str("missing"),
        Told::Listed(count) => push_numbered(out, "listed ", count),
        Told::Done(revision) => push_numbered(out, "done ", revision),
        Told::Exists(revision) => push_numbered(out, "exists ", revision),
        Told::Conflict(revision) => push_numbered(out, "conflict ", revision),
        Told::Full => out.push_str("full"),
        Told::Spent => out.push_str("spent"),
    }
}

/// Appends the word and the number.
fn push_numbered(out: &mut String, word: &str, number: u64) -> Result<(), AllocError>
    ensures { OnOk result
        (string_bytes out.new ≡ string_bytes out.old ++ numbered word.now number) }
{
    out.push_str(word)?;
    push_number(out, number)
}

fn push_written(alloc: Global, out: &mut String, written: &Option<Record>) -> Result<(), AllocError>
    ensures { OnOk result (string_bytes out.new ≡ string_bytes out.old ++ written_text written.now) }
{
    match written {
        Some(record) => {
            let body = to_text(alloc, record)?;
            out.push_str(body.as_str())
        }
        None => out.push_str("-"),
    }
}

/// Appends the time of a list, where it is not 0.
fn push_at(out: &mut String, at: u64) -> Result<(), AllocError>
    ensures { OnOk result (string_bytes out.new ≡ string_bytes out.old ++ at_text at) }
{
    if at == 0 {
        return Ok(());
    }
    push_number(out, at)?;
    out.push_str(" ")
}
