//! The daemon's reply is read.
ghost use Rattle.std.specs.Prelude.{◌≡◌, IfOk, option_map};
ghost use Rattle.std.specs.Str.{is_utf8};
ghost use Rattle.serde_json.specs.View.{view, members_view};
ghost use Rattle.ipam_json.specs.Members.{only_if};
ghost use Rattle.ipam_call.specs.Replies.{in_reply, are_of_reply, reply_in, reply_of_line};

use crate::end::DaemonReply;
use ipam_json::{json_of, text_at, whole_at};
use ipam_text::Text;
use serde_json::{Map, Value};
use std::alloc::{AllocError, Global};

/// The reply that the line is, or none.
#[tactic(auto, unfolding(crate::specs::Replies::reply_of_line))]
pub(crate) fn reply_of_line(alloc: Global, line: &[u8]) -> Result<Option<DaemonReply>, AllocError>
    ensures { IfOk result (λ found. found ≡ reply_of_line line.now) }
{
    let Some(text) = text_of(line) else {
        return Ok(None);
    };
    match json_of(alloc, text)? {
        Some(json) => reply_in(alloc, &json),
        None => Ok(None),
    }
}

/// The line as a text, where it is UTF-8.
#[tactic(auto, using(crate::proofs::Inputs::text_told, crate::proofs::Inputs::no_text_told))]
fn text_of(line: &[u8]) -> Option<&str>
    ensures { option_map (λ t. t.now) result ≡ only_if (is_utf8 line.now) line.now }
{
    str::from_utf8(line).ok()
}

#[tactic(auto, unfolding(crate::specs::Replies::reply_in))]
fn reply_in(alloc: Global, json: &Value) -> Result<Option<DaemonReply>, AllocError>
    ensures { IfOk result (λ found. found ≡ reply_in (view json.now)) }
{
    let Some(members) = json.as_object() else {
        return Ok(None);
    };
    if !are_of_reply(members) {
        return Ok(None);
    }
    let Some(status) = whole_at(json, "status") else {
        return Ok(None);
    };
    if status > 1 {
        return Ok(None);
    }
    let Some(stdout) = text_at(json, "stdout") else {
        return Ok(None);
    };
    let stdout = Text::copied(alloc, stdout)?;
    Ok(Some(DaemonReply {
        status: status as u8,
        stdout,
    }))
}

/// Whether no member is unknown.
fn are_of_reply(members: &Map<String, Value>) -> bool
    ensures { result ≡ are_of_reply (members_view members.now.entries) }
{
    for (name, _) in members {
        if !in_reply(name.as_str()) {
            return false;
        }
    }
    true
}

fn in_reply(name: &str) -> bool
    ensures { result ≡ in_reply name.now }
{
    name == "status" || name == "stdout"
}
