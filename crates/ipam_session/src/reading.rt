//! Lines are read.
ghost use Rattle.std.specs.Prelude.{◌≡◌, Err, Some, None, IfOk, IfSome, OnErr};
ghost use Rattle.serde_json.specs.View.{view, members_view};
ghost use Rattle.ipam_json.specs.Members.{only_if};
ghost use Rattle.ipam_session.specs.Wishes.{says_time, request_wish, is_true, rows_wish, short_wish, named_wish, are_of_page, page_wish, are_of_call, call_wish, wish_of_members, wish_in, wish_of_line, IsSoundWish};

use crate::wish::Wish;
use ipam_json::{json_of, only_member, text_at};
use ipam_records::key_of_text;
use ipam_request_text::{AskFault, live_in_json, pairs_in, request_in_json};
use ipam_text::Text;
use ipam_words::RowKind;
use serde_json::{Map, Value};
use std::alloc::{AllocError, Global};

/// What the line asks, in any spelling of its JSON. Members that it does not have are refused, and
/// of a member that is given twice the last one counts. What is read is sound.
///
/// Fails with `Unreadable` where the line asks nothing, and with `Memory`.
pub fn read_wish(alloc: Global, line: &[u8]) -> Result<Wish, AskFault>
    ensures read { IfOk result (λ wish. wish_of_line line.now ≡ Some wish) }
    ensures unreadable { result ≡ Err AskFault.Unreadable → wish_of_line line.now ≡ None }
    ensures sound { IfOk result IsSoundWish }
{
    read_wish_by(alloc, line)
}

/// What takes the memory for reading a line. What is generic over it knows nothing of it, and so can't state by
/// itself that it found none.
trait ReadsLines {
    /// It found no memory.
    ghost wants: { Self → Type 0 };

    /// What the line asks, or that it asks nothing.
    fn wish_in_line(&self, line: &[u8]) -> Result<Option<Wish>, AllocError>
        ensures read { IfOk result (λ found. found ≡ wish_of_line line.now) }
        ensures sound { IfOk result (λ found. IfSome found IsSoundWish) }
        ensures wants { OnErr result (wants self.now) };
}

impl ReadsLines for Global {
    ghost wants = { λ _. Unit {0} };

    fn wish_in_line(&self, line: &[u8]) -> Result<Option<Wish>, AllocError> {
        wish_of_line(*self, line)
    }
}

/// What the line asks. `Memory` is returned only where reading the line found none: a line that asks nothing is
/// `Unreadable`.
fn read_wish_by<T: ReadsLines + Drop>(alloc: T, line: &[u8]) -> Result<Wish, AskFault>
    ensures read { IfOk result (λ wish. wish_of_line line.now ≡ Some wish) }
    ensures unreadable { result ≡ Err AskFault.Unreadable → wish_of_line line.now ≡ None }
    ensures sound { IfOk result IsSoundWish }
    ensures want_of_memory_has_its_cause { result ≡ Err AskFault.Memory → T.wants alloc }
{
    match alloc.wish_in_line(line) {
        Ok(Some(wish)) => Ok(wish),
        Ok(None) => Err(AskFault::Unreadable),
        Err(_) => Err(AskFault::Memory),
    }
}

#[tactic(auto, unfolding(crate::specs::Wishes::wish_of_line), using(crate::proofs::Utf8::text_told, crate::proofs::Utf8::no_text_told))]
fn wish_of_line(alloc: Global, line: &[u8]) -> Result<Option<Wish>, AllocError>
    ensures read { IfOk result (λ found. found ≡ wish_of_line line.now) }
    ensures sound { IfOk result (λ found. IfSome found IsSoundWish) }
{
    let Ok(text) = str::from_utf8(line) else {
        return Ok(None);
    };
    match json_of(alloc, text)? {
        Some(json) => wish_in(alloc, &json),
        None => Ok(None),
    }
}

/// One member asks by its name, and several ask for a page or a call.
#[tactic(auto, unfolding(crate::specs::Wishes::wish_in))]
fn wish_in(alloc: Global, json: &Value) -> Result<Option<Wish>, AllocError>
    ensures read { IfOk result (λ found. found ≡ wish_in (view json.now)) }
    ensures sound { IfOk result (λ found. IfSome found IsSoundWish) }
{
    let Some(members) = json.as_object() else {
        return Ok(None);
    };
    if let Some((name, value)) = only_member(members) {
        return named_wish(alloc, name, value);
    }
    if json.get("rows").is_some() {
        page_wish(alloc, json)
    } else {
        call_wish(alloc, json)
    }
}

/// What the one member asks.
fn named_wish(alloc: Global, name: &str, value: &Value) -> Result<Option<Wish>, AllocError>
    ensures read { IfOk result (λ found. found ≡ named_wish name.now (view value.now)) }
    ensures sound { IfOk result (λ found. IfSome found IsSoundWish) }
{
    if name == "request" {
        request_wish(alloc, value)
    } else if name == "feed" {
        Ok(live_in_json(alloc, value)?.map(Wish::Feed))
    } else {
        Ok(short_wish(name, value))
    }
}

#[tactic(auto, unfolding(crate::specs::Wishes::request_wish))]
fn request_wish(alloc: Global, value: &Value) -> Result<Option<Wish>, AllocError>
    ensures read { IfOk result (λ found. found ≡ request_wish (view value.now)) }
    ensures sound { IfOk result (λ found. IfSome found IsSoundWish) }
{
    if says_time(value) {
        return Ok(None);
    }
    match request_in_json(alloc, value)? {
        Some(request) => Ok(Some(Wish::Request(request))),
        None => Ok(None),
    }
}

/// Whether a collection says when its first list was made.
fn says_time(value: &Value) -> bool
    ensures { result ≡ says_time (view value.now) }
{
    match value.get("collect") {
        Some(collect) => collect.get("at").is_some(),
        None => false,
    }
}

/// What the members ask whose value is no more than `true`, a number or a word.
fn short_wish(name: &str, value: &Value) -> Option<Wish>
    ensures read { result ≡ short_wish name.now (view value.now) }
    ensures sound { IfSome result IsSoundWish }
{
    if name == "stop" {
        where_true(value, Wish::Stop)
    } else if name == "routes" {
        where_true(value, Wish::Routes)
    } else if name == "routesSince" {
        value.as_u64().map(Wish::RoutesSince)
    } else if name == "rows" {
        rows_wish(value)
    } else if name == "usage" {
        where_true(value, Wish::Usage)
    } else if name == "opened" {
        where_true(value, Wish::Opened)
    } else {
        None
    }
}

/// The first page of the kind that the value names.
#[tactic(auto, unfolding(crate::specs::Wishes::rows_wish))]
fn rows_wish(value: &Value) -> Option<Wish>
    ensures read { result ≡ rows_wish (view value.now) }
    ensures sound { IfSome result IsSoundWish }
{
    let Some(word) = value.as_str() else {
        return None;
    };
    match RowKind::of(word) {
        Some(kind) => Some(Wish::Rows(kind, None)),
        None => None,
    }
}

/// The wish, where the value is `true`.
fn where_true(value: &Value, wish: Wish) -> Option<Wish>
    ensures { result ≡ only_if (is_true (view value.now)) wish }
{
    if value.as_bool().unwrap_or(false) {
        Some(wish)
    } else {
        None
    }
}

#[tactic(auto, unfolding(crate::specs::Wishes::page_wish))]
fn page_wish(alloc: Global, json: &Value) -> Result<Option<Wish>, AllocError>
    ensures read { IfOk result (λ found. found ≡ page_wish (view json.now)) }
    ensures sound { IfOk result (λ found. IfSome found IsSoundWish) }
{
    let Some(members) = json.as_object() else {
        return Ok(None);
    };
    if !are_of_page(members) {
        return Ok(None);
    }
    let Some(word) = text_at(json, "rows") else {
        return Ok(None);
    };
    let Some(kind) = RowKind::of(word) else {
        return Ok(None);
    };
    let Some(after) = text_at(json, "after") else {
        return Ok(None);
    };
    if !kind.has(after) {
        return Ok(None);
    }
    match key_of_text(alloc, after.as_bytes())? {
        Some(key) => Ok(Some(Wish::Rows(kind, Some(key)))),
        None => Ok(None),
    }
}

/// Whether no member is unknown.
fn are_of_page(members: &Map<String, Value>) -> bool
    ensures { result ≡ are_of_page (members_view members.now.entries) }
{
    for (name, _) in members {
        if name.as_str() != "rows" && name.as_str() != "after" {
            return false;
        }
    }
    true
}

#[tactic(auto, unfolding(crate::specs::Wishes::call_wish))]
fn call_wish(alloc: Global, json: &Value) -> Result<Option<Wish>, AllocError>
    ensures read { IfOk result (λ found. found ≡ call_wish (view json.now)) }
    ensures sound { IfOk result (λ found. IfSome found IsSoundWish) }
{
    let Some(members) = json.as_object() else {
        return Ok(None);
    };
    if !are_of_call(members) {
        return Ok(None);
    }
    let Some(stdin) = text_at(json, "stdin") else {
        return Ok(None);
    };
    let Some(found) = json.get("env") else {
        return Ok(None);
    };
    let Some(env) = pairs_in(alloc, found)? else {
        return Ok(None);
    };
    let stdin = Text::copied(alloc, stdin)?;
    Ok(Some(Wish::Cni(env, stdin)))
}

/// Whether no member is unknown.
fn are_of_call(members: &Map<String, Value>) -> bool
    ensures { result ≡ are_of_call (members_view members.now.entries) }
{
    for (name, _) in members {
        if name.as_str() != "env" && name.as_str() != "stdin" {
            return false;
        }
    }
    true
}
