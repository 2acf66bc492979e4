//! The reply to a request is read.
ghost use Rattle.std.specs.Prelude.{◌≡◌, IfOk, option_map};
ghost use Rattle.serde_json.specs.View.{view};
ghost use Rattle.ipam_operator.specs.Answers.{answer_in, answer_of_line, json_of_line, member_answer, refused_answer, word_answer};

use ipam_json::{in_8_bits, json_of, only_member, text_at, whole_at};
use ipam_text::Text;
use serde_json::Value;
use std::alloc::{AllocError, Global};

/// What the daemon answered the request of an operator.
#[derive(Drop)]
pub enum OperatorAnswer {
    /// The change was made.
    Done,
    /// The node gave up the block.
    Released,
    /// The node has no affinity to the block.
    NoAffinity,
    /// The number of a refusal, and the name that it is about.
    Refused(u8, Text),
    /// There is no room for one more record.
    Full,
    /// There are no more revisions.
    Spent,
    /// The request lost too many races.
    Again,
    /// The daemon's keeper failed.
    Fault,
}

/// The answer that the line is, or none.
#[tactic(auto, unfolding(crate::specs::Answers::answer_of_line))]
pub(crate) fn answer_of_line(
    alloc: Global,
    line: &[u8],
) -> Result<Option<OperatorAnswer>, AllocError>
    ensures { IfOk result (λ found. found ≡ answer_of_line line.now) }
{
    match json_of_line(alloc, line)? {
        Some(json) => answer_in(alloc, &json),
        None => Ok(None),
    }
}

/// The JSON that the line is, or none.
#[tactic(auto, unfolding(crate::specs::Answers::json_of_line), using(crate::proofs::Utf8::text_told, crate::proofs::Utf8::no_text_told))]
pub fn json_of_line(alloc: Global, line: &[u8]) -> Result<Option<Value>, AllocError>
    ensures { IfOk result (λ found. option_map view found ≡ json_of_line line.now) }
{
    match str::from_utf8(line) {
        Ok(text) => json_of(alloc, text),
        Err(_) => Ok(None),
    }
}

/// An answer is a word, or an object of one member.
#[tactic(auto, unfolding(crate::specs::Answers::answer_in))]
fn answer_in(alloc: Global, json: &Value) -> Result<Option<OperatorAnswer>, AllocError>
    ensures { IfOk result (λ found. found ≡ answer_in (view json.now)) }
{
    let Some(members) = json.as_object() else {
        return Ok(None);
    };
    let Some((name, value)) = only_member(members) else {
        return Ok(None);
    };
    if name != "answer" {
        return Ok(None);
    }
    match value.as_str() {
        Some(word) => Ok(word_answer(word)),
        None => member_answer(alloc, value),
    }
}

fn word_answer(word: &str) -> Option<OperatorAnswer>
    ensures { result ≡ word_answer word.now }
{
    if word == "released" {
        Some(OperatorAnswer::Released)
    } else if word == "full" {
        Some(OperatorAnswer::Full)
    } else if word == "spent" {
        Some(OperatorAnswer::Spent)
    } else if word == "fault" {
        Some(OperatorAnswer::Fault)
    } else {
        None
    }
}

#[tactic(auto, unfolding(crate::specs::Answers::member_answer))]
fn member_answer(alloc: Global, value: &Value) -> Result<Option<OperatorAnswer>, AllocError>
    ensures { IfOk result (λ found. found ≡ member_answer (view value.now)) }
{
    let Some(members) = value.as_object() else {
        return Ok(None);
    };
    let Some((name, inner)) = only_member(members) else {
        return Ok(None);
    };
    if name == "done" {
        Ok(Some(OperatorAnswer::Done))
    } else if name == "noAffinity" {
        Ok(Some(OperatorAnswer::NoAffinity))
    } else if name == "again" {
        Ok(Some(OperatorAnswer::Again))
    } else if name == "refused" {
        refused_answer(alloc, inner)
    } else {
        Ok(None)
    }
}

#[tactic(auto, unfolding(crate::specs::Answers::refused_answer))]
fn refused_answer(alloc: Global, value: &Value) -> Result<Option<OperatorAnswer>, AllocError>
    ensures { IfOk result (λ found. found ≡ refused_answer (view value.now)) }
{
    let Some(whole) = whole_at(value, "number") else {
        return Ok(None);
    };
    let Some(number) = in_8_bits(whole) else {
        return Ok(None);
    };
    let Some(name) = text_at(value, "name") else {
        return Ok(None);
    };
    let name = Text::copied(alloc, name)?;
    Ok(Some(OperatorAnswer::Refused(number, name)))
}
