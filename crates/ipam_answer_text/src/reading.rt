//! Lines are read.
ghost use Rattle.std.specs.Prelude.{◌≡◌, Err, Some, None, IfOk, codes};
ghost use Rattle.ipam_request_text.specs.Live.{live_reading};
ghost use Rattle.ipam_answer_text.specs.Reading.{row_in, begin_in, turn_in, timed_feed, feed_in, named_call, named_line, text_reading, line_reading};

use crate::fault::LineFault;
use crate::line::Line;
use crate::words::{number_of, slot_of, split_word, turns_of};
use ipam_records::Row;
use ipam_request_text::{AskFault, read_live, read_request_text};
use ipam_text::{Seq, Text};
use std::alloc::{AllocError, Global};

/// What the line asks, given without its line end. Words are separated by one space, and numbers
/// are decimal without leading zeros. A request, a list of live handles and a body are all that is
/// left of their line.
///
/// Fails with `Unreadable` where no line has this form, and with `Memory`.
#[tactic(auto, using(crate::proofs::Bytes::line_of_text, crate::proofs::Bytes::line_of_no_text))]
pub fn read_line(alloc: Global, line: &[u8]) -> Result<Line, LineFault>
    ensures read { IfOk result (λ asked. line_reading line.now ≡ Some asked) }
    ensures unreadable { result ≡ Err LineFault.Unreadable → line_reading line.now ≡ None }
{
    match str::from_utf8(line) {
        Ok(text) => read_text(alloc, text),
        Err(_) => Err(LineFault::Unreadable),
    }
}

fn read_text(alloc: Global, text: &str) -> Result<Line, LineFault>
    ensures read { IfOk result (λ asked. text_reading text.now ≡ Some asked) }
    ensures unreadable { result ≡ Err LineFault.Unreadable → text_reading text.now ≡ None }
{
    match line_in(alloc, text) {
        Ok(Some(line)) => Ok(line),
        Ok(None) => Err(LineFault::Unreadable),
        Err(_) => Err(LineFault::Memory),
    }
}

#[tactic(auto, unfolding(crate::specs::Reading::text_reading))]
fn line_in(alloc: Global, text: &str) -> Result<Option<Line>, AllocError>
    ensures { IfOk result (λ found. found ≡ text_reading text.now) }
{
    match split_word(text) {
        Some((word, rest)) => named_line(alloc, word, rest),
        None if text == "restart" => Ok(Some(Line::Restart)),
        None => Ok(None),
    }
}

/// A line of more than one word, by its first.
fn named_line(alloc: Global, word: &str, rest: &str) -> Result<Option<Line>, AllocError>
    ensures { IfOk result (λ found. found ≡ named_line word.now rest.now) }
{
    if word == "row" {
        row_in(alloc, rest)
    } else if word == "counter" {
        Ok(counter_in(rest))
    } else if word == "begin" {
        begin_in(alloc, rest)
    } else if word == "turn" {
        Ok(turn_in(rest))
    } else if word == "feed" {
        feed_in(alloc, rest)
    } else {
        Ok(named_call(word, rest))
    }
}

fn named_call(word: &str, rest: &str) -> Option<Line>
    ensures { result ≡ named_call word.now rest.now }
{
    if word == "fail" {
        Some(Line::Fail(slot_of(rest)?))
    } else if word == "lose" {
        Some(Line::Lose(slot_of(rest)?))
    } else if word == "stop" {
        Some(Line::Stop(slot_of(rest)?))
    } else {
        None
    }
}

fn counter_in(text: &str) -> Option<Line>
    ensures { result ≡ named_line (codes "counter") text.now }
{
    Some(Line::Counter(number_of(text)?))
}

#[tactic(auto, unfolding(crate::specs::Reading::row_in))]
fn row_in(alloc: Global, text: &str) -> Result<Option<Line>, AllocError>
    ensures { IfOk result (λ found. found ≡ row_in text.now) }
{
    let Some((word, rest)) = split_word(text) else {
        return Ok(None);
    };
    let Some(revision) = number_of(word) else {
        return Ok(None);
    };
    let Some((key, body)) = split_word(rest) else {
        return Ok(None);
    };
    if key.is_empty() {
        return Ok(None);
    }
    let key = Text::copied(alloc, key)?;
    let body = Text::copied(alloc, body)?;
    Ok(Some(Line::Row(Row {
        key,
        revision,
        body,
    })))
}

#[tactic(auto, unfolding(crate::specs::Reading::begin_in))]
fn begin_in(alloc: Global, text: &str) -> Result<Option<Line>, AllocError>
    ensures { IfOk result (λ found. found ≡ begin_in text.now) }
{
    let Some((word, rest)) = split_word(text) else {
        return Ok(None);
    };
    let Some(slot) = slot_of(word) else {
        return Ok(None);
    };
    match read_request_text(alloc, rest) {
        Ok(request) => Ok(Some(Line::Begin(slot, request))),
        Err(AskFault::Unreadable) => Ok(None),
        Err(AskFault::Memory) => Err(AllocError),
    }
}

fn live_of(alloc: Global, text: &str) -> Result<Option<Seq<Text>>, AllocError>
    ensures { IfOk result (λ found. found ≡ live_reading text.now) }
{
    match read_live(alloc, text) {
        Ok(live) => Ok(Some(live)),
        Err(AskFault::Unreadable) => Ok(None),
        Err(AskFault::Memory) => Err(AllocError),
    }
}

#[tactic(auto, unfolding(crate::specs::Reading::turns_said))]
fn turn_in(text: &str) -> Option<Line>
    ensures { result ≡ turn_in text.now }
{
    let Some((word, turns)) = split_word(text) else {
        return Some(Line::Turn(slot_of(text)?, 1));
    };
    let slot = slot_of(word)?;
    let count = turns_of(turns)?;
    Some(Line::Turn(slot, count))
}

#[tactic(auto, unfolding(crate::specs::Reading::feed_in))]
fn feed_in(alloc: Global, text: &str) -> Result<Option<Line>, AllocError>
    ensures { IfOk result (λ found. found ≡ feed_in text.now) }
{
    let Some((word, rest)) = split_word(text) else {
        return Ok(None);
    };
    let Some(slot) = slot_of(word) else {
        return Ok(None);
    };
    match live_of(alloc, rest)? {
        Some(live) => Ok(Some(Line::Feed(slot, 0, live))),
        None => timed_feed(alloc, slot, rest),
    }
}

#[tactic(auto, unfolding(crate::specs::Reading::timed_feed))]
fn timed_feed(alloc: Global, slot: u8, text: &str) -> Result<Option<Line>, AllocError>
    ensures { IfOk result (λ found. found ≡ timed_feed slot text.now) }
{
    let Some((word, rest)) = split_word(text) else {
        return Ok(None);
    };
    let Some(at) = number_of(word) else {
        return Ok(None);
    };
    match live_of(alloc, rest)? {
        Some(live) => Ok(Some(Line::Feed(slot, at, live))),
        None => Ok(None),
    }
}
