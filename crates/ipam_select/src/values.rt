ghost use Rattle.std.specs.Prelude.{◌≡◌, ◌≤◌, [], Some, None, IfOk, OnOk, MatchOption, option_map, length};
ghost use Rattle.std.specs.List.{insert};
ghost use Rattle.ipam_select.specs.Reading.{put_value, values, set};

use crate::front::{take, take_value};
use crate::token::{Mark, Token};
use ipam_text::Text;
use std::alloc::{AllocError, Global};
use std::cmp::Ordering;
use std::collections::VecDeque;

/// The values in braces, in ascending order and each once.
pub(crate) fn set(
    alloc: Global,
    tokens: &mut VecDeque<Token>,
) -> Result<Option<Vec<Text>>, AllocError>
    ensures { IfOk result (λ found. option_map (λ all. (all.items, tokens.new.items)) found
        ≡ set tokens.old.items) }
{
    if !take(tokens, Mark::OpenBrace) {
        return Ok(None);
    }
    if take(tokens, Mark::CloseBrace) {
        return Ok(Some(Vec::new(alloc)));
    }
    values(alloc, tokens)
}

/// One value or more, up to the closing brace.
fn values(alloc: Global, tokens: &mut VecDeque<Token>) -> Result<Option<Vec<Text>>, AllocError>
    ensures { IfOk result (λ found. option_map (λ all. (all.items, tokens.new.items)) found
        ≡ values [] tokens.old.items) }
{
    let mut all = Vec::new(alloc);
    loop {
        let Some(text) = take_value(tokens) else {
            return Ok(None);
        };
        put(&mut all, text)?;
        if take(tokens, Mark::CloseBrace) {
            return Ok(Some(all));
        }
        if !take(tokens, Mark::Comma) {
            return Ok(None);
        }
    }
}

/// Puts the text among these, which ascend, unless it is there.
fn put(all: &mut Vec<Text>, text: Text) -> Result<(), AllocError>
    ensures { OnOk result (all.new.items ≡ put_value text all.old.items) }
{
    if let Some(at) = place(all, &text) {
        all.insert(at, text)?;
    }
    Ok(())
}

/// Where the text belongs among these; none where it is there.
fn place(all: &[Text], text: &Text) -> Option<usize>
    ensures { MatchOption result (put_value text.now all.now ≡ all.now)
        (λ at. (at ≤ length all.now) × (put_value text.now all.now ≡ insert all.now at text.now)) }
{
    for at in 0..all.len() {
        match text.cmp(&all[at]) {
            Ordering::Less => return Some(at),
            Ordering::Equal => return None,
            Ordering::Greater => {}
        }
    }
    Some(all.len())
}
