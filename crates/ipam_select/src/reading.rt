ghost use Rattle.std.specs.Prelude.{◌≡◌, IfOk, Some, option_map};
ghost use Rattle.ipam_select.specs.Formula.{formula, formulas, conjunction, disjunction};
ghost use Rattle.ipam_select.specs.Reading.{literal, chain_with, choice_with, one_or, after_mark, closed, whole, reading};
ghost use Rattle.ipam_select.specs.declared.token.Mark.TheVariants.{Bang, Open};

use crate::comparing::worded;
use crate::front::{next, take};
use crate::lexing::tokens;
use crate::selector::Selector;
use crate::token::{Mark, Token};
use std::alloc::{AllocError, Global};
use std::collections::VecDeque;

/// How deep `!` and parentheses may nest.
pub(crate) const DEPTH_MAX: usize = 32;

/// The selector that a text is read as, whatever its length.
pub(crate) fn reading(alloc: Global, text: &[u8]) -> Result<Option<Selector>, AllocError>
    ensures { IfOk result (λ found. option_map formula found ≡ reading text.now) }
{
    let Some(tokens) = tokens(alloc, text)? else {
        return Ok(None);
    };
    whole(alloc, tokens)
}

/// The selector that all the tokens make.
fn whole(alloc: Global, mut tokens: VecDeque<Token>) -> Result<Option<Selector>, AllocError>
    ensures { IfOk result (λ found. option_map formula found ≡ whole tokens.items) }
{
    if tokens.is_empty() {
        return Ok(Some(Selector::All));
    }
    let Some(selector) = choice(alloc, &mut tokens, DEPTH_MAX)? else {
        return Ok(None);
    };
    if tokens.is_empty() {
        Ok(Some(selector))
    } else {
        Ok(None)
    }
}

/// One chain, or several joined by `||`, with `!` and `(` at most so deep.
#[cycle(reading)]
fn choice(
    alloc: Global,
    tokens: &mut VecDeque<Token>,
    depth: usize,
) -> Result<Option<Selector>, AllocError>
    ensures { IfOk result (λ found. option_map (λ s. (formula s, tokens.new.items)) found
        ≡ choice_with (literal depth) tokens.old.items) }
{
    let mut members = Vec::new(alloc);
    loop {
        let Some(member) = chain(alloc, tokens, depth)? else {
            return Ok(None);
        };
        members.push(member)?;
        if !take(tokens, Mark::Bars) {
            return Ok(Some(one_or_any(members)));
        }
    }
}

/// One literal, or several joined by `&&`.
#[cycle(reading)]
fn chain(
    alloc: Global,
    tokens: &mut VecDeque<Token>,
    depth: usize,
) -> Result<Option<Selector>, AllocError>
    ensures { IfOk result (λ found. option_map (λ s. (formula s, tokens.new.items)) found
        ≡ chain_with (literal depth) tokens.old.items) }
{
    let mut members = Vec::new(alloc);
    loop {
        let Some(member) = literal(alloc, tokens, depth)? else {
            return Ok(None);
        };
        members.push(member)?;
        if !take(tokens, Mark::Ands) {
            return Ok(Some(one_or_all(members)));
        }
    }
}

/// A negation, a group or what is asked of one key.
#[cycle(reading)]
fn literal(
    alloc: Global,
    tokens: &mut VecDeque<Token>,
    depth: usize,
) -> Result<Option<Selector>, AllocError>
    ensures { IfOk result (λ found. option_map (λ s. (formula s, tokens.new.items)) found
        ≡ literal depth tokens.old.items) }
{
    let Some(token) = next(tokens) else {
        return Ok(None);
    };
    match token {
        Token::Word(word) => worded(alloc, tokens, word, depth),
        Token::Mark(mark) => marked(alloc, tokens, mark, depth),
        Token::Quoted(_) => Ok(None),
    }
}

/// What begins with this mark.
#[cycle(reading)]
fn marked(
    alloc: Global,
    tokens: &mut VecDeque<Token>,
    mark: Mark,
    depth: usize,
) -> Result<Option<Selector>, AllocError>
    ensures { IfOk result (λ found. option_map (λ s. (formula s, tokens.new.items)) found
        ≡ after_mark depth mark tokens.old.items) }
{
    match mark {
        Mark::Bang => negation(alloc, tokens, depth),
        Mark::Open => group(alloc, tokens, depth),
        _ => Ok(None),
    }
}

/// What stands after `!`.
#[cycle(reading)]
fn negation(
    alloc: Global,
    tokens: &mut VecDeque<Token>,
    depth: usize,
) -> Result<Option<Selector>, AllocError>
    ensures { IfOk result (λ found. option_map (λ s. (formula s, tokens.new.items)) found
        ≡ after_mark depth Bang tokens.old.items) }
{
    if depth == 0 {
        return Ok(None);
    }
    let Some(member) = literal(alloc, tokens, depth - 1)? else {
        return Ok(None);
    };
    Ok(Some(Selector::Not(Box::new(alloc, member)?)))
}

/// What stands in parentheses, after the opening one.
#[cycle(reading)]
fn group(
    alloc: Global,
    tokens: &mut VecDeque<Token>,
    depth: usize,
) -> Result<Option<Selector>, AllocError>
    ensures { IfOk result (λ found. option_map (λ s. (formula s, tokens.new.items)) found
        ≡ after_mark depth Open tokens.old.items) }
{
    if depth == 0 {
        return Ok(None);
    }
    let Some(inner) = choice(alloc, tokens, depth - 1)? else {
        return Ok(None);
    };
    Ok(close(tokens, inner))
}

/// What stood in parentheses, with the closing one.
fn close(tokens: &mut VecDeque<Token>, inner: Selector) -> Option<Selector>
    ensures { option_map (λ s. (formula s, tokens.new.items)) result
        ≡ closed (Some (formula inner, tokens.old.items)) }
{
    if take(tokens, Mark::Close) {
        Some(inner)
    } else {
        None
    }
}

/// The conjunction of the members. One member stands for itself.
fn one_or_all(mut members: Vec<Selector>) -> Selector
    ensures { formula result ≡ one_or conjunction (formulas members.items) }
{
    if members.len() == 1 {
        return members.remove(0);
    }
    Selector::And(members)
}

/// The disjunction of the members. One member stands for itself.
fn one_or_any(mut members: Vec<Selector>) -> Selector
    ensures { formula result ≡ one_or disjunction (formulas members.items) }
{
    if members.len() == 1 {
        return members.remove(0);
    }
    Selector::Or(members)
}
