ghost use Rattle.std.specs.Prelude.{◌≡◌, IfOk, option_map, nat_lt};
ghost use Rattle.ipam_select.specs.Formula.{formula, is, among, contains, starts, ends};
ghost use Rattle.ipam_select.specs.Reading.{operator, operator_word, operand, negated, compared, called, has_key, call_or_key, behind_mark, if_word, parse_map, set, value};
ghost use Rattle.ipam_select.specs.declared.token.Mark.TheVariants.{Open};

use crate::front::{next, take, take_value, take_word};
use crate::selector::Selector;
use crate::token::{Mark, Operator, Token};
use crate::values::set;
use ipam_text::Text;
use std::alloc::{AllocError, Global};
use std::collections::VecDeque;

/// What begins with this word: `all()`, `has(KEY)` or a comparison of a key.
pub(crate) fn worded(
    alloc: Global,
    tokens: &mut VecDeque<Token>,
    word: Text,
    depth: usize,
) -> Result<Option<Selector>, AllocError>
    ensures { IfOk result (λ found. option_map (λ s. (formula s, tokens.new.items)) found
        ≡ call_or_key (nat_lt 0 depth) word tokens.old.items (behind_mark Open tokens.old.items)) }
{
    if take(tokens, Mark::Open) {
        Ok(called(tokens, &word))
    } else {
        compared(alloc, tokens, word, depth)
    }
}

/// What follows a word and its parenthesis.
fn called(tokens: &mut VecDeque<Token>, word: &Text) -> Option<Selector>
    ensures { option_map (λ s. (formula s, tokens.new.items)) result
        ≡ called word.now tokens.old.items }
{
    if word.as_str() == "all" {
        if take(tokens, Mark::Close) {
            Some(Selector::All)
        } else {
            None
        }
    } else if word.as_str() == "has" {
        has_key(tokens)
    } else {
        None
    }
}

fn has_key(tokens: &mut VecDeque<Token>) -> Option<Selector>
    ensures { option_map (λ s. (formula s, tokens.new.items)) result ≡ has_key tokens.old.items }
{
    match next(tokens)? {
        Token::Word(key) => {
            if take(tokens, Mark::Close) {
                Some(Selector::Has(key))
            } else {
                None
            }
        }
        _ => None,
    }
}

/// The comparison of this key that the tokens begin with. A negative one takes one of the
/// levels of `!` that are left, `depth`.
fn compared(
    alloc: Global,
    tokens: &mut VecDeque<Token>,
    key: Text,
    depth: usize,
) -> Result<Option<Selector>, AllocError>
    ensures { IfOk result (λ found. option_map (λ s. (formula s, tokens.new.items)) found
        ≡ compared (nat_lt 0 depth) key tokens.old.items) }
{
    let Some(operator) = take_operator(tokens) else {
        return Ok(None);
    };
    if operator.is_negative() {
        negated(alloc, tokens, key, operator, depth)
    } else {
        operand(alloc, tokens, key, operator)
    }
}

fn negated(
    alloc: Global,
    tokens: &mut VecDeque<Token>,
    key: Text,
    operator: Operator,
    depth: usize,
) -> Result<Option<Selector>, AllocError>
    ensures { IfOk result (λ found. option_map (λ s. (formula s, tokens.new.items)) found
        ≡ negated (nat_lt 0 depth) (operand key operator tokens.old.items)) }
{
    if depth == 0 {
        return Ok(None);
    }
    let Some(selector) = operand(alloc, tokens, key, operator)? else {
        return Ok(None);
    };
    Ok(Some(Selector::Not(Box::new(alloc, selector)?)))
}

/// The value or the values after an operator.
fn operand(
    alloc: Global,
    tokens: &mut VecDeque<Token>,
    key: Text,
    operator: Operator,
) -> Result<Option<Selector>, AllocError>
    ensures { IfOk result (λ found. option_map (λ s. (formula s, tokens.new.items)) found
        ≡ operand key operator tokens.old.items) }
{
    match operator {
        Operator::Equals | Operator::Differs => Ok(is_value(tokens, key)),
        Operator::OneOf | Operator::NoneOf => in_values(alloc, tokens, key),
        Operator::Contains => Ok(contains_part(tokens, key)),
        Operator::Starts => Ok(starts_with(tokens, key)),
        Operator::Ends => Ok(ends_with(tokens, key)),
    }
}

fn in_values(
    alloc: Global,
    tokens: &mut VecDeque<Token>,
    key: Text,
) -> Result<Option<Selector>, AllocError>
    ensures { IfOk result (λ found. option_map (λ s. (formula s, tokens.new.items)) found
        ≡ parse_map (among key) (set tokens.old.items)) }
{
    let Some(values) = set(alloc, tokens)? else {
        return Ok(None);
    };
    Ok(Some(Selector::In(key, values)))
}

fn is_value(tokens: &mut VecDeque<Token>, key: Text) -> Option<Selector>
    ensures { option_map (λ s. (formula s, tokens.new.items)) result
        ≡ parse_map (is key) (value tokens.old.items) }
{
    let value = take_value(tokens)?;
    Some(Selector::Is(key, value))
}

fn contains_part(tokens: &mut VecDeque<Token>, key: Text) -> Option<Selector>
    ensures { option_map (λ s. (formula s, tokens.new.items)) result
        ≡ parse_map (contains key) (value tokens.old.items) }
{
    let part = take_value(tokens)?;
    Some(Selector::Contains(key, part))
}

fn starts_with(tokens: &mut VecDeque<Token>, key: Text) -> Option<Selector>
    ensures { option_map (λ s. (formula s, tokens.new.items)) result
        ≡ parse_map (starts key) (value tokens.old.items) }
{
    let part = take_value(tokens)?;
    Some(Selector::Starts(key, part))
}

fn ends_with(tokens: &mut VecDeque<Token>, key: Text) -> Option<Selector>
    ensures { option_map (λ s. (formula s, tokens.new.items)) result
        ≡ parse_map (ends key) (value tokens.old.items) }
{
    let part = take_value(tokens)?;
    Some(Selector::Ends(key, part))
}

/// What stands between a key and its values.
fn take_operator(tokens: &mut VecDeque<Token>) -> Option<Operator>
    ensures { option_map (λ found. (found, tokens.new.items)) result ≡ operator tokens.old.items }
{
    match next(tokens)? {
        Token::Word(word) => operator_of_word(tokens, word.as_str()),
        Token::Mark(mark) => mark.operator(),
        Token::Quoted(_) => None,
    }
}

fn operator_of_word(tokens: &mut VecDeque<Token>, word: &str) -> Option<Operator>
    ensures { option_map (λ found. (found, tokens.new.items)) result
        ≡ operator_word word.now tokens.old.items }
{
    if word == "in" {
        Some(Operator::OneOf)
    } else if word == "contains" {
        Some(Operator::Contains)
    } else if word == "not" {
        if_next(tokens, "in", Operator::NoneOf)
    } else if word == "starts" {
        if_next(tokens, "with", Operator::Starts)
    } else if word == "ends" {
        if_next(tokens, "with", Operator::Ends)
    } else {
        None
    }
}

/// The operator, where this word is the next token.
fn if_next(tokens: &mut VecDeque<Token>, word: &str, operator: Operator) -> Option<Operator>
    ensures { option_map (λ found. (found, tokens.new.items)) result
        ≡ if_word word.now operator tokens.old.items }
{
    if take_word(tokens, word) {
        Some(operator)
    } else {
        None
    }
}
