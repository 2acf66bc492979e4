ghost use Rattle.std.specs.Prelude.{◌≡◌, ◌∷◌, ◌⊎◌, [], Option, Some, None, true, false, IfOk, MatchOption, MatchBool, option_map, is_some, length};
ghost use Rattle.ipam_select.specs.Reading.{behind_mark, after_word, value};

use crate::token::{Mark, Token};
use ipam_text::Text;
use std::collections::VecDeque;

/// Takes the token in front.
pub(crate) fn next(tokens: &mut VecDeque<Token>) -> Option<Token>
    ensures { MatchOption result (tokens.old.items ≡ []) (λ token. tokens.old.items ≡ token ∷ tokens.new.items) }
{
    tokens.pop_front()
}

/// Whether this token stands in front.
pub(crate) fn is_at(tokens: &VecDeque<Token>, mark: Mark) -> bool
    ensures { result ≡ is_some (behind_mark mark tokens.now.items) }
{
    match tokens.front() {
        Some(token) => token.is_mark(mark),
        None => false,
    }
}

/// Takes this token, where it stands in front.
pub(crate) fn take(tokens: &mut VecDeque<Token>, mark: Mark) -> bool
    ensures { MatchBool result (behind_mark mark tokens.old.items ≡ Some tokens.new.items)
        ((behind_mark mark tokens.old.items ≡ None) × (tokens.new.items ≡ tokens.old.items)) }
{
    if is_at(tokens, mark) {
        drop(next(tokens));
        true
    } else {
        false
    }
}

/// Takes a word, which has to be this one.
pub(crate) fn take_word(tokens: &mut VecDeque<Token>, word: &str) -> bool
    ensures { MatchBool result (after_word word.now tokens.old.items ≡ Some tokens.new.items)
        (after_word word.now tokens.old.items ≡ None) }
{
    let Some(token) = next(tokens) else {
        return false;
    };
    match token {
        Token::Word(found) => found.as_str() == word,
        _ => false,
    }
}

/// Takes a value.
pub(crate) fn take_value(tokens: &mut VecDeque<Token>) -> Option<Text>
    ensures { option_map (λ text. (text, tokens.new.items)) result ≡ value tokens.old.items }
{
    match next(tokens)? {
        Token::Quoted(text) => Some(text),
        _ => None,
    }
}
