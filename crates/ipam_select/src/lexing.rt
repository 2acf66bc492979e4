ghost use Rattle.std.specs.Prelude.{◌≡◌, ◌<◌, ◌≤◌, ◌∷◌, IfOk, option_map, length, Some, None, if◌then◌else◌};
ghost use Rattle.std.specs.Str.{is_utf8};
ghost use Rattle.ipam_select.specs.Words.{is_key_byte, is_blank, is_value};
ghost use Rattle.ipam_select.specs.Lexing.{in_class, run_len, after_blanks, is_at, is_quote, identifier, quoted, bang, single, double, marked, first_token, tokens};

use crate::limits::{LABEL_KEY_BYTES_MAX, LABEL_VALUE_BYTES_MAX};
use crate::token::{Mark, Token};
use ipam_text::Text;
use std::alloc::{AllocError, Global};
use std::collections::VecDeque;

#[derive(Clone, Copy)]
pub(crate) enum Class {
    /// Spaces and tabs.
    Blank,
    /// The characters of a key.
    Key,
    /// All that may stand before this quote.
    Before(u8),
}

impl Class {
    fn has(self, byte: u8) -> bool
        ensures { result ≡ in_class self byte }
    {
        match self {
            Class::Blank => byte == b' ' || byte == b'\t',
            Class::Key => is_key_byte(byte),
            Class::Before(quote) => byte != quote,
        }
    }
}

/// A letter or digit, `_`, `.`, `-` or `/`.
pub(crate) fn is_key_byte(byte: u8) -> bool
    ensures { result ≡ is_key_byte byte }
{
    byte.is_ascii_alphanumeric() || byte == b'_' || byte == b'.' || byte == b'-' || byte == b'/'
}

/// How many bytes at the front are of the class.
fn run_len(text: &[u8], class: Class) -> usize
    ensures value { result ≡ run_len (in_class class) text.now }
    ensures bound { result ≤ length text.now }
{
    let mut count = 0;
    for byte in text {
        if !class.has(*byte) {
            return count;
        }
        count += 1;
    }
    count
}

/// The tokens of a text; none where a part of it is no token.
pub(crate) fn tokens(alloc: Global, text: &[u8]) -> Result<Option<VecDeque<Token>>, AllocError>
    ensures { IfOk result (λ found. option_map (λ ts. ts.items) found ≡ tokens text.now) }
{
    let mut all = VecDeque::new(alloc);
    let mut rest = after_blanks(text);
    while !rest.is_empty() {
        let Some((token, after)) = first_token(alloc, rest)? else {
            return Ok(None);
        };
        all.push_back(token)?;
        rest = after_blanks(after);
    }
    Ok(Some(all))
}

fn after_blanks(text: &[u8]) -> &[u8]
    ensures { result.now ≡ after_blanks text.now }
{
    &text[run_len(text, Class::Blank)..]
}

/// The token at the front, where no blank stands, and what follows it.
fn first_token(alloc: Global, text: &[u8]) -> Result<Option<(Token, &[u8])>, AllocError>
    ensures { IfOk result (λ found. option_map (λ f. (f.0, f.1.now)) found ≡ first_token text.now) }
{
    let Some(first) = text.first() else {
        return Ok(None);
    };
    let rest = &text[1..];
    if is_key_byte(*first) {
        identifier(alloc, text)
    } else if is_quote(*first) {
        quoted(alloc, rest, *first)
    } else if *first == b'!' {
        Ok(Some(bang(rest)))
    } else {
        Ok(marked(*first, rest))
    }
}

fn is_quote(byte: u8) -> bool
    ensures { result ≡ is_quote byte }
{
    byte == b'\'' || byte == b'"'
}

fn identifier(alloc: Global, text: &[u8]) -> Result<Option<(Token, &[u8])>, AllocError>
    ensures { IfOk result (λ found. option_map (λ f. (f.0, f.1.now)) found
        ≡ identifier (run_len is_key_byte text.now) text.now) }
{
    let count = run_len(text, Class::Key);
    if count > LABEL_KEY_BYTES_MAX {
        return Ok(None);
    }
    let Some(text_of) = copied(alloc, &text[..count])? else {
        return Ok(None);
    };
    Ok(Some((Token::Word(text_of), &text[count..])))
}

/// What follows an opening quote, up to the closing one.
fn quoted(alloc: Global, text: &[u8], quote: u8) -> Result<Option<(Token, &[u8])>, AllocError>
    ensures { IfOk result (λ found. option_map (λ f. (f.0, f.1.now)) found
        ≡ quoted (run_len (in_class (Class.Before quote)) text.now) text.now) }
{
    let count = run_len(text, Class::Before(quote));
    if count >= text.len() || count > LABEL_VALUE_BYTES_MAX {
        return Ok(None);
    }
    let Some(value) = copied(alloc, &text[..count])? else {
        return Ok(None);
    };
    Ok(Some((Token::Quoted(value), &text[count + 1..])))
}

/// A copy of these bytes, where they are UTF-8.
fn copied(alloc: Global, bytes: &[u8]) -> Result<Option<Text>, AllocError>
    ensures { IfOk result (λ found. found ≡ (if is_utf8 bytes.now then Some bytes.now else None)) }
{
    match str::from_utf8(bytes) {
        Ok(text) => Ok(Some(Text::copied(alloc, text)?)),
        Err(_) => Ok(None),
    }
}

fn is_at(byte: u8, text: &[u8]) -> bool
    ensures { result ≡ is_at byte text.now }
{
    match text {
        [first, ..] => *first == byte,
        [] => false,
    }
}

/// `!=`, or `!`.
fn bang(text: &[u8]) -> (Token, &[u8])
    ensures { (result.0, result.1.now) ≡ bang text.now }
{
    if is_at(b'=', text) {
        (Token::Mark(Mark::Unequal), &text[1..])
    } else {
        (Token::Mark(Mark::Bang), text)
    }
}

/// The token that begins with this byte, and what follows it.
fn marked(first: u8, text: &[u8]) -> Option<(Token, &[u8])>
    ensures { option_map (λ f. (f.0, f.1.now)) result ≡ marked first text.now (single first) }
{
    if let Some(mark) = single(first) {
        return Some((Token::Mark(mark), text));
    }
    let mark = double(first)?;
    if is_at(first, text) {
        Some((Token::Mark(mark), &text[1..]))
    } else {
        None
    }
}

/// The token of one byte.
fn single(byte: u8) -> Option<Mark>
    ensures { result ≡ single byte }
{
    match byte {
        b'(' => Some(Mark::Open),
        b')' => Some(Mark::Close),
        b'{' => Some(Mark::OpenBrace),
        b'}' => Some(Mark::CloseBrace),
        b',' => Some(Mark::Comma),
        _ => None,
    }
}

/// The token that is this byte twice.
fn double(byte: u8) -> Option<Mark>
    ensures { result ≡ double byte }
{
    match byte {
        b'=' => Some(Mark::Equal),
        b'&' => Some(Mark::Ands),
        b'|' => Some(Mark::Bars),
        _ => None,
    }
}
