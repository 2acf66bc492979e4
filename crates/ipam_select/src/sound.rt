ghost use Rattle.std.specs.Prelude.{◌≡◌, ◌^◌, ◌-◌, min, length, nat_lt, if◌then◌else◌, ◌&&◌};
ghost use Rattle.std.specs.List.{list_all};
ghost use Rattle.ipam_select.specs.Formula.{formula, formulas};
ghost use Rattle.ipam_select.specs.Words.{is_key, is_key_byte};
ghost use Rattle.ipam_select.specs.Printing.{printed, needs_parentheses};
ghost use Rattle.ipam_select.specs.Sound.{is_quotable, fits_quotes, ascends, are_several, is_formed, is_member_formed, are_formed, is_sound};

use crate::lexing::is_key_byte;
use crate::limits::{LABEL_KEY_BYTES_MAX, LABEL_VALUE_BYTES_MAX};
use crate::printing::lacks;
use crate::reading::DEPTH_MAX;
use crate::selector::Selector;
use ipam_text::Text;
use std::cmp::Ordering;

impl Selector {
    /// Keys, values and members are as they are read, and the printed form nests `!` and
    /// parentheses at most so deep.
    #[cycle(formed)]
    pub(crate) fn is_formed(&self, depth: usize) -> bool
        ensures { result ≡ is_formed depth (formula self.now) }
    {
        match self {
            Selector::All => true,
            Selector::Has(key) => is_key(key),
            Selector::Is(key, value) => is_key(key) && is_quotable(value),
            Selector::Not(member) => depth > 0 && is_member_formed(member, true, depth - 1),
            Selector::In(key, values) => is_key(key) && are_quotable(values) && ascends(values),
            Selector::Contains(key, part) => is_key(key) && is_quotable(part),
            Selector::Starts(key, part) => is_key(key) && is_quotable(part),
            Selector::Ends(key, part) => is_key(key) && is_quotable(part),
            Selector::And(members) => are_several(members) && are_formed(members, true, depth),
            Selector::Or(members) => are_several(members) && are_formed(members, false, depth),
        }
    }
}

#[cycle(formed)]
fn is_member_formed(member: &Selector, tight: bool, depth: usize) -> bool
    ensures { result ≡ is_member_formed tight depth (formula member.now) }
{
    if member.needs_parentheses(tight) {
        depth > 0 && member.is_formed(depth - 1)
    } else {
        member.is_formed(depth)
    }
}

#[cycle(formed)]
fn are_formed(members: &[Selector], tight: bool, depth: usize) -> bool
    ensures { result ≡ are_formed tight depth (formulas members.now) }
{
    for member in members {
        if !is_member_formed(member, tight, depth) {
            return false;
        }
    }
    true
}

fn is_key(key: &Text) -> bool
    ensures { result ≡ is_key key.now }
{
    let bytes = key.as_bytes();
    !bytes.is_empty() && bytes.len() <= LABEL_KEY_BYTES_MAX && are_key_bytes(bytes)
}

fn are_key_bytes(bytes: &[u8]) -> bool
    ensures { result ≡ list_all is_key_byte bytes.now }
{
    bytes.iter().all(|byte| is_key_byte(*byte))
}

fn is_quotable(value: &Text) -> bool
    ensures { result ≡ is_quotable value.now }
{
    let text = value.as_str();
    let bytes = text.as_bytes();
    bytes.len() <= LABEL_VALUE_BYTES_MAX && fits_quotes(bytes)
}

/// Whether a kind of quote isn't in the value.
fn fits_quotes(value: &[u8]) -> bool
    ensures { result ≡ fits_quotes value.now }
{
    lacks(value, b'\'') || lacks(value, b'"')
}

fn are_several(members: &[Selector]) -> bool
    ensures { result ≡ are_several (formulas members.now) }
{
    members.len() > 1
}

fn are_quotable(values: &[Text]) -> bool
    ensures { result ≡ list_all is_quotable values.now }
{
    values.iter().all(|value| is_quotable(value))
}

fn ascends(values: &[Text]) -> bool
    ensures { result ≡ ascends values.now }
{
    for i in 1..values.len() {
        if values[i - 1].cmp(&values[i]) != Ordering::Less {
            return false;
        }
    }
    true
}
