//! The words and numbers of a line.
ghost use Rattle.std.specs.Prelude.{◌≡◌, option_map};
ghost use Rattle.ipam_answer_text.specs.Words.{split_word, number_of, slot_named, turns_of};

use ipam_json::is_index;
use ipam_model::SLOTS;

/// The first word, and what stands after the space that ends it.
pub(crate) fn split_word(text: &str) -> Option<(&str, &str)>
    ensures { option_map (λ parts. (parts.0.now, parts.1.now)) result ≡ split_word text.now }
{
    text.split_once(' ')
}

/// The number that the word writes in decimal, where 64 bits hold it.
pub(crate) fn number_of(word: &str) -> Option<u64>
    ensures { result ≡ number_of word.now }
{
    if !is_index(word.as_bytes()) {
        return None;
    }
    word.parse::<u64>().ok()
}

/// The slot that the word names.
pub(crate) fn slot_of(word: &str) -> Option<u8>
    ensures { result ≡ slot_named word.now }
{
    let number = number_of(word)?;
    if number < SLOTS as u64 {
        Some(number as u8)
    } else {
        None
    }
}

/// How many turns the word says.
pub(crate) fn turns_of(word: &str) -> Option<u32>
    ensures { result ≡ turns_of word.now }
{
    let number = number_of(word)?;
    if 1 <= number && number <= 100_000 {
        Some(number as u32)
    } else {
        None
    }
}
