//! What is counted of an answer.
ghost use Rattle.std.specs.Prelude.{◌≡◌, option_map};
ghost use Rattle.ipam_command.specs.Summary.{answer_told, freed_in};

use ipam_model::{Answer, Entry};

/// The answer that the entry has, if any.
pub(crate) fn answer_in(entry: &Entry) -> Option<&Answer>
    ensures { option_map (λ answer. answer.now) result ≡ answer_told entry.now }
{
    match entry {
        Entry::Called(called) => called.answer.as_ref(),
        Entry::Began(_, _) | Entry::Fed(_, _, _) | Entry::Stopped(_) => None,
    }
}

/// How many addresses the collection that answered freed itself.
pub(crate) fn freed_in(entry: &Entry) -> u64
    ensures { result ≡ freed_in (answer_told entry.now) }
{
    match answer_in(entry) {
        Some(Answer::Collected(found)) => {
            found
                .items
                .as_slice()
                .iter()
                .filter(|item| item.freed)
                .count() as u64
        }
        _ => 0,
    }
}
