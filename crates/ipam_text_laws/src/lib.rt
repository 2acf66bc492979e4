//! Laws of texts: of answers and records, of journals, and of the lines of sessions.
#![tactic(auto)]

pub mod answers;
pub mod journal_lines;
pub mod sessions;
