//! The line about rows that break a rule.
ghost use Rattle.std.specs.Prelude.{◌≡◌, IfOk, string_bytes};
ghost use Rattle.ipam_shared.specs.Broken.{broken_line};

use std::alloc::{AllocError, Global};

/// The line for rows that break this one of the rules for rows that are opened, and first at this key.
#[tactic(auto, unfolding(crate::specs::Broken::broken_line))]
pub fn broken_line(alloc: Global, number: u8, about: &str) -> Result<String, AllocError>
    ensures { IfOk result (λ line. string_bytes line ≡ broken_line number about.now) }
{
    format!(in alloc; "datastore OR{number} {about}\n")
}
