//! The texts that a call ends with.
ghost use Rattle.std.specs.Prelude.{◌≡◌, IfOk, OnErr, Some, option_map};
ghost use Rattle.ipam_model.specs.CanAnswer.{CanAnswer};
ghost use Rattle.cni_asks.specs.Replying.{told};
ghost use Rattle.cni_types.specs.Texts.{error_text};
ghost use Rattle.ipam_command.specs.Replies.{IsOfCall, bad_details, reply_to};

use crate::cni_asking::reply_to;
use cni_types::{CniError, Version, push_error};
use ipam_model::{Answer, Request};
use ipam_text::Text;
use std::alloc::{AllocError, Global};

/// What takes the memory for the texts that a call ends with. What is generic over it knows nothing of it, and
/// so can't state by itself that it found none.
pub(crate) trait MakesTexts {
    /// It found no memory.
    ghost wants: { Self → Type 0 };

    /// The status and the text of a call whose request came to this answer.
    fn reply(
        &self,
        request: &Request,
        answer: &Answer,
        version: Version,
    ) -> Result<(u8, Text), AllocError>
        requires of_call { IsOfCall request.now }
        requires can_answer { CanAnswer request.now answer.now }
        ensures told { IfOk result (λ r. option_map (told version) (reply_to request.now answer.now) ≡ Some r) }
        ensures wants { OnErr result (wants self.now) };

    /// The status and the text of this error.
    fn error_reply(&self, error: &CniError) -> Result<(u8, Text), AllocError>
        ensures told { IfOk result (λ r. r ≡ (1, error_text error.now)) }
        ensures wants { OnErr result (wants self.now) };

    /// The rule that rows break, and the key that breaks it.
    fn details(&self, number: u8, about: &str) -> Result<Text, AllocError>
        ensures told { IfOk result (λ details. details ≡ bad_details number about.now) }
        ensures wants { OnErr result (wants self.now) };
}

impl MakesTexts for Global {
    ghost wants = { λ _. Unit {0} };

    fn reply(
        &self,
        request: &Request,
        answer: &Answer,
        version: Version,
    ) -> Result<(u8, Text), AllocError> {
        reply_to(*self, request, answer, version)
    }

    fn error_reply(&self, error: &CniError) -> Result<(u8, Text), AllocError> {
        error_reply(*self, error)
    }

    fn details(&self, number: u8, about: &str) -> Result<Text, AllocError> {
        bad_details(*self, number, about)
    }
}

/// The rule that is broken, and the key that breaks it.
#[tactic(auto, unfolding(crate::specs::Replies::bad_details))]
fn bad_details(alloc: Global, number: u8, about: &str) -> Result<Text, AllocError>
    ensures { IfOk result (λ details. details ≡ bad_details number about.now) }
{
    Ok(Text::of(format!(in alloc; "OR{number} {about}")?))
}

fn error_reply(alloc: Global, error: &CniError) -> Result<(u8, Text), AllocError>
    ensures { IfOk result (λ r. r ≡ (1, error_text error.now)) }
{
    let mut text = String::new(alloc);
    push_error(alloc, &mut text, error)?;
    Ok((1, Text::of(text)))
}
