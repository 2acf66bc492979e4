//! The lines on resources.
ghost use Rattle.std.specs.Prelude.{◌≡◌, IfOk, OnErr, string_bytes};
ghost use Rattle.ipam_resources.specs.Printed.{applied_line, answer_refusal, refused_line};

use ipam_model::Answer;
use ipam_resources::{Refusal, Resource, push_applied, push_refused};
use std::alloc::{AllocError, Global};

/// What takes the memory for the lines on resources. What is generic over it knows nothing of it, and so can't
/// state by itself that it found none.
pub(crate) trait MakesLines {
    /// It found no memory.
    ghost wants: { Self → Type 0 };

    /// The line of a resource that is applied.
    fn applied_line(&self, resource: &Resource) -> Result<String, AllocError>
        ensures line { IfOk result (λ line. string_bytes line ≡ applied_line resource.now) }
        ensures wants { OnErr result (wants self.now) };

    /// The refusal that the answer is, where the change of a resource is answered so.
    fn refusal(&self, answer: &Answer) -> Result<Option<Refusal>, AllocError>
        ensures found { IfOk result (λ found. found ≡ answer_refusal answer.now) }
        ensures wants { OnErr result (wants self.now) };

    /// The line of a resource that is refused.
    fn refused_line(&self, resource: &Resource, refusal: &Refusal) -> Result<String, AllocError>
        ensures line { IfOk result (λ line. string_bytes line ≡ refused_line resource.now refusal.now) }
        ensures wants { OnErr result (wants self.now) };
}

impl MakesLines for Global {
    ghost wants = { λ _. Unit {0} };

    fn applied_line(&self, resource: &Resource) -> Result<String, AllocError> {
        applied_line(*self, resource)
    }

    fn refusal(&self, answer: &Answer) -> Result<Option<Refusal>, AllocError> {
        Refusal::of(answer)
    }

    fn refused_line(&self, resource: &Resource, refusal: &Refusal) -> Result<String, AllocError> {
        refused_line(*self, resource, refusal)
    }
}

fn applied_line(alloc: Global, resource: &Resource) -> Result<String, AllocError>
    ensures { IfOk result (λ line. string_bytes line ≡ applied_line resource.now) }
{
    let mut line = String::new(alloc);
    push_applied(alloc, &mut line, resource)?;
    Ok(line)
}

fn refused_line(alloc: Global, resource: &Resource, refusal: &Refusal) -> Result<String, AllocError>
    ensures { IfOk result (λ line. string_bytes line ≡ refused_line resource.now refusal.now) }
{
    let mut line = String::new(alloc);
    push_refused(alloc, &mut line, resource, refusal)?;
    Ok(line)
}
