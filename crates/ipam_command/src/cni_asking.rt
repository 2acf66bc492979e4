//! What a call begins, and which reply its answer becomes.
ghost use Rattle.std.specs.Prelude.{◌≡◌, IfOk, IsTrue, Some, option_map};
ghost use Rattle.ipam_model.specs.CanAnswer.{CanAnswer};
ghost use Rattle.cni_types.specs.Sound.{IsSoundGc, IsSoundLook, IsSoundStatus};
ghost use Rattle.cni_asks.specs.Asking.{IsSoundAsk, is_neither_gc_nor_status};
ghost use Rattle.cni_asks.specs.Replying.{told};
ghost use Rattle.ipam_command.specs.Replies.{IsOfCall, begun_by, reply_to};

use cni_asks::{Ask, ask, gc, gc_reply, reply, status, status_reply};
use cni_types::{CniGc, CniStatus, Look, Version};
use ipam_model::{Answer, Request};
use ipam_text::Text;
use std::alloc::{AllocError, Global};

/// What the call begins.
///
/// Of a call that `look` has given the request is sound.
pub(crate) fn begun_by(alloc: Global, look: Look) -> Result<Ask, AllocError>
    ensures begun { IfOk result (λ begun. begun ≡ begun_by look) }
    ensures sound { IsSoundLook look → IfOk result IsSoundAsk }
{
    match look {
        Look::Gc(call) => begun_gc(&call),
        Look::Status(call) => begun_status(&call),
        _ => begun_ask(alloc, look),
    }
}

#[tactic(auto, using(crate::proofs::Begun::same_begun))]
fn begun_ask(alloc: Global, look: Look) -> Result<Ask, AllocError>
    requires { IsTrue (is_neither_gc_nor_status look) }
    ensures begun { IfOk result (λ begun. begun ≡ begun_by look) }
    ensures sound { IsSoundLook look → IfOk result IsSoundAsk }
{
    ask(alloc, look)
}

fn begun_gc(call: &CniGc) -> Result<Ask, AllocError>
    ensures begun { IfOk result (λ begun. begun ≡ begun_by (Look.Gc call.now)) }
    ensures sound { IsSoundGc call.now → IfOk result IsSoundAsk }
{
    let collect = gc(call)?;
    Ok(Ask::Begin(Request::Collect(collect), call.version))
}

fn begun_status(call: &CniStatus) -> Result<Ask, AllocError>
    ensures begun { IfOk result (λ begun. begun ≡ begun_by (Look.Status call.now)) }
    ensures sound { IsSoundStatus call.now → IfOk result IsSoundAsk }
{
    let probe = status(call)?;
    Ok(Ask::Begin(Request::Probe(probe), call.version))
}

/// The status and the text of a call whose request came to this answer.
pub(crate) fn reply_to(
    alloc: Global,
    request: &Request,
    answer: &Answer,
    version: Version,
) -> Result<(u8, Text), AllocError>
    requires of_call { IsOfCall request.now }
    requires can_answer { CanAnswer request.now answer.now }
    ensures told { IfOk result (λ r. option_map (told version) (reply_to request.now answer.now) ≡ Some r) }
{
    match request {
        Request::Collect(_) => gc_reply(alloc, answer, version),
        Request::Probe(_) => status_reply(alloc, answer, version),
        _ => reply(alloc, request, answer, version),
    }
}
