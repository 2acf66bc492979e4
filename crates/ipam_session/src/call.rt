//! CNI calls of a session, from what they begin to the reply.
ghost use Rattle.std.specs.Prelude.{◌≡◌, IsTrue, IfOk, Some};
ghost use Rattle.ipam_model.specs.CanAnswer.{CanAnswer};
ghost use Rattle.cni_types.specs.Sound.{IsSoundLook};
ghost use Rattle.cni_types.specs.Texts.{error_text};
ghost use Rattle.cni_asks.specs.Asking.{is_neither_gc_nor_status};
ghost use Rattle.ipam_session.specs.Calls.{ask_of_call, begun_of, begun_at, call_begun, IsSoundBegun, IsOfCall, is_of_call, call_reply_told};

use cni_asks::{Ask, ask, gc, gc_reply, reply, status, status_reply};
use cni_types::{CniError, Look, LookFault, Version, look, push_error};
use ipam_model::{Answer, Request};
use ipam_text::Text;
use std::alloc::{AllocError, Global};

/// What a call comes to before anything runs.
#[derive(Drop)]
pub enum CallBegun {
    /// The reply is this status and this text, at once.
    Told(u8, Text),
    /// This request begins; the reply to its answer is in this version.
    Runs(Request, Version),
}

/// What a CNI call begins, with this environment and this standard input. A request that it begins
/// is sound.
#[tactic(auto, using(crate::proofs::Asked::begun_of_call), unfolding(crate::specs::Calls::call_begun))]
pub fn begin_call(alloc: Global, env: &[(Text, Text)], stdin: &str) -> Result<CallBegun, AllocError>
    ensures begun { IfOk result (λ begun. call_begun env.now stdin.now ≡ Some begun) }
    ensures sound { IfOk result IsSoundBegun }
    ensures of_call { IfOk result IsOfCall }
{
    match look(alloc, env, stdin.as_bytes()) {
        Ok(found) => begin_look(alloc, found),
        Err(LookFault::Refused(error)) => refuse(alloc, &error),
        Err(LookFault::Memory) => Err(AllocError),
    }
}

fn refuse(alloc: Global, error: &CniError) -> Result<CallBegun, AllocError>
    ensures { IfOk result (λ begun. begun ≡ CallBegun.Told 1 (error_text error.now)) }
{
    let mut text = String::new(alloc);
    push_error(alloc, &mut text, error)?;
    Ok(CallBegun::Told(1, Text::of(text)))
}

fn begin_look(alloc: Global, found: Look) -> Result<CallBegun, AllocError>
    ensures begun { IfOk result (λ begun. begun_at (Ok found) ≡ Some begun) }
    ensures sound { IsSoundLook found → IfOk result IsSoundBegun }
{
    match found {
        Look::Gc(call) => {
            let collect = gc(&call)?;
            Ok(CallBegun::Runs(Request::Collect(collect), call.version))
        }
        Look::Status(call) => {
            let probe = status(&call)?;
            Ok(CallBegun::Runs(Request::Probe(probe), call.version))
        }
        _ => begin_ask(alloc, found),
    }
}

#[tactic(auto, using(crate::proofs::Asked::neither_asked))]
fn begin_ask(alloc: Global, found: Look) -> Result<CallBegun, AllocError>
    requires { IsTrue (is_neither_gc_nor_status found) }
    ensures begun { IfOk result (λ begun. begun_at (Ok found) ≡ Some begun) }
    ensures sound { IsSoundLook found → IfOk result IsSoundBegun }
{
    match ask(alloc, found)? {
        Ask::Tell(text) => Ok(CallBegun::Told(0, text)),
        Ask::Begin(request, version) => Ok(CallBegun::Runs(request, version)),
    }
}

/// The status and the text of the reply to a call whose request came to this answer.
pub fn tell_call(
    alloc: Global,
    request: &Request,
    answer: &Answer,
    version: Version,
) -> Result<(u8, Text), AllocError>
    requires of_call { IsTrue (is_of_call request.now) }
    requires can_answer { CanAnswer request.now answer.now }
    ensures { IfOk result (λ r. call_reply_told request.now version answer.now ≡ Some r) }
{
    match request {
        Request::Collect(_) => gc_reply(alloc, answer, version),
        Request::Probe(_) => status_reply(alloc, answer, version),
        _ => reply(alloc, request, answer, version),
    }
}
