//! GC: what the network holds on the node for no valid attachment is freed.
ghost use Rattle.std.specs.Prelude.{ℕ, ◌≡◌, ◌↔◌, IsTrue, IfOk, Some, option_map};
ghost use Rattle.ipam_model.specs.SoundRequest.{IsSoundCollect};
ghost use Rattle.cni_types.specs.Sound.{IsSoundGc};
ghost use Rattle.cni_asks.specs.Replying.{is_success, told};
ghost use Rattle.cni_asks.specs.GcAsking.{collect_of};
ghost use Rattle.cni_asks.specs.GcReplying.{CanAnswerGc, gc_reply_of};

use crate::replies::CniReply;
use crate::replying::{failure_of, told};
use cni_types::{CniGc, Version};
use ipam_model::{Answer, CollectRequest};
use ipam_text::Text;
use std::alloc::{AllocError, Global};

/// The collection that a GC begins. Its lists are made at once, so its time and its grace are 0,
/// and it is held to the network on the node.
///
/// Of a call that `look` has given the request is sound.
pub fn gc(call: &CniGc) -> Result<CollectRequest, AllocError>
    ensures asked { IfOk result (λ request. request ≡ collect_of call.now) }
    ensures sound { IsSoundGc call.now → IfOk result IsSoundCollect }
{
    let live = call.live.clone()?;
    let network = call.network.clone()?;
    let node = call.node.clone()?;
    Ok(CollectRequest {
        live,
        at: 0,
        grace: 0,
        scope: Some((network, node)),
    })
}

/// The status and the text of a GC whose collection came to this answer. Success has no text,
/// whatever was freed.
#[tactic(auto, using(crate::proofs::GcReplies::gc_has_one, crate::proofs::GcReplies::gc_success_told))]
pub fn gc_reply(alloc: Global, answer: &Answer, version: Version) -> Result<(u8, Text), AllocError>
    requires can_answer { CanAnswerGc answer.now }
    ensures told { IfOk result (λ r. option_map (told version) (gc_reply_of answer.now) ≡ Some r) }
    ensures success { IfOk result (λ r. (r.0 ≡ 0) ↔ IsTrue (is_success answer.now)) }
{
    match gc_reply_of(alloc, answer)? {
        Some(reply) => told(alloc, version, reply),
        None => unreachable!(),
    }
}

fn gc_reply_of(alloc: Global, answer: &Answer) -> Result<Option<CniReply>, AllocError>
    ensures { IfOk result (λ r. r ≡ gc_reply_of answer.now) }
{
    match answer {
        Answer::Collected(_) => Ok(Some(CniReply::Success)),
        _ => failure_of(alloc, answer),
    }
}
