//! STATUS: whether an ADD could be served.
ghost use Rattle.std.specs.Prelude.{ℕ, ◌≡◌, ◌↔◌, IsTrue, IfOk, Some, option_map};
ghost use Rattle.ipam_model.specs.SoundRequest.{IsSoundProbe};
ghost use Rattle.cni_types.specs.declared.code.Code.TheVariants.{NotAvailable};
ghost use Rattle.cni_types.specs.Sound.{IsSoundStatus};
ghost use Rattle.cni_asks.specs.declared.replies.CniReply.TheVariants.{Failure};
ghost use Rattle.cni_asks.specs.Replying.{is_success, told};
ghost use Rattle.cni_asks.specs.GcAsking.{probe_of};
ghost use Rattle.cni_asks.specs.GcReplying.{CanAnswerStatus, status_reply_of};

use crate::replies::CniReply;
use crate::replying::{failure_of, family_name, told};
use cni_types::{CniStatus, Code, Version};
use ipam_model::{Answer, ProbeRequest};
use ipam_text::Text;
use std::alloc::{AllocError, Global};

/// The probe that a STATUS begins.
///
/// Of a call that `look` has given the request is sound.
#[tactic(auto, using(crate::proofs::SoundProbe::copy_sound))]
pub fn status(call: &CniStatus) -> Result<ProbeRequest, AllocError>
    ensures asked { IfOk result (λ request. request ≡ probe_of call.now) }
    ensures sound { IsSoundStatus call.now → IfOk result IsSoundProbe }
{
    probe_of(call)
}

fn probe_of(call: &CniStatus) -> Result<ProbeRequest, AllocError>
    ensures { IfOk result (λ request. request ≡ probe_of call.now) }
{
    let node = call.node.clone()?;
    let labels = call.labels.clone()?;
    let pools4 = call.pools4.clone()?;
    let pools6 = call.pools6.clone()?;
    Ok(ProbeRequest {
        node,
        labels,
        ipv4: call.ipv4,
        ipv6: call.ipv6,
        pools4,
        pools6,
    })
}

/// The status and the text of a STATUS whose probe came to this answer. Where no address could be
/// given the code is 112, and it is about the family or about the name that no pool has.
#[tactic(auto, using(crate::proofs::GcReplies::status_has_one, crate::proofs::GcReplies::status_success_told))]
pub fn status_reply(
    alloc: Global,
    answer: &Answer,
    version: Version,
) -> Result<(u8, Text), AllocError>
    requires can_answer { CanAnswerStatus answer.now }
    ensures told { IfOk result
        (λ r. option_map (told version) (status_reply_of answer.now) ≡ Some r) }
    ensures success { IfOk result (λ r. (r.0 ≡ 0) ↔ IsTrue (is_success answer.now)) }
{
    match status_reply_of(alloc, answer)? {
        Some(reply) => told(alloc, version, reply),
        None => unreachable!(),
    }
}

fn status_reply_of(alloc: Global, answer: &Answer) -> Result<Option<CniReply>, AllocError>
    ensures { IfOk result (λ r. r ≡ status_reply_of answer.now) }
{
    match answer {
        Answer::Ready(_) => Ok(Some(CniReply::Success)),
        Answer::Exhausted(scan) => not_available(alloc, family_name(scan.family)),
        Answer::NoPool(name, _) => not_available(alloc, name.as_str()),
        _ => failure_of(alloc, answer),
    }
}

fn not_available(alloc: Global, details: &str) -> Result<Option<CniReply>, AllocError>
    ensures { IfOk result (λ r. r ≡ Some (Failure NotAvailable details.now)) }
{
    let details = Text::copied(alloc, details)?;
    Ok(Some(CniReply::Failure(Code::NotAvailable, details)))
}
