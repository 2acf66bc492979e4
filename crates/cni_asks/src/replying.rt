//! The reply to an answer.
ghost use Rattle.std.specs.Prelude.{ℕ, [], ◌≡◌, ◌↔◌, IsTrue, IfOk, OnErr, Some, option_map};
ghost use Rattle.ipam_addr.specs.Text.{address_text, cidr_text_of};
ghost use Rattle.ipam_model.specs.CanAnswer.{CanAnswer};
ghost use Rattle.cni_types.specs.Texts.{error_text, result_text};
ghost use Rattle.cni_asks.specs.declared.replies.CniReply.TheVariants.{Failure};
ghost use Rattle.cni_asks.specs.Replying.{family_name, limit_text, failure_of, has_details, addresses_of, reply_to_add, reply_to_this, reply_to_del, reply_to_check, is_of_container, is_success, cni_reply_of, told};

use crate::replies::CniReply;
use cni_types::{CniError, Code, Version, push_error, push_result};
use ipam_addr::{Addr, Cidr, Family, push_addr, push_cidr};
use ipam_model::{Answer, Given, LOST_RACES_MAX, Request};
use ipam_text::{Seq, Text};
use std::alloc::{AllocError, Global};

/// The status and the text of a call whose request came to this answer: 0 on success, and 1 with
/// an error, which has the code of its cause.
#[tactic(auto, using(crate::proofs::AllReplies::each_has_one, crate::proofs::AllReplies::success_told))]
pub fn reply(
    alloc: Global,
    request: &Request,
    answer: &Answer,
    version: Version,
) -> Result<(u8, Text), AllocError>
    requires of_container { IsTrue (is_of_container request.now) }
    requires can_answer { CanAnswer request.now answer.now }
    ensures told { IfOk result
        (λ r. option_map (told version) (cni_reply_of request.now answer.now) ≡ Some r) }
    ensures success { IfOk result (λ r. (r.0 ≡ 0) ↔ IsTrue (is_success answer.now)) }
{
    match reply_of(alloc, request, answer)? {
        Some(reply) => told(alloc, version, reply),
        None => unreachable!(),
    }
}

/// The status and the text of a reply, in a version.
pub fn told(alloc: Global, version: Version, reply: CniReply) -> Result<(u8, Text), AllocError>
    ensures { IfOk result (λ r. r ≡ told version reply) }
{
    match reply {
        CniReply::Addresses(addresses) => Ok((0, result_text(alloc, version, &addresses)?)),
        CniReply::Success => Ok((0, Text::of(String::new(alloc)))),
        CniReply::Failure(code, details) => Ok((1, error_text(alloc, version, code, details)?)),
    }
}

fn result_text(alloc: Global, version: Version, addresses: &Seq<Addr>) -> Result<Text, AllocError>
    ensures { IfOk result (λ text. text ≡ result_text version addresses.now) }
{
    let mut text = String::new(alloc);
    push_result(alloc, &mut text, version, addresses.as_slice())?;
    Ok(Text::of(text))
}

fn error_text(
    alloc: Global,
    version: Version,
    code: Code,
    details: Text,
) -> Result<Text, AllocError>
    ensures { IfOk result (λ text. text
        ≡ error_text (record { version = version; code = code; details = details })) }
{
    let error = CniError {
        version,
        code,
        details,
    };
    let mut text = String::new(alloc);
    push_error(alloc, &mut text, &error)?;
    Ok(Text::of(text))
}

fn reply_of(
    alloc: Global,
    request: &Request,
    answer: &Answer,
) -> Result<Option<CniReply>, AllocError>
    ensures { IfOk result (λ r. r ≡ cni_reply_of request.now answer.now) }
{
    match request {
        Request::Add(_) => reply_to_add(alloc, answer),
        Request::AddThis(_, address) => reply_to_this(alloc, *address, answer),
        Request::Del(_) => reply_to_del(alloc, answer),
        Request::Check(_, _) => reply_to_check(alloc, answer),
        Request::Release(_, _) | Request::Collect(_) | Request::Admin(_) | Request::Probe(_) => Ok(
            None,
        ),
    }
}

fn reply_to_add(alloc: Global, answer: &Answer) -> Result<Option<CniReply>, AllocError>
    ensures { IfOk result (λ r. r ≡ reply_to_add answer.now) }
{
    match answer {
        Answer::Added(given) => {
            let addresses = addresses_of(alloc, given.as_slice())?;
            Ok(Some(CniReply::Addresses(addresses)))
        }
        _ => failure_of(alloc, answer),
    }
}

fn addresses_of(alloc: Global, given: &[Given]) -> Result<Seq<Addr>, AllocError>
    ensures { IfOk result (λ addresses. addresses ≡ addresses_of given.now) }
{
    let mut addresses = Vec::new(alloc);
    for one in given {
        addresses.push(one.address)?;
    }
    Ok(Seq::of(addresses))
}

fn reply_to_this(
    alloc: Global,
    address: Addr,
    answer: &Answer,
) -> Result<Option<CniReply>, AllocError>
    ensures { IfOk result (λ r. r ≡ reply_to_this address answer.now) }
{
    match answer {
        Answer::AddedThis(given) => {
            let addresses = vec![in alloc; given.address]?;
            Ok(Some(CniReply::Addresses(Seq::of(addresses))))
        }
        Answer::NotInPool(_) => about_address(alloc, Code::NotUsable, address),
        _ => failure_of(alloc, answer),
    }
}

fn reply_to_del(alloc: Global, answer: &Answer) -> Result<Option<CniReply>, AllocError>
    ensures { IfOk result (λ r. r ≡ reply_to_del answer.now) }
{
    match answer {
        Answer::Deleted(_) => Ok(Some(CniReply::Success)),
        _ => failure_of(alloc, answer),
    }
}

fn reply_to_check(alloc: Global, answer: &Answer) -> Result<Option<CniReply>, AllocError>
    ensures { IfOk result (λ r. r ≡ reply_to_check answer.now) }
{
    match answer {
        Answer::Checked => Ok(Some(CniReply::Success)),
        _ => failure_of(alloc, answer),
    }
}

/// The failure of an answer that has one reply whatever was asked, if it is one. Only details take memory: a failure
/// without them can't want it.
pub fn failure_of(alloc: Global, answer: &Answer) -> Result<Option<CniReply>, AllocError>
    ensures told { IfOk result (λ r. r ≡ failure_of answer.now) }
    ensures want_of_memory { OnErr result (IsTrue (has_details answer.now)) }
{
    match answer {
        Answer::Exhausted(scan) => failure(alloc, Code::NoAddress, family_name(scan.family)),
        Answer::NoPool(name, _) => failure(alloc, Code::NoSuchPool, name.as_str()),
        Answer::Taken(holder, _) => failure(alloc, Code::AddressTaken, holder.as_str()),
        Answer::NotAffine(cidr, _) => about_cidr(alloc, Code::NotAffine, *cidr),
        Answer::NotRecorded(address, _) => about_address(alloc, Code::NotRecorded, *address),
        Answer::Again(lost, _) => failure(alloc, Code::TryAgain, limit_text(*lost)),
        Answer::Full => Ok(Some(bare(alloc, Code::DatastoreFull))),
        Answer::CountFull(_) => Ok(Some(bare(alloc, Code::HandleCountFull))),
        Answer::Spent => Ok(Some(bare(alloc, Code::RevisionsSpent))),
        Answer::Fault => failure(alloc, Code::InputOutput, "keeper"),
        _ => Ok(None),
    }
}

/// A failure without details.
fn bare(alloc: Global, code: Code) -> CniReply
    ensures { result ≡ Failure code [] }
{
    CniReply::Failure(code, Text::of(String::new(alloc)))
}

fn failure(alloc: Global, code: Code, details: &str) -> Result<Option<CniReply>, AllocError>
    ensures { IfOk result (λ r. r ≡ Some (Failure code details.now)) }
{
    Ok(Some(CniReply::Failure(code, Text::copied(alloc, details)?)))
}

fn about_address(alloc: Global, code: Code, address: Addr) -> Result<Option<CniReply>, AllocError>
    ensures { IfOk result (λ r. r ≡ Some (Failure code (address_text address))) }
{
    let mut details = String::new(alloc);
    push_addr(alloc, &mut details, address)?;
    Ok(Some(CniReply::Failure(code, Text::of(details))))
}

fn about_cidr(alloc: Global, code: Code, cidr: Cidr) -> Result<Option<CniReply>, AllocError>
    ensures { IfOk result (λ r. r ≡ Some (Failure code (cidr_text_of cidr))) }
{
    let mut details = String::new(alloc);
    push_cidr(alloc, &mut details, cidr)?;
    Ok(Some(CniReply::Failure(code, Text::of(details))))
}

/// The name of the family in the details of an error: `IPv4` or `IPv6`.
pub fn family_name(family: Family) -> &'static str
    ensures { result.now ≡ family_name family }
{
    match family {
        Family::V4 => "IPv4",
        Family::V6 => "IPv6",
    }
}

/// Which of the two limits was reached, of a request that lost so many races.
fn limit_text(lost: u32) -> &'static str
    ensures { result.now ≡ limit_text lost }
{
    if lost == LOST_RACES_MAX {
        "64 lost races"
    } else {
        "64 claims"
    }
}
