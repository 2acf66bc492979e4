ghost use Rattle.std.specs.Result.{result_map_both};
ghost use Rattle.std.specs.Prelude.{◌≡◌, ◌≢◌, Ok, Err, IfOk, IfErr, OnErr, All, Some, true, option_and_then, option_map};
ghost use Rattle.std.specs.Str.{is_utf8};
ghost use Rattle.serde_json.specs.Find.{as_array};
ghost use Rattle.serde_json.specs.View.{view};
ghost use Rattle.ipam_model.specs.SoundRequest.{IsSoundChange};
ghost use Rattle.ipam_resources.specs.Documents.{IsReadable, bad, one_resource, resources_of, kind_said, json_of, object_reading, document_reading};
ghost use Rattle.ipam_resources.specs.declared.member.Member.TheVariants as member_of;
ghost use Rattle.ipam_resources.specs.Members.{found_at};
ghost use Rattle.ipam_resources.specs.Resources.{resource_in};

use crate::fault::{DOCUMENT_MAX, DocumentFault};
use crate::kind::{DocumentKind, ResourceKind};
use crate::list::{resource_in, resources_of_items};
use crate::member::{Member, Place};
use crate::members::found_at;
use crate::resource::Resource;
use ipam_text::Seq;
use serde_json::Value;
use std::alloc::{AllocError, Global};
use std::str;

/// The resources of a document, in order: a JSON object of one resource, or of a list of them.
/// Members that say nothing of addresses are passed over.
///
/// A document that is too long or no UTF-8 is refused at once, without memory.
#[tactic(auto, using(crate::proofs::SoundChanges::document_sound))]
pub fn read_resources(alloc: Global, document: &[u8]) -> Result<Seq<Resource>, DocumentFault>
    ensures read { IfOk result (λ resources. document_reading document.now ≡ Ok resources) }
    ensures refused { IfErr result
        (λ fault. fault ≢ DocumentFault.Memory → document_reading document.now ≡ Err fault) }
    ensures memory { IfErr result (λ fault. fault ≡ DocumentFault.Memory → IsReadable document.now) }
    ensures sound { IfOk result (λ resources. All (λ r. IsSoundChange r.change) resources) }
{
    match document_reading(alloc, document) {
        Ok(Ok(resources)) => Ok(Seq::of(resources)),
        Ok(Err(fault)) => Err(fault),
        Err(_) => Err(DocumentFault::Memory),
    }
}

#[tactic(auto, unfolding(crate::specs::Documents::document_reading))]
fn document_reading(
    alloc: Global,
    document: &[u8],
) -> Result<Result<Vec<Resource>, DocumentFault>, AllocError>
    ensures read { IfOk result (λ found. result_map_both (λ v. v.items) (λ fault. fault) found
        ≡ document_reading document.now) }
    ensures memory { OnErr result (IsReadable document.now) }
{
    if document.len() > DOCUMENT_MAX {
        return Ok(Err(DocumentFault::Long));
    }
    match json_of(alloc, document)? {
        Some(json) => object_reading(alloc, &json),
        None => Ok(Err(DocumentFault::NotJson)),
    }
}

/// The JSON that the bytes are the text of.
#[tactic(auto, using(crate::proofs::ValueLemmas::json_of_text, crate::proofs::ValueLemmas::json_of_bytes, crate::proofs::ValueLemmas::text_is_utf8))]
fn json_of(alloc: Global, document: &[u8]) -> Result<Option<Value>, AllocError>
    ensures found { IfOk result (λ o. option_map view o ≡ json_of document.now) }
    ensures memory { OnErr result (is_utf8 document.now ≡ true) }
{
    match str::from_utf8(document) {
        Ok(text) => ipam_json::json_of(alloc, text),
        Err(_) => Ok(None),
    }
}

fn object_reading(
    alloc: Global,
    json: &Value,
) -> Result<Result<Vec<Resource>, DocumentFault>, AllocError>
    ensures { IfOk result (λ found. result_map_both (λ v. v.items) (λ fault. fault) found
        ≡ object_reading (Some (view json.now))) }
{
    if json.as_object().is_none() {
        return Ok(Err(DocumentFault::NotJson));
    }
    match kind_said(json) {
        None => Ok(Err(bad(Member::Kind))),
        Some(DocumentKind::One(kind)) => alone(alloc, kind, json),
        Some(DocumentKind::Several) => resources_in(alloc, json),
    }
}

#[tactic(auto, unfolding(crate::specs::Documents::kind_said))]
fn kind_said(json: &Value) -> Option<DocumentKind>
    ensures { result ≡ kind_said (view json.now) }
{
    let value = found_at(json, Member::Kind)?;
    let text = value.as_str()?;
    DocumentKind::of(text)
}

fn bad(member: Member) -> DocumentFault
    ensures { result ≡ bad member }
{
    DocumentFault::Member(Place { item: None, member })
}

/// The resource that the document is.
fn alone(
    alloc: Global,
    kind: ResourceKind,
    json: &Value,
) -> Result<Result<Vec<Resource>, DocumentFault>, AllocError>
    ensures { IfOk result (λ found. result_map_both (λ v. v.items) (λ fault. fault) found
        ≡ one_resource (resource_in kind (view json.now))) }
{
    match resource_in(alloc, kind, json)? {
        Ok(resource) => {
            let mut resources = Vec::new(alloc);
            resources.push(resource)?;
            Ok(Ok(resources))
        }
        Err(member) => Ok(Err(bad(member))),
    }
}

/// The resources that the document lists.
fn resources_in(
    alloc: Global,
    json: &Value,
) -> Result<Result<Vec<Resource>, DocumentFault>, AllocError>
    ensures { IfOk result (λ found. result_map_both (λ v. v.items) (λ fault. fault) found
        ≡ resources_of (option_and_then as_array (found_at member_of.Items (view json.now)))) }
{
    match found_at(json, Member::Items).and_then(Value::as_array) {
        Some(items) => resources_of_items(alloc, items.as_slice()),
        None => Ok(Err(bad(Member::Items))),
    }
}
