//! The resources of a list, item by item.
ghost use Rattle.std.specs.Result.{result_map_both};
ghost use Rattle.std.specs.Prelude.{◌≡◌, [], IfOk};
ghost use Rattle.std.specs.Option.{ok_or};
ghost use Rattle.serde_json.specs.View.{view, items_view};
ghost use Rattle.ipam_resources.specs.declared.member.Member.TheVariants as member_of;
ghost use Rattle.ipam_resources.specs.Members.{required};
ghost use Rattle.ipam_resources.specs.Resources.{resource_in, kind_in, item_in};
ghost use Rattle.ipam_resources.specs.Documents.{resources_after, bad_in_item};

use crate::config::config_in;
use crate::fault::DocumentFault;
use crate::kind::ResourceKind;
use crate::member::{Member, Place};
use crate::members::found_at;
use crate::pool::pool_in;
use crate::reservation::reservation_in;
use crate::resource::Resource;
use serde_json::Value;
use std::alloc::{AllocError, Global};

/// The resources that the items are, or the fault of the first that is none.
pub(crate) fn resources_of_items(
    alloc: Global,
    items: &[Value],
) -> Result<Result<Vec<Resource>, DocumentFault>, AllocError>
    ensures { IfOk result (λ found. result_map_both (λ v. v.items) (λ fault. fault) found
        ≡ resources_after [] (items_view items.now)) }
{
    let mut resources = Vec::new(alloc);
    for item in items {
        match item_in(alloc, item)? {
            Ok(resource) => resources.push(resource)?,
            Err(member) => return Ok(Err(bad_in_item(resources.len(), member))),
        }
    }
    Ok(Ok(resources))
}

fn bad_in_item(index: usize, member: Member) -> DocumentFault
    ensures { result ≡ bad_in_item index member }
{
    DocumentFault::Member(Place {
        item: Some(index),
        member,
    })
}

#[tactic(auto, unfolding(crate::specs::Resources::item_in))]
fn item_in(alloc: Global, json: &Value) -> Result<Result<Resource, Member>, AllocError>
    ensures { IfOk result (λ found. found ≡ item_in (view json.now)) }
{
    match kind_at(json) {
        Ok(kind) => resource_in(alloc, kind, json),
        Err(member) => Ok(Err(member)),
    }
}

#[tactic(auto, unfolding(crate::specs::Members::required))]
fn kind_at(json: &Value) -> Result<ResourceKind, Member>
    ensures { result ≡ required kind_in member_of.Kind (view json.now) }
{
    match found_at(json, Member::Kind).and_then(kind_in) {
        Some(kind) => Ok(kind),
        None => Err(Member::Kind),
    }
}

#[tactic(auto, unfolding(crate::specs::Resources::kind_in))]
fn kind_in(json: &Value) -> Option<ResourceKind>
    ensures { result ≡ kind_in (view json.now) }
{
    let text = json.as_str()?;
    ResourceKind::of(text)
}

/// The resource of this kind, or its first bad member.
pub(crate) fn resource_in(
    alloc: Global,
    kind: ResourceKind,
    json: &Value,
) -> Result<Result<Resource, Member>, AllocError>
    ensures { IfOk result (λ found. found ≡ resource_in kind (view json.now)) }
{
    match kind {
        ResourceKind::Pool => pool_in(alloc, json),
        ResourceKind::Reservation => reservation_in(alloc, json),
        ResourceKind::Config => config_in(alloc, kind, json),
        ResourceKind::Configuration => config_in(alloc, kind, json),
    }
}
