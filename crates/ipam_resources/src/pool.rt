ghost use Rattle.std.specs.Result.{result_map_both};
ghost use Rattle.std.specs.Prelude.{◌≡◌, IfOk};
ghost use Rattle.std.specs.Option.{ok_or};
ghost use Rattle.serde_json.specs.View.{view};
ghost use Rattle.ipam_select.specs.Formula.{every};
ghost use Rattle.ipam_pool.specs.declared.pools.Mode.TheVariants.{Automatic};
ghost use Rattle.ipam_resources.specs.declared.member.Member.TheVariants as member_of;
ghost use Rattle.ipam_resources.specs.Members.{optional};
ghost use Rattle.ipam_resources.specs.Values.{size_in, uses_in, mode_value_in, selector_value_in, default_size};
ghost use Rattle.ipam_resources.specs.Resources.{plain_pool, mode_at, pool_reading, pool_resource, pool_resource_in};

use crate::kind::ResourceKind;
use crate::member::Member;
use crate::members::{found_at, required_cidr, required_name, truth_or};
use crate::resource::Resource;
use crate::values::{mode_in, selector_in, size_in, uses_in};
use ipam_addr::{Cidr, Family};
use ipam_model::Admin;
use ipam_pool::{Mode, Pool};
use ipam_select::NodeSelector;
use ipam_text::Text;
use serde_json::Value;
use std::alloc::{AllocError, Global};

/// The resource, where it is that of a pool, or its first bad member.
#[tactic(auto, unfolding(crate::specs::Resources::pool_resource_in))]
pub(crate) fn pool_in(alloc: Global, json: &Value) -> Result<Result<Resource, Member>, AllocError>
    ensures { IfOk result (λ found. found ≡ pool_resource_in (view json.now)) }
{
    match pool_reading(alloc, json)? {
        Ok(pool) => {
            let resource = pool_resource(pool)?;
            Ok(Ok(resource))
        }
        Err(member) => Ok(Err(member)),
    }
}

fn pool_resource(pool: Pool) -> Result<Resource, AllocError>
    ensures { IfOk result (λ r. r ≡ pool_resource pool) }
{
    let name = pool.name.clone()?;
    Ok(Resource {
        kind: ResourceKind::Pool,
        name,
        change: Admin::Pool(pool),
    })
}

#[tactic(auto, unfolding(crate::specs::Resources::pool_reading))]
fn pool_reading(alloc: Global, json: &Value) -> Result<Result<Pool, Member>, AllocError>
    ensures { IfOk result (λ found. found ≡ pool_reading (view json.now)) }
{
    let (name, cidr, size, disabled) = match plain_pool(json) {
        Ok(plain) => plain,
        Err(member) => return Ok(Err(member)),
    };
    let selector = match selector_at(alloc, json)? {
        Ok(selector) => selector,
        Err(member) => return Ok(Err(member)),
    };
    let mode = match mode_at(json) {
        Ok(mode) => mode,
        Err(member) => return Ok(Err(member)),
    };
    let name = Text::copied(alloc, name)?;
    Ok(Ok(Pool {
        name,
        cidr,
        size,
        disabled,
        mode,
        selector,
    }))
}

/// The name, the CIDR, the size of its slots and whether it is disabled.
#[tactic(auto, unfolding(crate::specs::Resources::plain_pool))]
fn plain_pool(json: &Value) -> Result<(&str, Cidr, u8, bool), Member>
    ensures { result_map_both
        (λ p. record { name = p.0.now; cidr = p.1; size = p.2; disabled = p.3; mode = Automatic; selector = every })
        (λ m. m) result
        ≡ plain_pool (view json.now) }
{
    let name = required_name(json, Member::Name)?;
    let cidr = required_cidr(json, Member::Cidr)?;
    let size = size_or(json, default_size(cidr.family()), Member::BlockSize)?;
    let disabled = truth_or(json, false, Member::Disabled)?;
    Ok((name, cidr, size, disabled))
}

/// The prefix length of a pool's slots where the resource states none.
fn default_size(family: Family) -> u8
    ensures { result ≡ default_size family }
{
    match family {
        Family::V4 => 26,
        Family::V6 => 122,
    }
}

#[tactic(auto, unfolding(crate::specs::Members::optional))]
fn size_or(json: &Value, default: u8, member: Member) -> Result<u8, Member>
    ensures { result ≡ optional size_in default member (view json.now) }
{
    match found_at(json, member) {
        None => Ok(default),
        Some(value) => size_in(value).ok_or(member),
    }
}

#[tactic(auto, unfolding(crate::specs::Members::optional))]
fn selector_at(alloc: Global, json: &Value) -> Result<Result<NodeSelector, Member>, AllocError>
    ensures { IfOk result
        (λ found. found ≡ optional selector_value_in every member_of.NodeSelector (view json.now)) }
{
    match found_at(json, Member::NodeSelector) {
        None => Ok(Ok(NodeSelector::all(alloc))),
        Some(value) => selector_of(alloc, value),
    }
}

fn selector_of(alloc: Global, json: &Value) -> Result<Result<NodeSelector, Member>, AllocError>
    ensures { IfOk result
        (λ found. found ≡ ok_or (selector_value_in (view json.now)) member_of.NodeSelector) }
{
    match selector_in(alloc, json)? {
        Some(selector) => Ok(Ok(selector)),
        None => Ok(Err(Member::NodeSelector)),
    }
}

/// The mode of a pool that is for workloads.
#[tactic(auto, unfolding(crate::specs::Resources::mode_at))]
fn mode_at(json: &Value) -> Result<Mode, Member>
    ensures { result ≡ mode_at (view json.now) }
{
    uses_at(json)?;
    mode_or(json, Mode::Automatic, Member::AssignmentMode)
}

#[tactic(auto, unfolding(crate::specs::Members::optional))]
fn uses_at(json: &Value) -> Result<(), Member>
    ensures { result ≡ optional uses_in tt member_of.AllowedUses (view json.now) }
{
    match found_at(json, Member::AllowedUses) {
        None => Ok(()),
        Some(value) => uses_in(value).ok_or(Member::AllowedUses),
    }
}

#[tactic(auto, unfolding(crate::specs::Members::optional))]
fn mode_or(json: &Value, default: Mode, member: Member) -> Result<Mode, Member>
    ensures { result ≡ optional mode_value_in default member (view json.now) }
{
    match found_at(json, member) {
        None => Ok(default),
        Some(value) => mode_in(value).ok_or(member),
    }
}
