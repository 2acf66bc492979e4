ghost use Rattle.std.specs.Result.{result_map_both};
ghost use Rattle.std.specs.Prelude.{◌≡◌, codes, IfOk};
ghost use Rattle.serde_json.specs.View.{view};
ghost use Rattle.ipam_resources.specs.declared.member.Member.TheVariants as member_of;
ghost use Rattle.ipam_resources.specs.Members.{optional};
ghost use Rattle.ipam_resources.specs.Values.{name_in, bound_in};
ghost use Rattle.ipam_resources.specs.Resources.{settings_reading, config_name, config_resource, config_resource_in};

use crate::kind::ResourceKind;
use crate::member::Member;
use crate::members::{found_at, truth_or};
use crate::resource::Resource;
use crate::values::{bound_in, name_in};
use ipam_model::Admin;
use ipam_records::Config;
use ipam_text::Text;
use serde_json::Value;
use std::alloc::{AllocError, Global};

/// The resource, where it is that of a configuration, or its first bad member.
#[tactic(auto, unfolding(crate::specs::Resources::config_resource_in))]
pub(crate) fn config_in(
    alloc: Global,
    kind: ResourceKind,
    json: &Value,
) -> Result<Result<Resource, Member>, AllocError>
    ensures { IfOk result (λ found. found ≡ config_resource_in kind (view json.now)) }
{
    let config = match config_reading(json) {
        Ok(config) => config,
        Err(member) => return Ok(Err(member)),
    };
    let name = match config_name(json) {
        Ok(name) => name,
        Err(member) => return Ok(Err(member)),
    };
    let name = Text::copied(alloc, name)?;
    Ok(Ok(config_resource(kind, config, name)))
}

fn config_resource(kind: ResourceKind, config: Config, name: Text) -> Resource
    ensures { result ≡ config_resource kind config name }
{
    Resource {
        kind,
        name,
        change: Admin::Config(config),
    }
}

#[tactic(auto, unfolding(crate::specs::Resources::settings_reading))]
fn config_reading(json: &Value) -> Result<Config, Member>
    ensures { result ≡ settings_reading (view json.now) }
{
    let strict = truth_or(json, false, Member::StrictAffinity)?;
    let auto = truth_or(json, true, Member::AutoAllocateBlocks)?;
    let max_blocks = bound_or(json, 0, Member::MaxBlocksPerHost)?;
    Ok(Config {
        strict,
        auto,
        max_blocks,
    })
}

#[tactic(auto, unfolding(crate::specs::Members::optional))]
fn bound_or(json: &Value, default: u32, member: Member) -> Result<u32, Member>
    ensures { result ≡ optional bound_in default member (view json.now) }
{
    match found_at(json, member) {
        None => Ok(default),
        Some(value) => bound_in(value).ok_or(member),
    }
}

/// The name of the configuration: `default` where the resource states none.
#[tactic(auto, unfolding(crate::specs::Resources::config_name, crate::specs::Members::optional))]
fn config_name(json: &Value) -> Result<&str, Member>
    ensures { result_map_both (λ t. t.now) (λ m. m) result ≡ config_name (view json.now) }
{
    match found_at(json, Member::Name) {
        None => Ok("default"),
        Some(value) => name_in(value).ok_or(Member::Name),
    }
}
