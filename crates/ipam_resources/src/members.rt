//! Reading the members of a resource.
ghost use Rattle.std.specs.Result.{result_map_both};
ghost use Rattle.std.specs.Prelude.{◌≡◌, option_map};
ghost use Rattle.serde_json.specs.Find.{as_bool};
ghost use Rattle.serde_json.specs.View.{view};
ghost use Rattle.ipam_record_text.specs.Reservations.{cidr_in};
ghost use Rattle.ipam_resources.specs.Naming.{part_of};
ghost use Rattle.ipam_resources.specs.Members.{part_in, found_at, required, optional};
ghost use Rattle.ipam_resources.specs.Values.{name_in};

use crate::member::Member;
use crate::values::name_in;
use ipam_addr::Cidr;
use ipam_record_text::cidr_in;
use serde_json::Value;

/// What stands at the member's path.
#[tactic(auto, unfolding(crate::specs::Members::found_at))]
pub(crate) fn found_at(json: &Value, member: Member) -> Option<&Value>
    ensures { option_map (λ v. view v.now) result ≡ found_at member (view json.now) }
{
    let part = part_in(json, member)?;
    part.get(member.name())
}

/// What the member stands in.
fn part_in(json: &Value, member: Member) -> Option<&Value>
    ensures { option_map (λ v. view v.now) result ≡ part_in (part_of member) (view json.now) }
{
    match member.part() {
        None => Some(json),
        Some(part) => json.get(part),
    }
}

/// The name, which must be there.
#[tactic(auto, unfolding(crate::specs::Members::required))]
pub(crate) fn required_name(json: &Value, member: Member) -> Result<&str, Member>
    ensures { result_map_both (λ t. t.now) (λ m. m) result
        ≡ required name_in member (view json.now) }
{
    match found_at(json, member).and_then(name_in) {
        Some(name) => Ok(name),
        None => Err(member),
    }
}

/// The CIDR, which must be there.
#[tactic(auto, unfolding(crate::specs::Members::required))]
pub(crate) fn required_cidr(json: &Value, member: Member) -> Result<Cidr, Member>
    ensures { result ≡ required cidr_in member (view json.now) }
{
    match found_at(json, member).and_then(|value| cidr_in(value)) {
        Some(cidr) => Ok(cidr),
        None => Err(member),
    }
}

/// The `true` or `false`, or the default where it is missing.
#[tactic(auto, unfolding(crate::specs::Members::optional))]
pub(crate) fn truth_or(json: &Value, default: bool, member: Member) -> Result<bool, Member>
    ensures { result ≡ optional as_bool default member (view json.now) }
{
    match found_at(json, member) {
        None => Ok(default),
        Some(value) => value.as_bool().ok_or(member),
    }
}
