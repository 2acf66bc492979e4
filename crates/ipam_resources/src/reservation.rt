ghost use Rattle.std.specs.Prelude.{◌≡◌, IfOk};
ghost use Rattle.std.specs.Option.{ok_or};
ghost use Rattle.serde_json.specs.View.{view};
ghost use Rattle.ipam_resources.specs.declared.member.Member.TheVariants as member_of;
ghost use Rattle.ipam_resources.specs.Members.{required};
ghost use Rattle.ipam_resources.specs.Values.{ranges_in};
ghost use Rattle.ipam_record_text.specs.Reservations.{named_cidrs};
ghost use Rattle.ipam_resources.specs.Resources.{reservation_reading, reservation_resource, reservation_resource_in};

use crate::kind::ResourceKind;
use crate::member::Member;
use crate::members::{found_at, required_name};
use crate::ranges::ranges_in;
use crate::resource::Resource;
use ipam_addr::Cidr;
use ipam_model::Admin;
use ipam_pool::Reservation;
use ipam_text::{Seq, Text};
use serde_json::Value;
use std::alloc::{AllocError, Global};

/// The resource, where it is that of a reservation, or its first bad member.
#[tactic(auto, unfolding(crate::specs::Resources::reservation_resource_in))]
pub(crate) fn reservation_in(
    alloc: Global,
    json: &Value,
) -> Result<Result<Resource, Member>, AllocError>
    ensures { IfOk result (λ found. found ≡ reservation_resource_in (view json.now)) }
{
    match reservation_reading(alloc, json)? {
        Ok(reservation) => {
            let resource = reservation_resource(alloc, reservation)?;
            Ok(Ok(resource))
        }
        Err(member) => Ok(Err(member)),
    }
}

fn reservation_resource(alloc: Global, reservation: Reservation) -> Result<Resource, AllocError>
    ensures { IfOk result (λ r. r ≡ reservation_resource reservation) }
{
    let name = Text::copied(alloc, reservation.name())?;
    Ok(Resource {
        kind: ResourceKind::Reservation,
        name,
        change: Admin::Reserve(reservation),
    })
}

#[tactic(auto, unfolding(crate::specs::Resources::reservation_reading))]
fn reservation_reading(
    alloc: Global,
    json: &Value,
) -> Result<Result<Reservation, Member>, AllocError>
    ensures { IfOk result (λ found. found ≡ reservation_reading (view json.now)) }
{
    let name = match required_name(json, Member::Name) {
        Ok(name) => name,
        Err(member) => return Ok(Err(member)),
    };
    let ranges = match ranges_at(alloc, json)? {
        Ok(ranges) => ranges,
        Err(member) => return Ok(Err(member)),
    };
    let name = Text::copied(alloc, name)?;
    Ok(named(name, ranges))
}

/// The reservation of this name and these ranges, unless they are too many.
#[tactic(auto, unfolding(ipam_record_text::specs::Reservations::named_cidrs))]
fn named(name: Text, ranges: Seq<Cidr>) -> Result<Reservation, Member>
    ensures { result ≡ ok_or (named_cidrs name ranges) member_of.ReservedCidrs }
{
    match Reservation::new(name, ranges) {
        Ok(reservation) => Ok(reservation),
        Err(_) => Err(Member::ReservedCidrs),
    }
}

#[tactic(auto, unfolding(crate::specs::Members::required))]
fn ranges_at(alloc: Global, json: &Value) -> Result<Result<Seq<Cidr>, Member>, AllocError>
    ensures { IfOk result
        (λ found. found ≡ required ranges_in member_of.ReservedCidrs (view json.now)) }
{
    match found_at(json, Member::ReservedCidrs) {
        Some(value) => ranges_of(alloc, value),
        None => Ok(Err(Member::ReservedCidrs)),
    }
}

fn ranges_of(alloc: Global, json: &Value) -> Result<Result<Seq<Cidr>, Member>, AllocError>
    ensures { IfOk result
        (λ found. found ≡ ok_or (ranges_in (view json.now)) member_of.ReservedCidrs) }
{
    match ranges_in(alloc, json)? {
        Some(ranges) => Ok(Ok(Seq::of(ranges))),
        None => Ok(Err(Member::ReservedCidrs)),
    }
}
