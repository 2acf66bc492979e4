ghost use Rattle.std.specs.Prelude.{◌≡◌, ◌≢◌, ◌≤◌, [], ◌∷◌, ◌++◌, length, Err, Some, IfOk, List, map, option_map, option_and_then, bytes_eq, string_bytes, vec_len};
ghost use Rattle.std.specs.List.{list_any};
ghost use Rattle.serde_json.specs.View.{view, items_view};
ghost use Rattle.ipam_pool.specs.Shape.{ReservationValue};
ghost use Rattle.ipam_record_text.specs.Reservations.{cidr_data, reservation_data, reservations_data, reservations_body, cidr_in, cidrs_after, named_cidrs, reservation_in, may_follow, reservations_after, reservations_in, IsReservationsRecord};
ghost use Rattle.ipam_json.specs.Held.{held};

use crate::blocks::{cidr_of, cidr_text, name_at};
use crate::fault::BodyFault;
use ipam_addr::Cidr;
use ipam_json::{items_at, json_of};
use ipam_pool::{MOST_RESERVATIONS, Reservation};
use ipam_text::{Seq, Text};
use serde_json::{Value, json};
use std::alloc::{AllocError, Global};

/// The body of the reservations.
pub fn reservations_text(alloc: Global, list: &[Reservation]) -> Result<String, AllocError>
    ensures { IfOk result (λ s. string_bytes s ≡ reservations_body list.now) }
{
    let json = reservations_json(alloc, list)?;
    json.to_string(alloc)
}

#[tactic(auto, unfolding(crate::specs::Reservations::reservations_data))]
fn reservations_json(alloc: Global, list: &[Reservation]) -> Result<Value, AllocError>
    ensures { IfOk result (λ v. view v ≡ reservations_data list.now) }
{
    let items = Value::Array(reservations_list(alloc, list)?);
    json!(in alloc; {"reservations": items})
}

fn reservations_list(alloc: Global, list: &[Reservation]) -> Result<Vec<Value>, AllocError>
    ensures { IfOk result (λ items. map view items.items ≡ map reservation_data list.now) }
{
    let mut items = Vec::new(alloc);
    for reservation in list {
        let json = reservation_json(alloc, reservation)?;
        items.push(json)?;
    }
    Ok(items)
}

#[tactic(auto, unfolding(crate::specs::Reservations::reservation_data))]
fn reservation_json(alloc: Global, reservation: &Reservation) -> Result<Value, AllocError>
    ensures { IfOk result (λ v. view v ≡ reservation_data reservation.now) }
{
    let cidrs = Value::Array(cidrs_list(alloc, reservation.cidrs())?);
    let name = reservation.name();
    json!(in alloc; {"name": name, "reservedCIDRs": cidrs})
}

fn cidrs_list(alloc: Global, cidrs: &[Cidr]) -> Result<Vec<Value>, AllocError>
    ensures { IfOk result (λ items. map view items.items ≡ map cidr_data cidrs.now) }
{
    let mut items = Vec::new(alloc);
    for cidr in cidrs {
        let text = cidr_text(alloc, *cidr)?;
        items.push(Value::String(text))?;
    }
    Ok(items)
}

/// The reservations whose body this is.
pub fn reservations_of(alloc: Global, body: &str) -> Result<Seq<Reservation>, BodyFault>
    ensures read { IfOk result (λ rs. IsReservationsRecord rs × (body.now ≡ reservations_body rs)) }
    ensures form { result ≡ Err BodyFault.Form
        → (rs : List ReservationValue) → IsReservationsRecord rs → body.now ≢ reservations_body rs }
    ensures no_table { result ≢ Err BodyFault.Table }
{
    match held_reservations(alloc, body) {
        Ok(Some(reservations)) => Ok(Seq::of(reservations)),
        Ok(None) => Err(BodyFault::Form),
        Err(_) => Err(BodyFault::Memory),
    }
}

#[tactic(auto, unfolding(ipam_json::specs::Held::held))]
fn held_reservations(alloc: Global, body: &str) -> Result<Option<Vec<Reservation>>, AllocError>
    ensures { IfOk result (λ found. option_map (λ v. v.items) found
        ≡ held reservations_in reservations_body body.now) }
{
    let Some(json) = json_of(alloc, body)? else {
        return Ok(None);
    };
    let Some(list) = reservations_in(alloc, &json)? else {
        return Ok(None);
    };
    let text = reservations_text(alloc, list.as_slice())?;
    Ok((text.as_str() == body).then_some(list))
}

#[tactic(auto, unfolding(crate::specs::Reservations::reservations_in))]
fn reservations_in(alloc: Global, json: &Value) -> Result<Option<Vec<Reservation>>, AllocError>
    ensures { IfOk result
        (λ found. option_map (λ v. v.items) found ≡ reservations_in (view json.now)) }
{
    match items_at(json, "reservations") {
        Some(items) => reservations_of_items(alloc, items),
        None => Ok(None),
    }
}

fn reservations_of_items(
    alloc: Global,
    items: &[Value],
) -> Result<Option<Vec<Reservation>>, AllocError>
    ensures { IfOk result
        (λ found. option_map (λ v. v.items) found ≡ reservations_after [] (items_view items.now)) }
{
    let mut list = Vec::new(alloc);
    for item in items {
        let Some(reservation) = reservation_in(alloc, item)? else {
            return Ok(None);
        };
        if !may_follow(list.as_slice(), &reservation) {
            return Ok(None);
        }
        list.push(reservation)?;
    }
    Ok(Some(list))
}

/// Whether the reservation may stand after the others.
#[tactic(auto, unfolding(crate::specs::Reservations::may_follow))]
fn may_follow(list: &[Reservation], reservation: &Reservation) -> bool
    ensures { result ≡ may_follow list.now reservation.now }
{
    list.len() < MOST_RESERVATIONS && !has_name(list, reservation.name())
}

fn has_name(list: &[Reservation], name: &str) -> bool
    ensures { result ≡ list_any (λ other. bytes_eq name.now other.name) list.now }
{
    list.iter().any(|other| name == other.name())
}

#[tactic(auto, unfolding(crate::specs::Reservations::reservation_in, crate::specs::Reservations::named_cidrs))]
fn reservation_in(alloc: Global, json: &Value) -> Result<Option<Reservation>, AllocError>
    ensures { IfOk result (λ found. found ≡ reservation_in (view json.now)) }
{
    let Some(name) = name_at(json, "name") else {
        return Ok(None);
    };
    let Some(items) = items_at(json, "reservedCIDRs") else {
        return Ok(None);
    };
    let Some(cidrs) = cidrs_in(alloc, items)? else {
        return Ok(None);
    };
    let name = Text::copied(alloc, name)?;
    Ok(Reservation::new(name, Seq::of(cidrs)).ok())
}

fn cidrs_in(alloc: Global, items: &[Value]) -> Result<Option<Vec<Cidr>>, AllocError>
    ensures { IfOk result
        (λ found. option_map (λ v. v.items) found ≡ cidrs_after [] (items_view items.now)) }
{
    let mut cidrs = Vec::new(alloc);
    for item in items {
        let Some(cidr) = cidr_in(item) else {
            return Ok(None);
        };
        cidrs.push(cidr)?;
    }
    Ok(Some(cidrs))
}

/// The CIDR whose text the JSON is.
#[tactic(auto, unfolding(crate::specs::Reservations::cidr_in))]
pub fn cidr_in(value: &Value) -> Option<Cidr>
    ensures { result ≡ cidr_in (view value.now) }
{
    let text = value.as_str()?;
    cidr_of(text)
}
