//! The requests that objects of each shape hold, sound or not.
ghost use Rattle.std.specs.Prelude.{◌≡◌, IfOk};
ghost use Rattle.serde_json.specs.View.{view};
ghost use Rattle.ipam_request_text.specs.Reading.{probe_in, add_in, any_add_in, check_in, release_in, disable_in, reserve_in, shaped_in};

use crate::fields::{
    address_in, addresses_of, cidr_at, cidrs_of, mode_or, number_or_0, pairs_or_none, scope_or,
    selector_or, small_at, texts_in, texts_or_none, truth_or, whole_or_0,
};
use crate::shape::Shape;
use ipam_block::Attributes;
use ipam_json::{items_at, text_at, truth_at};
use ipam_model::{AddRequest, Admin, CollectRequest, ProbeRequest, Request};
use ipam_pool::{Pool, Reservation};
use ipam_records::Config;
use ipam_text::{Seq, Text};
use serde_json::Value;
use std::alloc::{AllocError, Global};

/// The request that an object of this shape holds.
pub(crate) fn shaped_in(
    alloc: Global,
    shape: Shape,
    value: &Value,
) -> Result<Option<Request>, AllocError>
    ensures { IfOk result (λ found. found ≡ shaped_in shape (view value.now)) }
{
    match shape {
        Shape::Add => any_add_in(alloc, value),
        Shape::Del => del_in(alloc, value),
        Shape::Check => check_in(alloc, value),
        Shape::Release => release_in(alloc, value),
        Shape::Collect => collect_in(alloc, value),
        Shape::Probe => asked_probe_in(alloc, value),
        Shape::Pool => pool_in(alloc, value),
        Shape::Disable => disable_in(alloc, value),
        Shape::Reserve => reserve_in(alloc, value),
        Shape::Unreserve => unreserve_in(alloc, value),
        Shape::Config => Ok(config_in(value)),
        Shape::Scope => Ok(None),
    }
}

/// The ADD of the address that the object asks for, or of any where it asks for none.
#[tactic(auto, unfolding(crate::specs::Reading::any_add_in))]
fn any_add_in(alloc: Global, value: &Value) -> Result<Option<Request>, AllocError>
    ensures { IfOk result (λ found. found ≡ any_add_in (view value.now)) }
{
    let Some(add) = add_in(alloc, value)? else {
        return Ok(None);
    };
    let Some(asked) = value.get("address") else {
        return Ok(Some(Request::Add(add)));
    };
    match address_in(asked) {
        Some(address) => Ok(Some(Request::AddThis(add, address))),
        None => Ok(None),
    }
}

#[tactic(auto, unfolding(crate::specs::Reading::add_in))]
fn add_in(alloc: Global, value: &Value) -> Result<Option<AddRequest>, AllocError>
    ensures { IfOk result (λ found. found ≡ add_in (view value.now)) }
{
    let Some(probe) = probe_in(alloc, value)? else {
        return Ok(None);
    };
    let Some(handle) = text_at(value, "handle") else {
        return Ok(None);
    };
    let Some(secondary) = pairs_or_none(alloc, value, "secondary")? else {
        return Ok(None);
    };
    let handle = Text::copied(alloc, handle)?;
    let ProbeRequest {
        node,
        labels,
        ipv4,
        ipv6,
        pools4,
        pools6,
    } = probe;
    Ok(Some(AddRequest {
        node,
        attributes: Attributes { handle, secondary },
        ipv4,
        ipv6,
        labels,
        pools4,
        pools6,
    }))
}

fn asked_probe_in(alloc: Global, value: &Value) -> Result<Option<Request>, AllocError>
    ensures { IfOk result (λ found. found ≡ shaped_in Shape.Probe (view value.now)) }
{
    match probe_in(alloc, value)? {
        Some(probe) => Ok(Some(Request::Probe(probe))),
        None => Ok(None),
    }
}

#[tactic(auto, unfolding(crate::specs::Reading::probe_in))]
fn probe_in(alloc: Global, value: &Value) -> Result<Option<ProbeRequest>, AllocError>
    ensures { IfOk result (λ found. found ≡ probe_in (view value.now)) }
{
    let Some(ipv4) = truth_or(value, "ipv4", true) else {
        return Ok(None);
    };
    let Some(ipv6) = truth_or(value, "ipv6", false) else {
        return Ok(None);
    };
    let Some(node) = text_at(value, "node") else {
        return Ok(None);
    };
    let Some(labels) = pairs_or_none(alloc, value, "labels")? else {
        return Ok(None);
    };
    let Some(pools4) = texts_or_none(alloc, value, "pools4")? else {
        return Ok(None);
    };
    let Some(pools6) = texts_or_none(alloc, value, "pools6")? else {
        return Ok(None);
    };
    let node = Text::copied(alloc, node)?;
    Ok(Some(ProbeRequest {
        node,
        labels,
        ipv4,
        ipv6,
        pools4,
        pools6,
    }))
}

fn del_in(alloc: Global, value: &Value) -> Result<Option<Request>, AllocError>
    ensures { IfOk result (λ found. found ≡ shaped_in Shape.Del (view value.now)) }
{
    match text_at(value, "handle") {
        Some(id) => Ok(Some(Request::Del(Text::copied(alloc, id)?))),
        None => Ok(None),
    }
}

#[tactic(auto, unfolding(crate::specs::Reading::check_in))]
fn check_in(alloc: Global, value: &Value) -> Result<Option<Request>, AllocError>
    ensures { IfOk result (λ found. found ≡ check_in (view value.now)) }
{
    let Some(items) = items_at(value, "addresses") else {
        return Ok(None);
    };
    let Some(addresses) = addresses_of(alloc, items)? else {
        return Ok(None);
    };
    let Some(id) = text_at(value, "handle") else {
        return Ok(None);
    };
    let id = Text::copied(alloc, id)?;
    Ok(Some(Request::Check(id, addresses)))
}

#[tactic(auto, unfolding(crate::specs::Reading::release_in))]
fn release_in(alloc: Global, value: &Value) -> Result<Option<Request>, AllocError>
    ensures { IfOk result (λ found. found ≡ release_in (view value.now)) }
{
    let Some(cidr) = cidr_at(value, "cidr") else {
        return Ok(None);
    };
    let Some(node) = text_at(value, "node") else {
        return Ok(None);
    };
    let node = Text::copied(alloc, node)?;
    Ok(Some(Request::Release(node, cidr)))
}

#[tactic(auto, unfolding(crate::specs::Reading::collect_in))]
fn collect_in(alloc: Global, value: &Value) -> Result<Option<Request>, AllocError>
    ensures { IfOk result (λ found. found ≡ shaped_in Shape.Collect (view value.now)) }
{
    let Some(at) = whole_or_0(value, "at") else {
        return Ok(None);
    };
    let Some(grace) = whole_or_0(value, "grace") else {
        return Ok(None);
    };
    let Some(listed) = value.get("live") else {
        return Ok(None);
    };
    let Some(live) = texts_in(alloc, listed)? else {
        return Ok(None);
    };
    let Some(scope) = scope_or(alloc, value)? else {
        return Ok(None);
    };
    Ok(Some(Request::Collect(CollectRequest {
        live,
        at,
        grace,
        scope,
    })))
}

#[tactic(auto, unfolding(crate::specs::Reading::one_pool_in))]
fn pool_in(alloc: Global, value: &Value) -> Result<Option<Request>, AllocError>
    ensures { IfOk result (λ found. found ≡ shaped_in Shape.Pool (view value.now)) }
{
    let Some(cidr) = cidr_at(value, "cidr") else {
        return Ok(None);
    };
    let Some(size) = small_at(value, "size") else {
        return Ok(None);
    };
    let Some(disabled) = truth_or(value, "disabled", false) else {
        return Ok(None);
    };
    let Some(mode) = mode_or(value) else {
        return Ok(None);
    };
    let Some(name) = text_at(value, "name") else {
        return Ok(None);
    };
    let Some(selector) = selector_or(alloc, value)? else {
        return Ok(None);
    };
    let name = Text::copied(alloc, name)?;
    Ok(Some(Request::Admin(Admin::Pool(Pool {
        name,
        cidr,
        size,
        disabled,
        mode,
        selector,
    }))))
}

#[tactic(auto, unfolding(crate::specs::Reading::disable_in))]
fn disable_in(alloc: Global, value: &Value) -> Result<Option<Request>, AllocError>
    ensures { IfOk result (λ found. found ≡ disable_in (view value.now)) }
{
    let Some(disabled) = truth_at(value, "disabled") else {
        return Ok(None);
    };
    let Some(name) = text_at(value, "name") else {
        return Ok(None);
    };
    let name = Text::copied(alloc, name)?;
    Ok(Some(Request::Admin(Admin::Disable(name, disabled))))
}

#[tactic(auto, unfolding(crate::specs::Reading::reserve_in, ipam_record_text::specs::Reservations::named_cidrs))]
fn reserve_in(alloc: Global, value: &Value) -> Result<Option<Request>, AllocError>
    ensures { IfOk result (λ found. found ≡ reserve_in (view value.now)) }
{
    let Some(items) = items_at(value, "cidrs") else {
        return Ok(None);
    };
    let Some(cidrs) = cidrs_of(alloc, items)? else {
        return Ok(None);
    };
    let Some(name) = text_at(value, "name") else {
        return Ok(None);
    };
    let name = Text::copied(alloc, name)?;
    match Reservation::new(name, cidrs) {
        Ok(reservation) => Ok(Some(Request::Admin(Admin::Reserve(reservation)))),
        Err(_) => Ok(None),
    }
}

fn unreserve_in(alloc: Global, value: &Value) -> Result<Option<Request>, AllocError>
    ensures { IfOk result (λ found. found ≡ shaped_in Shape.Unreserve (view value.now)) }
{
    match text_at(value, "name") {
        Some(name) => {
            let name = Text::copied(alloc, name)?;
            Ok(Some(Request::Admin(Admin::Unreserve(name))))
        }
        None => Ok(None),
    }
}

#[tactic(auto, unfolding(crate::specs::Reading::settings_in))]
fn config_in(value: &Value) -> Option<Request>
    ensures { result ≡ shaped_in Shape.Config (view value.now) }
{
    let auto = truth_or(value, "autoAllocateBlocks", true)?;
    let max_blocks = number_or_0(value, "maxBlocksPerHost")?;
    let strict = truth_or(value, "strictAffinity", false)?;
    Some(Request::Admin(Admin::Config(Config {
        strict,
        auto,
        max_blocks,
    })))
}
