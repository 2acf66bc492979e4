//! What the members of a request's objects hold.
ghost use Rattle.std.specs.Prelude.{◌≡◌, [], IfOk, option_map};
ghost use Rattle.serde_json.specs.View.{view, items_view};
ghost use Rattle.ipam_record_text.specs.Reservations.{cidrs_after};
ghost use Rattle.ipam_request_text.specs.Fields.{truth_or, whole_or_0, number_or_0, small_at, texts_in, texts_or_none, pairs_in, pairs_or_none, address_in, addresses_after, cidr_member, mode_or, selector_or, named_scope, scope_or};

use crate::shape::{Shape, are_known};
use ipam_addr::{Addr, Cidr, read_addr};
use ipam_json::{in_8_bits, in_32_bits, text_at, whole_at};
use ipam_pool::Mode;
use ipam_record_text::{cidr_in, selector_of};
use ipam_select::NodeSelector;
use ipam_text::{Seq, Text};
use serde_json::Value;
use std::alloc::{AllocError, Global};

/// The `true` or `false` of this name, or what a request has without it.
pub(crate) fn truth_or(value: &Value, name: &str, missing: bool) -> Option<bool>
    ensures { result ≡ truth_or missing name.now (view value.now) }
{
    match value.get(name) {
        Some(found) => found.as_bool(),
        None => Some(missing),
    }
}

/// The whole number of this name, or 0 where there is none.
pub(crate) fn whole_or_0(value: &Value, name: &str) -> Option<u64>
    ensures { result ≡ whole_or_0 name.now (view value.now) }
{
    match value.get(name) {
        Some(found) => found.as_u64(),
        None => Some(0),
    }
}

/// The whole number of this name, where 32 bits hold it, or 0 where there is none.
pub(crate) fn number_or_0(value: &Value, name: &str) -> Option<u32>
    ensures { result ≡ number_or_0 name.now (view value.now) }
{
    match value.get(name) {
        Some(found) => in_32_bits(found.as_u64()?),
        None => Some(0),
    }
}

/// The whole number of this name, where 8 bits hold it.
pub(crate) fn small_at(value: &Value, name: &str) -> Option<u8>
    ensures { result ≡ small_at name.now (view value.now) }
{
    in_8_bits(whole_at(value, name)?)
}

/// The texts of the array.
pub(crate) fn texts_in(alloc: Global, value: &Value) -> Result<Option<Seq<Text>>, AllocError>
    ensures { IfOk result (λ found. found ≡ texts_in (view value.now)) }
{
    let Some(list) = value.as_array() else {
        return Ok(None);
    };
    let items = list.as_slice();
    let mut texts = Vec::new(alloc);
    for item in items {
        let Some(text) = item.as_str() else {
            return Ok(None);
        };
        texts.push(Text::copied(alloc, text)?)?;
    }
    Ok(Some(Seq::of(texts)))
}

/// The texts of the array of this name, or none where it is missing.
pub(crate) fn texts_or_none(
    alloc: Global,
    value: &Value,
    name: &str,
) -> Result<Option<Seq<Text>>, AllocError>
    ensures { IfOk result (λ found. found ≡ texts_or_none name.now (view value.now)) }
{
    match value.get(name) {
        Some(found) => texts_in(alloc, found),
        None => Ok(Some(Seq::new(alloc))),
    }
}

/// The members of the object, which are texts.
pub fn pairs_in(alloc: Global, value: &Value) -> Result<Option<Seq<(Text, Text)>>, AllocError>
    ensures { IfOk result (λ found. found ≡ pairs_in (view value.now)) }
{
    let Some(members) = value.as_object() else {
        return Ok(None);
    };
    let mut pairs = Vec::new(alloc);
    for (key, member) in members {
        let Some(value) = member.as_str() else {
            return Ok(None);
        };
        let pair = pair_of(alloc, key.as_str(), value)?;
        pairs.push(pair)?;
    }
    Ok(Some(Seq::of(pairs)))
}

fn pair_of(alloc: Global, key: &str, value: &str) -> Result<(Text, Text), AllocError>
    ensures { IfOk result (λ pair. pair ≡ (key.now, value.now)) }
{
    let key = Text::copied(alloc, key)?;
    let value = Text::copied(alloc, value)?;
    Ok((key, value))
}

/// The members of the object of this name, which are texts, or none where it is missing.
pub(crate) fn pairs_or_none(
    alloc: Global,
    value: &Value,
    name: &str,
) -> Result<Option<Seq<(Text, Text)>>, AllocError>
    ensures { IfOk result (λ found. found ≡ pairs_or_none name.now (view value.now)) }
{
    match value.get(name) {
        Some(found) => pairs_in(alloc, found),
        None => Ok(Some(Seq::new(alloc))),
    }
}

/// The address whose text the value is.
pub(crate) fn address_in(value: &Value) -> Option<Addr>
    ensures { result ≡ address_in (view value.now) }
{
    let text = value.as_str()?;
    read_addr(text.as_bytes()).ok()
}

/// The addresses whose texts the items are.
pub(crate) fn addresses_of(alloc: Global, items: &[Value]) -> Result<Option<Seq<Addr>>, AllocError>
    ensures { IfOk result (λ found. found ≡ addresses_after [] (items_view items.now)) }
{
    let mut addresses = Vec::new(alloc);
    for item in items {
        let Some(address) = address_in(item) else {
            return Ok(None);
        };
        addresses.push(address)?;
    }
    Ok(Some(Seq::of(addresses)))
}

/// The CIDR whose text has this name.
pub(crate) fn cidr_at(value: &Value, name: &str) -> Option<Cidr>
    ensures { result ≡ cidr_member name.now (view value.now) }
{
    let found = value.get(name)?;
    cidr_in(found)
}

/// The CIDRs whose texts the items are.
pub(crate) fn cidrs_of(alloc: Global, items: &[Value]) -> Result<Option<Seq<Cidr>>, AllocError>
    ensures { IfOk result (λ found. found ≡ cidrs_after [] (items_view items.now)) }
{
    let mut cidrs = Vec::new(alloc);
    for item in items {
        let Some(cidr) = cidr_in(item) else {
            return Ok(None);
        };
        cidrs.push(cidr)?;
    }
    Ok(Some(Seq::of(cidrs)))
}

/// The mode of a pool: automatic where none is given.
pub(crate) fn mode_or(value: &Value) -> Option<Mode>
    ensures { result ≡ mode_or (view value.now) }
{
    let Some(found) = value.get("mode") else {
        return Some(Mode::Automatic);
    };
    let text = found.as_str()?;
    if text == "Automatic" {
        Some(Mode::Automatic)
    } else if text == "Manual" {
        Some(Mode::Manual)
    } else {
        None
    }
}

/// The selector of a pool: all nodes where none is given.
pub(crate) fn selector_or(alloc: Global, value: &Value) -> Result<Option<NodeSelector>, AllocError>
    ensures { IfOk result (λ found. found ≡ selector_or (view value.now)) }
{
    let Some(found) = value.get("selector") else {
        return Ok(Some(NodeSelector::all(alloc)));
    };
    match found.as_str() {
        Some(text) => selector_of(alloc, text),
        None => Ok(None),
    }
}

/// The scope of a collection, or that there is none.
pub(crate) fn scope_or(
    alloc: Global,
    value: &Value,
) -> Result<Option<Option<(Text, Text)>>, AllocError>
    ensures { IfOk result (λ found. found ≡ scope_or (view value.now)) }
{
    let Some(found) = value.get("scope") else {
        return Ok(Some(None));
    };
    match named_scope(found) {
        Some((network, node)) => Ok(Some(Some(pair_of(alloc, network, node)?))),
        None => Ok(None),
    }
}

#[tactic(auto, unfolding(crate::specs::Fields::named_scope))]
fn named_scope(value: &Value) -> Option<(&str, &str)>
    ensures { option_map (λ pair. (pair.0.now, pair.1.now)) result
        ≡ named_scope (view value.now) }
{
    let members = value.as_object()?;
    if !are_known(Shape::Scope, members) {
        return None;
    }
    let network = text_at(value, "network")?;
    let node = text_at(value, "node")?;
    Some((network, node))
}
