ghost use Rattle.std.specs.Prelude.{◌≡◌, ◌≤◌, IfOk, IfSome, map, option_map, option_and_then, string_bytes, is_some, ◌&&◌};
ghost use Rattle.serde_json.specs.Find.{get};
ghost use Rattle.serde_json.specs.View.{view};
ghost use Rattle.std.specs.List.{list_all};
ghost use Rattle.ipam_json.specs.Built.{fields_of};
ghost use Rattle.ipam_json.specs.Path.{as_whole};
ghost use Rattle.ipam_addr.specs.Text.{cidr_reading};
ghost use Rattle.ipam_addr.specs.Width.{cidr_size};
ghost use Rattle.ipam_block_text.specs.Limits.{are_pairs, is_small_pair, keys_ascend, ascend_after};
ghost use Rattle.ipam_block_text.specs.Reading.{each, if_passes, after_host, node_named, host_in, place_in, pair_in, secondary_in, handle_id_in, attributes_in, small_cidr_in, small_cidr, node_in, places_in, all_attributes_in, sequence_in, queue_in, parts_in, is_number_name, is_stamp, are_stamps, stamps_in};

use crate::parts::Parts;
use ipam_addr::{Cidr, is_handle_id, is_name, read_cidr};
use ipam_block::{ADDRESSES_MAX, Attributes, KEY_BYTES_MAX, PAIRS_MAX, VALUE_BYTES_MAX};
use ipam_json::{is_index, items_at, members_at, members_in, text_at, whole_at};
use ipam_text::{Seq, Text};
use serde_json::{Map, Value};
use std::alloc::{AllocError, Global};

/// What the value says of a block but for the stamps, if its members are those of a block.
#[tactic(auto, unfolding(crate::specs::Reading::parts_in))]
pub(crate) fn parts_in(alloc: Global, value: &Value) -> Result<Option<Parts>, AllocError>
    ensures { IfOk result (λ o. o ≡ parts_in (view value.now)) }
{
    let Some(node) = node_in(alloc, value)? else {
        return Ok(None);
    };
    let Some(places) = places_in(alloc, value)? else {
        return Ok(None);
    };
    let Some(attributes) = all_attributes_in(alloc, value)? else {
        return Ok(None);
    };
    let Some(cidr) = cidr_in(value) else {
        return Ok(None);
    };
    let Some(sequence) = sequence_in(value) else {
        return Ok(None);
    };
    let Some(queue) = queue_in(alloc, value)? else {
        return Ok(None);
    };
    Ok(Some(Parts {
        node,
        places,
        attributes,
        cidr,
        sequence,
        queue,
    }))
}

/// The stamps, if they are whole numbers with decimal numbers as names.
#[tactic(auto, unfolding(crate::specs::Reading::stamps_in))]
pub(crate) fn stamps_in(value: &Value) -> Option<&Value>
    ensures { option_map (λ v. view v.now) result ≡ stamps_in (view value.now) }
{
    match value.get("sequenceNumberForAllocation") {
        Some(stamps) if are_stamps(stamps) => Some(stamps),
        _ => None,
    }
}

fn are_stamps(value: &Value) -> bool
    ensures { result ≡ are_stamps (view value.now) }
{
    match members_in(value) {
        Some(members) => all_are_stamps(members),
        None => false,
    }
}

fn all_are_stamps(members: &Map<String, Value>) -> bool
    ensures { result ≡ list_all is_stamp (fields_of members.now.entries) }
{
    for (name, stamp) in members.iter() {
        if !is_stamp(name.as_str(), stamp) {
            return false;
        }
    }
    true
}

fn is_stamp(name: &str, stamp: &Value) -> bool
    ensures { result ≡ is_stamp (name.now, view stamp.now) }
{
    is_number_name(name) && stamp.as_u64().is_some()
}

#[tactic(auto, unfolding(crate::specs::Reading::is_number_name))]
fn is_number_name(name: &str) -> bool
    ensures { result ≡ is_number_name name.now }
{
    if !is_index(name.as_bytes()) {
        return false;
    }
    name.parse::<u64>().is_ok()
}

#[tactic(auto, unfolding(crate::specs::Reading::node_in))]
fn node_in(alloc: Global, value: &Value) -> Result<Option<Option<Text>>, AllocError>
    ensures { IfOk result (λ o. o ≡ node_in (view value.now)) }
{
    match value.get("affinity") {
        Some(affinity) => affinity_in(alloc, affinity),
        None => Ok(None),
    }
}

fn affinity_in(alloc: Global, value: &Value) -> Result<Option<Option<Text>>, AllocError>
    ensures { IfOk result (λ o. o ≡ host_in (view value.now)) }
{
    match value {
        Value::Null => Ok(Some(None)),
        Value::String(text) => node_named(alloc, text.as_str()),
        _ => Ok(None),
    }
}

fn node_named(alloc: Global, text: &str) -> Result<Option<Option<Text>>, AllocError>
    ensures { IfOk result (λ o. o ≡ node_named text.now) }
{
    match after_host(text) {
        Some(name) if is_name(name.as_bytes()) => Ok(Some(Some(Text::copied(alloc, name)?))),
        _ => Ok(None),
    }
}

/// What stands after `host:`.
fn after_host(text: &str) -> Option<&str>
    ensures { option_map (λ t. t.now) result ≡ after_host text.now }
{
    text.strip_prefix("host:")
}

#[tactic(auto, unfolding(crate::specs::Reading::places_in))]
fn places_in(alloc: Global, value: &Value) -> Result<Option<Seq<Option<usize>>>, AllocError>
    ensures { IfOk result (λ o. o ≡ places_in (view value.now)) }
{
    match items_at(value, "allocations") {
        Some(items) => each_place(alloc, items),
        None => Ok(None),
    }
}

fn each_place(alloc: Global, items: &[Value]) -> Result<Option<Seq<Option<usize>>>, AllocError>
    ensures { IfOk result (λ o. o ≡ each place_in (map view items.now)) }
{
    let mut places = Vec::new(alloc);
    for item in items {
        match place_in(item) {
            Some(place) => places.push(place)?,
            None => return Ok(None),
        }
    }
    Ok(Some(Seq::of(places)))
}

fn place_in(value: &Value) -> Option<Option<usize>>
    ensures { result ≡ place_in (view value.now) }
{
    match value {
        Value::Null => Some(None),
        Value::Number(number) => match number.as_u64() {
            Some(index) => Some(Some(index as usize)),
            None => None,
        },
        _ => None,
    }
}

#[tactic(auto, unfolding(crate::specs::Reading::all_attributes_in))]
fn all_attributes_in(alloc: Global, value: &Value) -> Result<Option<Seq<Attributes>>, AllocError>
    ensures { IfOk result (λ o. o ≡ all_attributes_in (view value.now)) }
{
    match items_at(value, "attributes") {
        Some(items) => each_attributes(alloc, items),
        None => Ok(None),
    }
}

fn each_attributes(alloc: Global, items: &[Value]) -> Result<Option<Seq<Attributes>>, AllocError>
    ensures { IfOk result (λ o. o ≡ each attributes_in (map view items.now)) }
{
    let mut all = Vec::new(alloc);
    for item in items {
        match attributes_in(alloc, item)? {
            Some(attributes) => all.push(attributes)?,
            None => return Ok(None),
        }
    }
    Ok(Some(Seq::of(all)))
}

#[tactic(auto, unfolding(crate::specs::Reading::attributes_in))]
fn attributes_in(alloc: Global, value: &Value) -> Result<Option<Attributes>, AllocError>
    ensures { IfOk result (λ o. o ≡ attributes_in (view value.now)) }
{
    let Some(handle) = handle_in(value) else {
        return Ok(None);
    };
    let Some(secondary) = secondary_in(alloc, value)? else {
        return Ok(None);
    };
    let handle = Text::copied(alloc, handle)?;
    Ok(Some(Attributes { handle, secondary }))
}

#[tactic(auto, unfolding(crate::specs::Reading::handle_id_in))]
fn handle_in(value: &Value) -> Option<&str>
    ensures { option_map (λ t. t.now) result ≡ handle_id_in (view value.now) }
{
    match text_at(value, "handle_id") {
        Some(handle) if is_handle_id(handle.as_bytes()) => Some(handle),
        _ => None,
    }
}

#[tactic(auto, unfolding(crate::specs::Reading::secondary_in))]
fn secondary_in(alloc: Global, value: &Value) -> Result<Option<Seq<(Text, Text)>>, AllocError>
    ensures { IfOk result (λ o. o ≡ secondary_in (view value.now)) }
{
    match members_at(value, "secondary") {
        Some(members) => pairs_in(alloc, members),
        None => Ok(None),
    }
}

fn pairs_in(
    alloc: Global,
    members: &Map<String, Value>,
) -> Result<Option<Seq<(Text, Text)>>, AllocError>
    ensures { IfOk result (λ o. o
        ≡ option_and_then (if_passes are_pairs) (each pair_in (fields_of members.now.entries))) }
{
    let Some(pairs) = each_pair(alloc, members)? else {
        return Ok(None);
    };
    if are_pairs(pairs.as_slice()) {
        Ok(Some(pairs))
    } else {
        Ok(None)
    }
}

fn each_pair(
    alloc: Global,
    members: &Map<String, Value>,
) -> Result<Option<Seq<(Text, Text)>>, AllocError>
    ensures { IfOk result (λ o. o ≡ each pair_in (fields_of members.now.entries)) }
{
    let mut pairs = Vec::new(alloc);
    for (key, member) in members.iter() {
        match pair_in(alloc, key.as_str(), member)? {
            Some(pair) => pairs.push(pair)?,
            None => return Ok(None),
        }
    }
    Ok(Some(Seq::of(pairs)))
}

fn pair_in(alloc: Global, key: &str, member: &Value) -> Result<Option<(Text, Text)>, AllocError>
    ensures { IfOk result (λ o. o ≡ pair_in (key.now, view member.now)) }
{
    match member.as_str() {
        Some(value) => {
            let key = Text::copied(alloc, key)?;
            Ok(Some((key, Text::copied(alloc, value)?)))
        }
        None => Ok(None),
    }
}

fn are_pairs(pairs: &[(Text, Text)]) -> bool
    ensures { result ≡ are_pairs pairs.now }
{
    pairs.len() <= PAIRS_MAX && are_small(pairs) && keys_ascend(pairs)
}

fn are_small(pairs: &[(Text, Text)]) -> bool
    ensures { result ≡ list_all is_small_pair pairs.now }
{
    pairs.iter().all(|pair| is_small_pair(pair))
}

fn is_small_pair(pair: &(Text, Text)) -> bool
    ensures { result ≡ is_small_pair pair.now }
{
    let key = pair.0.as_str();
    let value = pair.1.as_str();
    1 <= key.len() && key.len() <= KEY_BYTES_MAX && value.len() <= VALUE_BYTES_MAX
}

pub(crate) fn keys_ascend(pairs: &[(Text, Text)]) -> bool
    ensures { result ≡ keys_ascend pairs.now }
{
    match pairs {
        [first, rest @ ..] => ascend_after(&first.0, rest),
        [] => true,
    }
}

fn ascend_after(key: &Text, pairs: &[(Text, Text)]) -> bool
    ensures { result ≡ ascend_after key.now pairs.now }
{
    let mut last = key;
    for pair in pairs {
        if *last >= pair.0 {
            return false;
        }
        last = &pair.0;
    }
    true
}

#[tactic(auto, unfolding(crate::specs::Reading::small_cidr_in))]
fn cidr_in(value: &Value) -> Option<Cidr>
    ensures value { result ≡ small_cidr_in (view value.now) }
{
    match text_at(value, "cidr") {
        Some(text) => small_cidr(text),
        None => None,
    }
}

fn small_cidr(text: &str) -> Option<Cidr>
    ensures { result ≡ small_cidr (cidr_reading text.now) }
{
    match read_cidr(text.as_bytes()) {
        Ok(cidr) if cidr.last().number - cidr.base().number < u128::from(ADDRESSES_MAX) => Some(
            cidr,
        ),
        _ => None,
    }
}

#[tactic(auto, unfolding(crate::specs::Reading::sequence_in))]
fn sequence_in(value: &Value) -> Option<u64>
    ensures { result ≡ sequence_in (view value.now) }
{
    whole_at(value, "sequenceNumber")
}

#[tactic(auto, unfolding(crate::specs::Reading::queue_in))]
fn queue_in(alloc: Global, value: &Value) -> Result<Option<Seq<u64>>, AllocError>
    ensures { IfOk result (λ o. o ≡ queue_in (view value.now)) }
{
    match items_at(value, "unallocated") {
        Some(items) => each_number(alloc, items),
        None => Ok(None),
    }
}

fn each_number(alloc: Global, items: &[Value]) -> Result<Option<Seq<u64>>, AllocError>
    ensures { IfOk result (λ o. o ≡ each as_whole (map view items.now)) }
{
    let mut numbers = Vec::new(alloc);
    for item in items {
        match item.as_u64() {
            Some(number) => numbers.push(number)?,
            None => return Ok(None),
        }
    }
    Ok(Some(Seq::of(numbers)))
}
