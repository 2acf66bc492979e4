ghost use Rattle.std.specs.Prelude.{◌≡◌, ◌+◌, ◌<◌, ◌≤◌, length, Some, None, IfOk, map, option_map, option_and_then, if◌then◌else◌};
ghost use Rattle.serde_json.specs.View.{view};
ghost use Rattle.ipam_addr.specs.Width.{cidr_size};
ghost use Rattle.ipam_block_text.specs.Reading.{block_of_parts_in, held_from, allocation_at, stamp_of, are_ordinals};

use crate::parts::Parts;
use ipam_block::{ADDRESSES_MAX, Allocation, Attributes, Block, PartsFault, SharedAttributes};
use ipam_text::Text;
use serde_json::Value;
use std::alloc::{AllocError, Global};

/// The block with these parts and stamps, if they make one.
#[tactic(auto, unfolding(crate::specs::Reading::block_of_parts_in))]
pub(crate) fn block_in(
    alloc: Global,
    parts: &Parts,
    stamps: &Value,
) -> Result<Option<Block>, AllocError>
    requires { cidr_size parts.now.cidr ≤ ADDRESSES_MAX }
    ensures { IfOk result (λ o. o ≡ block_of_parts_in parts.now (view stamps.now)) }
{
    let count = parts.cidr.last().number - parts.cidr.base().number + 1;
    if parts.places.len() as u128 != count {
        return Ok(None);
    }
    let Some(queue) = ordinals(alloc, parts.queue.as_slice())? else {
        return Ok(None);
    };
    let attributes = parts.attributes.as_slice();
    let Some(held) = held(alloc, parts.places.as_slice(), attributes, stamps)? else {
        return Ok(None);
    };
    let node = copied_node(&parts.node)?;
    match Block::of_parts(alloc, parts.cidr, node, held, queue, parts.sequence) {
        Ok(block) => Ok(Some(block)),
        Err(PartsFault::Unsound) => Ok(None),
        Err(PartsFault::Memory) => Err(AllocError),
    }
}

/// The node's name once more.
fn copied_node(node: &Option<Text>) -> Result<Option<Text>, AllocError>
    ensures { IfOk result (λ copy. copy ≡ node.now) }
{
    match node {
        Some(name) => Ok(Some(name.clone()?)),
        None => Ok(None),
    }
}

/// The numbers as ordinals, if each can be one.
fn ordinals(alloc: Global, numbers: &[u64]) -> Result<Option<Vec<u16>>, AllocError>
    ensures { IfOk result (λ o. option_map (λ v. v.items) o
        ≡ (if are_ordinals numbers.now then Some numbers.now else None)) }
{
    let mut ordinals = Vec::new(alloc);
    for number in numbers {
        match u16::try_from(*number) {
            Ok(ordinal) => ordinals.push(ordinal)?,
            Err(_) => return Ok(None),
        }
    }
    Ok(Some(ordinals))
}

/// What is held, if each place has attributes and its ordinal a stamp.
fn held(
    alloc: Global,
    places: &[Option<usize>],
    attributes: &[Attributes],
    stamps: &Value,
) -> Result<Option<Vec<Allocation>>, AllocError>
    requires { length places.now ≤ ADDRESSES_MAX }
    ensures { IfOk result (λ o. option_map (λ v. v.items) o
        ≡ held_from attributes.now (view stamps.now) 0 places.now) }
{
    let mut held = Vec::new(alloc);
    let mut ordinal = 0u16;
    for place in places {
        if let Some(index) = place {
            let Some(allocation) = allocation_at(alloc, attributes, stamps, ordinal, *index)? else {
                return Ok(None);
            };
            held.push(allocation)?;
        }
        ordinal += 1;
    }
    Ok(Some(held))
}

/// The allocation of the ordinal, with the attributes at this index.
fn allocation_at(
    alloc: Global,
    attributes: &[Attributes],
    stamps: &Value,
    ordinal: u16,
    index: usize,
) -> Result<Option<Allocation>, AllocError>
    ensures { IfOk result (λ o. o ≡ allocation_at attributes.now (view stamps.now) ordinal index) }
{
    let Some(own) = attributes.get(index) else {
        return Ok(None);
    };
    let Some(stamp) = stamp_of(alloc, stamps, ordinal)? else {
        return Ok(None);
    };
    let attributes = SharedAttributes::of(alloc, own.clone()?);
    Ok(Some(Allocation {
        ordinal,
        attributes,
        stamp,
    }))
}

fn stamp_of(alloc: Global, stamps: &Value, ordinal: u16) -> Result<Option<u64>, AllocError>
    ensures { IfOk result (λ o. o ≡ stamp_of (view stamps.now) ordinal) }
{
    let name = format!(in alloc; "{ordinal}")?;
    Ok(stamps.get(name.as_str()).and_then(Value::as_u64))
}
