ghost use Rattle.std.specs.Prelude.{◌≡◌, ℕ, ◌<◌, IfOk, OnOk, Some, AllPairs, map, position};
ghost use Rattle.ipam_block.specs.Sound.{ordinals_below};
ghost use Rattle.ipam_block_text.specs.Attributes.{distinct_attributes, with_attributes, are_same};
ghost use Rattle.ipam_block_text.specs.Numbering.{borrowed, IsNumbering, placed, numbered_in, index_at};
ghost use Rattle.ipam_block_text.specs.Parts.{block_parts};

use crate::key::AttributesKey;
use ipam_addr::Cidr;
use ipam_block::{Allocation, Attributes, Block};
use ipam_text::{Seq, Text};
use std::alloc::{AllocError, Global};
use std::collections::HashMap;

/// What the text of a block says, but for the stamps: for each ordinal that is held the index of
/// its attributes, the attributes, and the rest as the block has it.
#[derive(Drop)]
pub(crate) struct Parts {
    pub node: Option<Text>,
    pub places: Seq<Option<usize>>,
    pub attributes: Seq<Attributes>,
    pub cidr: Cidr,
    pub sequence: u64,
    pub queue: Seq<u64>,
}

/// The addresses of a block, and how its text numbers the attributes in use.
#[derive(Drop)]
pub(crate) struct Uses<'a> {
    pub cidr: Cidr,
    /// The attributes in use, each once, by the least ordinal that has them.
    pub attributes: Vec<&'a Attributes>,
    /// For each ordinal that is held the index of its attributes among these.
    pub places: Vec<Option<usize>>,
}

/// The block's addresses, and how its text numbers the attributes in use.
pub(crate) fn uses_of<'a>(alloc: Global, block: &'a Block) -> Result<Uses<'a>, AllocError>
    ensures attributes { IfOk result (λ u. borrowed u.attributes.items ≡ (block_parts block.now).attributes) }
    ensures places { IfOk result (λ u. u.places.items ≡ (block_parts block.now).places) }
    ensures cidr { IfOk result (λ u. u.cidr ≡ block.now.cidr) }
{
    let cidr = block.cidr();
    let (attributes, held) = numbered(alloc, block.allocations())?;
    let places = places_of(alloc, block.count(), held.as_slice())?;
    Ok(Uses {
        cidr,
        attributes,
        places,
    })
}

/// The addresses and the attributes of the parts as they are.
pub(crate) fn uses_in<'a>(alloc: Global, parts: &'a Parts) -> Result<Uses<'a>, AllocError>
    ensures attributes { IfOk result (λ u. borrowed u.attributes.items ≡ parts.now.attributes) }
    ensures places { IfOk result (λ u. u.places.items ≡ parts.now.places) }
    ensures cidr { IfOk result (λ u. u.cidr ≡ parts.now.cidr) }
{
    let cidr = parts.cidr;
    let attributes = each_of(alloc, parts.attributes.as_slice())?;
    let places = Vec::from_slice(alloc, parts.places.as_slice())?;
    Ok(Uses {
        cidr,
        attributes,
        places,
    })
}

fn each_of(alloc: Global, attributes: &[Attributes]) -> Result<Vec<&Attributes>, AllocError>
    ensures { IfOk result (λ v. borrowed v.items ≡ attributes.now) }
{
    let mut each = Vec::with_capacity(alloc, attributes.len())?;
    for own in attributes {
        each.push(own)?;
    }
    Ok(each)
}

/// The attributes in use, each once, by the least ordinal that has them, and for each allocation its
/// ordinal and the index of its attributes among these.
fn numbered(
    alloc: Global,
    allocations: &[Allocation],
) -> Result<(Vec<&Attributes>, Vec<(u16, usize)>), AllocError>
    ensures attributes { IfOk result (λ p. borrowed p.0.items ≡ distinct_attributes allocations.now) }
    ensures held { IfOk result (λ p. map placed p.1.items
        ≡ map (numbered_in (distinct_attributes allocations.now)) allocations.now) }
{
    let mut numbers = HashMap::with_capacity(alloc, allocations.len())?;
    let mut attributes = Vec::with_capacity(alloc, allocations.len())?;
    let mut held = Vec::with_capacity(alloc, allocations.len())?;
    for allocation in allocations {
        let index = number(&mut numbers, &mut attributes, allocation.attributes.get())?;
        held.push((allocation.ordinal, index))?;
    }
    Ok((attributes, held))
}

/// The index of the attributes among these, where they come last if they are not there yet.
fn number<'a>(
    numbers: &mut HashMap<AttributesKey<'a>, usize>,
    attributes: &mut Vec<&'a Attributes>,
    own: &'a Attributes,
) -> Result<usize, AllocError>
    requires { IsNumbering numbers.old (borrowed attributes.old.items) }
    ensures numbering { OnOk result (IsNumbering numbers.new (borrowed attributes.new.items)) }
    ensures attributes { OnOk result (borrowed attributes.new.items ≡ with_attributes (borrowed attributes.old.items) own.now) }
    ensures index { IfOk result (λ i. position (are_same own.now) (borrowed attributes.new.items) ≡ Some i) }
{
    let key = AttributesKey { own };
    if let Some(index) = numbers.get(&key) {
        return Ok(*index);
    }
    let index = attributes.len();
    attributes.push(own)?;
    match numbers.insert(key, index) {
        Ok(_) => Ok(index),
        Err(_) => Err(AllocError),
    }
}

/// The index of each ordinal that is held.
fn places_of(
    alloc: Global,
    count: u16,
    held: &[(u16, usize)],
) -> Result<Vec<Option<usize>>, AllocError>
    requires { AllPairs (λ x y. x.0 < y.0) held.now }
    ensures { IfOk result (λ v. v.items ≡ map (index_at held.now) (ordinals_below count)) }
{
    let mut places = Vec::with_capacity(alloc, usize::from(count))?;
    let mut next = 0usize;
    for ordinal in 0..count {
        if next < held.len() && held[next].0 == ordinal {
            places.push(Some(held[next].1))?;
            next += 1;
        } else {
            places.push(None)?;
        }
    }
    Ok(places)
}

pub(crate) fn queue_of(alloc: Global, block: &Block) -> Result<Vec<u64>, AllocError>
    ensures { IfOk result (λ v. v.items ≡ block.now.queue) }
{
    let mut numbers = Vec::with_capacity(alloc, block.queue().len())?;
    for ordinal in block.queue() {
        numbers.push(u64::from(*ordinal))?;
    }
    Ok(numbers)
}
