//! The stamps in the order in which the text of a block has them: by the bytes of the ordinals in decimal.
//!
//! Ordinals that ascend make one run in that order for each count of digits, so a run is merged with those
//! before it. Each merge goes once over what it has so far.
ghost use Rattle.std.specs.Prelude.{◌≡◌, ◌++◌, [], false, IfOk, OnOk, decimal, drop};
ghost use Rattle.serde_json.specs.Data.{object, put};
ghost use Rattle.ipam_json.specs.Built.{whole_data};
ghost use Rattle.ipam_block_text.specs.Body.{stamps_data};
ghost use Rattle.ipam_block_text.specs.Stamps.{stamp_members, AreInOrder, AreBefore, ends_before, stands_before};

use crate::decimals::comes_before;
use ipam_block::Allocation;
use std::alloc::{AllocError, Global};
use std::mem;

/// The ordinals that are held with their stamps, in this order.
pub(crate) fn stamps_of(
    alloc: Global,
    allocations: &[Allocation],
) -> Result<Vec<(u16, u64)>, AllocError>
    ensures { IfOk result (λ v. object (stamp_members v.items) ≡ stamps_data allocations.now) }
{
    let mut earlier = Vec::with_capacity(alloc, allocations.len())?;
    let mut place = 0usize;
    let mut merged = Vec::with_capacity(alloc, allocations.len())?;
    for allocation in allocations {
        let stamp = (allocation.ordinal, allocation.stamp);
        let next = place_of(&mut earlier, place, &mut merged, allocation.ordinal)?;
        place = put_at(earlier.as_slice(), next, &mut merged, stamp)?;
    }
    push_rest(&mut merged, earlier.as_slice(), place)?;
    Ok(merged)
}

/// Moves those that come before the ordinal from the earlier ones to the merged ones. Gives the place
/// among the earlier ones of the first that does not.
fn place_of(
    earlier: &mut Vec<(u16, u64)>,
    place: usize,
    merged: &mut Vec<(u16, u64)>,
    ordinal: u16,
) -> Result<usize, AllocError>
    requires { AreInOrder (merged.old.items ++ drop place earlier.old.items) }
    ensures same { IfOk result (λ next. merged.new.items ++ drop next earlier.new.items
        ≡ merged.old.items ++ drop place earlier.old.items) }
    ensures merged { OnOk result (AreBefore ordinal merged.new.items) }
    ensures rest { IfOk result (λ next. stands_before earlier.new.items next ordinal ≡ false) }
{
    if ends_before(merged.as_slice(), ordinal) {
        return push_those_before(merged, earlier.as_slice(), place, ordinal);
    }
    begin_run(earlier, place, merged)?;
    push_those_before(merged, earlier.as_slice(), 0, ordinal)
}

/// Puts the stamp after the merged ones, over one of the same ordinal. Gives the place of the first
/// earlier one that is left.
fn put_at(
    earlier: &[(u16, u64)],
    place: usize,
    merged: &mut Vec<(u16, u64)>,
    stamp: (u16, u64),
) -> Result<usize, AllocError>
    requires order { AreInOrder (merged.old.items ++ drop place earlier.now) }
    requires merged { AreBefore stamp.0 merged.old.items }
    requires rest { stands_before earlier.now place stamp.0 ≡ false }
    ensures order { IfOk result (λ next. AreInOrder (merged.new.items ++ drop next earlier.now)) }
    ensures members { IfOk result (λ next. stamp_members (merged.new.items ++ drop next earlier.now)
        ≡ put (decimal stamp.0) (whole_data stamp.1) (stamp_members (merged.old.items ++ drop place earlier.now))) }
{
    merged.push(stamp)?;
    if place < earlier.len() && earlier[place].0 == stamp.0 {
        return Ok(place + 1);
    }
    Ok(place)
}

/// Makes all that is merged the earlier ones of the next run.
fn begin_run(
    earlier: &mut Vec<(u16, u64)>,
    place: usize,
    merged: &mut Vec<(u16, u64)>,
) -> Result<(), AllocError>
    ensures earlier { OnOk result (earlier.new.items ≡ merged.old.items ++ drop place earlier.old.items) }
    ensures merged { OnOk result (merged.new.items ≡ []) }
{
    push_rest(merged, earlier.as_slice(), place)?;
    mem::swap(earlier, merged);
    merged.clear();
    Ok(())
}

/// Appends the earlier ones from the place on.
fn push_rest(
    merged: &mut Vec<(u16, u64)>,
    earlier: &[(u16, u64)],
    place: usize,
) -> Result<(), AllocError>
    ensures { OnOk result (merged.new.items ≡ merged.old.items ++ drop place earlier.now) }
{
    if place < earlier.len() {
        merged.extend_from_slice(&earlier[place..])?;
    }
    Ok(())
}

/// Appends the earlier ones from the place on that come before the ordinal. Gives the place of the first
/// that does not.
fn push_those_before(
    merged: &mut Vec<(u16, u64)>,
    earlier: &[(u16, u64)],
    place: usize,
    ordinal: u16,
) -> Result<usize, AllocError>
    requires { AreBefore ordinal merged.old.items }
    ensures same { IfOk result (λ next. merged.new.items ++ drop next earlier.now
        ≡ merged.old.items ++ drop place earlier.now) }
    ensures merged { OnOk result (AreBefore ordinal merged.new.items) }
    ensures rest { IfOk result (λ next. stands_before earlier.now next ordinal ≡ false) }
{
    let mut next = place;
    'places: while stands_before(earlier, next, ordinal) {
        merged.push(earlier[next])?;
        next += 1;
    }
    Ok(next)
}

/// Whether the last of them comes before the ordinal, or there is none.
fn ends_before(stamps: &[(u16, u64)], ordinal: u16) -> bool
    ensures { result ≡ ends_before stamps.now ordinal }
{
    match stamps.last() {
        Some(stamp) => comes_before(stamp.0, ordinal),
        None => true,
    }
}

/// Whether one stands at the place that comes before the ordinal.
fn stands_before(stamps: &[(u16, u64)], place: usize, ordinal: u16) -> bool
    ensures { result ≡ stands_before stamps.now place ordinal }
{
    match stamps.get(place) {
        Some(stamp) => comes_before(stamp.0, ordinal),
        None => false,
    }
}
