ghost use Rattle.std.specs.Prelude.{◌≡◌, ℕ, ◌+◌, ◌<◌, ◌≤◌, ◌&&◌, ◌++◌, ◌==◌, length, map, IfOk};
ghost use Rattle.std.specs.List.{list_any, list_all};
ghost use Rattle.ipam_block.specs.Sound.{held_ordinals, ordinals_below};
ghost use Rattle.ipam_block.specs.Test.{ascends_from, are_all_below, has_stamp_within};

use crate::allocation::Allocation;
use std::alloc::{AllocError, Global};

/// Whether what is held and queued makes a block of so many addresses.
pub(crate) fn are_sound(
    alloc: Global,
    count: u16,
    held: &[Allocation],
    queue: &[u16],
    sequence: u64,
) -> Result<bool, AllocError>
    ensures { IfOk result (λ r. r ≡ (ascends_from 0 held.now
        && list_all (has_stamp_within sequence) held.now
        && are_all_below count (held_ordinals held.now ++ queue.now))) }
{
    if !ascend(held) {
        return Ok(false);
    }
    if !are_stamped(held, sequence) {
        return Ok(false);
    }
    let ordinals = joined(alloc, held, queue)?;
    are_all_below(alloc, count, ordinals.as_slice())
}

fn ascend(held: &[Allocation]) -> bool
    ensures { result ≡ ascends_from 0 held.now }
{
    let mut least = 0u32;
    for allocation in held {
        if u32::from(allocation.ordinal) < least {
            return false;
        }
        least = u32::from(allocation.ordinal) + 1;
    }
    true
}

fn are_stamped(held: &[Allocation], sequence: u64) -> bool
    ensures { result ≡ list_all (has_stamp_within sequence) held.now }
{
    held.iter().all(|allocation| allocation.stamp > 0 && allocation.stamp <= sequence)
}

/// The held ordinals, and then those queued.
fn joined(alloc: Global, held: &[Allocation], queue: &[u16]) -> Result<Vec<u16>, AllocError>
    ensures { IfOk result (λ v. v.items ≡ held_ordinals held.now ++ queue.now) }
{
    let mut ordinals = Vec::new(alloc);
    for allocation in held {
        ordinals.push(allocation.ordinal)?;
    }
    ordinals.extend_from_slice(queue)?;
    Ok(ordinals)
}

fn are_all_below(alloc: Global, count: u16, ordinals: &[u16]) -> Result<bool, AllocError>
    ensures { IfOk result (λ r. r ≡ are_all_below count ordinals.now) }
{
    if ordinals.len() != usize::from(count) {
        return Ok(false);
    }
    let mut marks = vec![in alloc; false; usize::from(count)]?;
    for &ordinal in ordinals {
        if ordinal < count {
            marks[usize::from(ordinal)] = true;
        }
    }
    Ok(are_marked(marks.as_slice()))
}

fn are_marked(marks: &[bool]) -> bool
    ensures { result ≡ list_all (λ mark. mark) marks.now }
{
    marks.iter().all(|&mark| mark)
}
