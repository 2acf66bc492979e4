ghost use Rattle.std.specs.Prelude.{◌≡◌, ◌-◌, ◌≤◌, ◌∷◌, IfOk, length, take, slice_get};
ghost use Rattle.std.specs.List.{take_while};
ghost use Rattle.std.specs.VecDeque.{deque_capacity};
ghost use Rattle.ipam_store.specs.Feed.{is_above, revision_or};

use crate::change::Change;
use std::alloc::{AllocError, Global};
use std::collections::VecDeque;

/// How many changes are kept at most.
pub const MOST_CHANGES: usize = 1024;

/// Keeps the change as the newest, in place of the oldest where there are as many as may be, and
/// answers the floor then. Takes no memory.
pub(crate) fn keep(changes: &mut VecDeque<Change>, change: Change, floor: u64) -> u64
    requires few { length changes.old.items ≤ MOST_CHANGES }
    requires room { MOST_CHANGES ≤ deque_capacity changes.old }
    ensures changes { changes.new.items ≡ change ∷ take (MOST_CHANGES - 1) changes.old.items }
    ensures floor { result ≡ revision_or floor (slice_get changes.old.items (MOST_CHANGES - 1)) }
    ensures capacity { deque_capacity changes.new ≡ deque_capacity changes.old }
{
    let oldest = take_excess(changes);
    changes.push_front_reserved(change);
    match oldest {
        Some(oldest) => oldest.revision,
        None => floor,
    }
}

/// Takes out the oldest change where there are as many as may be.
fn take_excess(changes: &mut VecDeque<Change>) -> Option<Change>
    requires { length changes.old.items ≤ MOST_CHANGES }
    ensures changes { changes.new.items ≡ take (MOST_CHANGES - 1) changes.old.items }
    ensures oldest { result ≡ slice_get changes.old.items (MOST_CHANGES - 1) }
    ensures capacity { deque_capacity changes.new ≡ deque_capacity changes.old }
{
    if changes.len() < MOST_CHANGES {
        return None;
    }
    changes.pop_back()
}

/// The first changes, those with a revision above this one.
pub(crate) fn newest(
    alloc: Global,
    changes: &VecDeque<Change>,
    revision: u64,
) -> Result<Vec<Change>, AllocError>
    ensures { IfOk result (λ found. found.items ≡ take_while (is_above revision) changes.now.items) }
{
    let mut found = Vec::new(alloc);
    for change in changes {
        if change.revision <= revision {
            return Ok(found);
        }
        found.push(change.clone()?)?;
    }
    Ok(found)
}
