//! The slots of a cluster, one beside the other.
ghost use Rattle.std.specs.Prelude.{◌≡◌, ◌<◌, ℕ, Some, None, length, slice_set, IsSome, IsNone, IfOk, OnOk, OnErr};
ghost use Rattle.ipam_records.specs.Word.{answer_in, after_feed};
ghost use Rattle.ipam_cluster.specs.declared.running.Running.{Running as AnyRunning};
ghost use Rattle.ipam_cluster.specs.Running.{running_rest, running_leaves};
ghost use Rattle.ipam_cluster.specs.Busy.{busy_count};
ghost use Rattle.ipam_cluster.specs.Slots.{slot_in, IsDue, MayGo, RunsOn};

use crate::running::{Running, RunningTurned};
use ipam_model::{Answer, SLOTS};
use ipam_records::Procedure;
use ipam_text::Text;
use std::alloc::{AllocError, Global};
use std::mem;

/// Slots in which nothing runs.
#[tactic(auto, using(crate::proofs::Opening::idle_push, crate::proofs::Opening::busy_push))]
pub(crate) fn idle_slots(alloc: Global) -> Result<Vec<Option<Running>>, AllocError>
    ensures many { IfOk result (λ slots. length slots.items ≡ SLOTS) }
    ensures idle { IfOk result (λ slots. (slot : ℕ) → slot_in slots.items slot ≡ None) }
    ensures free { IfOk result (λ slots. busy_count slots.items ≡ 0) }
{
    let mut slots = Vec::new(alloc);
    for _slot in 0..SLOTS {
        slots.push(None)?;
    }
    Ok(slots)
}

/// Puts this into the slot, to run there from now on, and drops what ran there.
pub(crate) fn put(slots: &mut Vec<Option<Running>>, slot: u8, running: Option<Running>)
    requires { slot < length slots.old.items }
    ensures { slots.new.items ≡ slice_set slots.old.items slot running }
{
    // Dropped by a call: a drop in place is proved variant by variant of all that may run.
    let old = mem::replace(&mut slots[slot as usize], running);
    drop(old);
}

/// What waits in the slot takes its second list. On `Err` nothing has changed.
pub(crate) fn feed(
    alloc: Global,
    slots: &mut Vec<Option<Running>>,
    slot: u8,
    live: &[Text],
    at: u64,
) -> Result<(), AllocError>
    requires there { slot < length slots.old.items }
    requires due { IsDue (slot_in slots.old.items slot) at }
    ensures many { length slots.new.items ≡ length slots.old.items }
    ensures ok { OnOk result ((was : AnyRunning) → slot_in slots.old.items slot ≡ Some was
        → RunsOn slots.old.items slots.new.items slot was (after_feed (running_rest was) live.now)) }
    ensures err { OnErr result (slots.new.items ≡ slots.old.items) }
{
    match &mut slots[slot as usize] {
        Some(running) => running.feed(alloc, live, at),
        None => unreachable!(),
    }
}

/// What runs in the slot goes where a reply led it, and leaves the slot with its answer. Takes no
/// memory.
pub(crate) fn go(
    slots: &mut Vec<Option<Running>>,
    slot: u8,
    turned: RunningTurned,
) -> Option<Answer>
    requires there { slot < length slots.old.items }
    requires may { MayGo (slot_in slots.old.items slot) turned }
    ensures many { length slots.new.items ≡ length slots.old.items }
    ensures answer { (was : AnyRunning) → slot_in slots.old.items slot ≡ Some was
        → result ≡ answer_in (running_leaves was turned) }
    ensures gone { IsSome result → slots.new.items ≡ slice_set slots.old.items slot None }
    ensures on { IsNone result → (was : AnyRunning) → slot_in slots.old.items slot ≡ Some was
        → RunsOn slots.old.items slots.new.items slot was (running_leaves was turned) }
{
    let answer = match &mut slots[slot as usize] {
        Some(running) => running.go(turned),
        None => unreachable!(),
    };
    if answer.is_some() {
        put(slots, slot, None);
    }
    answer
}
