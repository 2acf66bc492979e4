//! The slots run to their ends.
ghost use Rattle.std.specs.Prelude.{◌≡◌, ◌<◌, ℕ, None, OnOk};
ghost use Rattle.ipam_cluster.specs.Cluster.{slot_of_cluster};
ghost use Rattle.ipam_command.specs.Counted.{IsPlain, Leads};
ghost use Rattle.ipam_command.specs.Generated.{AreRunOut, RunsOut};

use crate::gen_counted::Counted;
use ipam_model::{SLOTS, SlotState};
use std::alloc::{AllocError, Global};

/// How many slots are drawn from.
const DRAWN_SLOTS: u8 = 8;

/// The slots run to their ends, one after the other.
pub(crate) fn run_all_out(alloc: Global, counted: &mut Counted) -> Result<(), AllocError>
    requires { IsPlain counted.old (λ history. Unit {0}) }
    ensures runs_out { OnOk result (Leads counted.old counted.new (λ before. AreRunOut before 8)) }
    ensures idle { OnOk result (slot_of_cluster counted.new.cluster 0 ≡ None) }
{
    for slot in 0..DRAWN_SLOTS {
        run_out(alloc, counted, slot)?;
    }
    Ok(())
}

/// The slot takes turns until nothing runs there.
fn run_out(alloc: Global, counted: &mut Counted, slot: u8) -> Result<(), AllocError>
    requires slot { slot < SLOTS }
    requires plain { IsPlain counted.old (λ history. Unit {0}) }
    ensures runs_out { OnOk result (Leads counted.old counted.new (RunsOut slot)) }
    ensures idle { OnOk result (slot_of_cluster counted.new.cluster slot ≡ None) }
    ensures others { (other : ℕ) → ¬ (other ≡ slot) → slot_of_cluster counted.new.cluster other ≡ slot_of_cluster counted.old.cluster other }
{
    loop {
        match counted.cluster.state(slot) {
            SlotState::Idle => return Ok(()),
            SlotState::Running => drop(counted.turn(alloc, slot)?),
            SlotState::Waiting => unreachable!(),
        }
    }
}
