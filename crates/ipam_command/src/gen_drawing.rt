//! Requests begin in slots that are drawn, and run by turns that are drawn.
ghost use Rattle.std.specs.Prelude.{◌<◌, ◌≤◌, ◌+◌, ◌-◌, ◌^◌, ℕ, [], IfOk, OnOk};
ghost use Rattle.ipam_command.specs.Counted.{CountsOne, IsCounted, IsDrawing, IsPlain};
ghost use Rattle.ipam_command.specs.Generated.{IsDrawn};
ghost use Rattle.ipam_command.specs.Requests.{request_of};

use crate::gen_counted::Counted;
use crate::gen_draws::Draws;
use crate::gen_requests::request_of;
use ipam_model::SlotState;
use std::alloc::{AllocError, Global};

/// Draws until so many requests have begun.
pub(crate) fn draw_all(
    alloc: Global,
    counted: &mut Counted,
    requests: u32,
) -> Result<(), AllocError>
    requires { IsCounted counted.old [] }
    ensures { OnOk result (IsPlain counted.new (λ history. (x : ℕ) × IsDrawn requests x requests history)) }
{
    let mut draws = Draws::new();
    let mut begun: u32 = 0;
    while begun < requests {
        begun = draw_once(alloc, counted, &mut draws, begun)?;
    }
    Ok(())
}

/// Draws a slot, for a turn or for the next request, and returns how many have begun.
fn draw_once(
    alloc: Global,
    counted: &mut Counted,
    draws: &mut Draws,
    begun: u32,
) -> Result<u32, AllocError>
    requires few { begun < 2 ^ 32 - 1 }
    requires drawing { (count : ℕ) × IsDrawing count counted.old draws.old.x begun }
    ensures drawing { IfOk result (λ now. (count : ℕ) → begun < count → IsDrawing count counted.old draws.old.x begun
        → IsDrawing count counted.new draws.new.x now) }
    ensures few { IfOk result (λ now. now ≤ begun + 1) }
    ensures counts { OnOk result (CountsOne counted.old.cluster counted.new.cluster) }
{
    let drawn = draws.draw(8);
    let slot = drawn as u8;
    match counted.cluster.state(slot) {
        SlotState::Idle => {
            let request = request_of(alloc, begun, draws)?;
            let begins = counted.begin(alloc, slot, &request);
            drop(request);
            begins?;
            Ok(begun + 1)
        }
        SlotState::Running => {
            drop(counted.turn(alloc, slot)?);
            Ok(begun)
        }
        SlotState::Waiting => unreachable!(),
    }
}
