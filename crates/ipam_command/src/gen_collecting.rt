//! The collection after the requests.
ghost use Rattle.std.specs.Prelude.{◌≡◌, ℕ, List, [], ◌∷◌, None, IfOk, OnOk, ◌+◌, ◌<◌, ◌^◌};
ghost use Rattle.std.specs.List.{All};
ghost use Rattle.ipam_records.specs.Sound.{IsHandleId};
ghost use Rattle.ipam_model.specs.Course.{Begin};
ghost use Rattle.ipam_model.specs.declared.entry.Entry.{Entry};
ghost use Rattle.ipam_model.specs.declared.entry.SlotState.TheVariants as state;
ghost use Rattle.ipam_cluster.specs.Cluster.{slot_of_cluster, state_in};
ghost use Rattle.ipam_command.specs.Counted.{AllRun, CountsOne, Goes, Happens, HasCollected, IsCounted, IsNoCollection, IsPlain, IsSomewhere, IsStart, Turns};
ghost use Rattle.ipam_command.specs.Requests.{collection, live_below};

use crate::gen_counted::Counted;
use crate::gen_requests::live_below;
use crate::gen_telling::freed_in;
use ipam_model::{CollectRequest, Request, SlotState};
use ipam_text::{Seq, Text};
use std::alloc::{AllocError, Global};

/// Runs the collection in slot 0, to its end, and returns how many addresses it freed.
pub(crate) fn collect(
    alloc: Global,
    counted: &mut Counted,
    requests: u32,
) -> Result<u64, AllocError>
    requires idle { slot_of_cluster counted.old.cluster 0 ≡ None }
    requires plain { IsPlain counted.old (λ history. Unit {0}) }
    ensures { IfOk result (λ freed. (before : List Entry) → IsCounted counted.old before → AllRun IsNoCollection before
        → HasCollected counted.new requests before freed) }
{
    let live = live_below(alloc, requests)?;
    begin(alloc, counted, &live)?;
    let freed = run(alloc, counted, live.as_slice())?;
    Ok(freed)
}

/// The collection whose live handles these are begins.
#[tactic(auto, unfolding(crate::specs::Requests::collection))]
fn begin(alloc: Global, counted: &mut Counted, live: &Seq<Text>) -> Result<(), AllocError>
    requires idle { slot_of_cluster counted.old.cluster 0 ≡ None }
    requires sound { All IsHandleId live.now }
    requires somewhere { IsSomewhere counted.old }
    ensures { OnOk result ((count : ℕ) → live.now ≡ live_below count
        → Happens counted.old counted.new (Begin 0 (Request.Collect (collection count)))) }
{
    let live = live.clone()?;
    let request = Request::Collect(CollectRequest {
        live,
        at: 0,
        grace: 0,
        scope: None,
    });
    let begins = counted.begin(alloc, 0, &request);
    drop(request);
    begins
}

/// Slot 0 takes turns, and is fed the list where it waits, until nothing runs there. Tells how many
/// addresses were freed.
fn run(alloc: Global, counted: &mut Counted, live: &[Text]) -> Result<u64, AllocError>
    requires sound { All IsHandleId live.now }
    requires begun { (before : List Entry) × IsStart counted.old before }
    ensures collected { IfOk result (Goes counted.old counted.new live.now) }
    ensures idle { OnOk result (slot_of_cluster counted.new.cluster 0 ≡ None) }
{
    let mut freed = 0;
    loop {
        match counted.cluster.state(0) {
            SlotState::Idle => return Ok(freed),
            SlotState::Running => freed = turn(alloc, counted)?,
            SlotState::Waiting => {
                counted.feed(alloc, live)?;
                freed = 0;
            }
        }
    }
}

/// Slot 0 takes a turn.
fn turn(alloc: Global, counted: &mut Counted) -> Result<u64, AllocError>
    requires running { state_in (slot_of_cluster counted.old.cluster 0) ≡ state.Running }
    requires somewhere { IsSomewhere counted.old }
    ensures turned { IfOk result (Turns counted.old counted.new) }
    ensures counts { OnOk result (CountsOne counted.old.cluster counted.new.cluster) }
{
    let entry = counted.turn(alloc, 0)?;
    let freed = freed_in(&entry);
    drop(entry);
    Ok(freed)
}
