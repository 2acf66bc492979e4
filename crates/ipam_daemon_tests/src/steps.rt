// Steps of the slots of a kept cluster, of which some may be taken after nearly as many entries as there may be.
ghost use Rattle.std.specs.Prelude.{◌≤◌, ◌<◌, ◌^◌};
ghost use Rattle.ipam_model.specs.SoundRequest.{IsSoundRequest};
ghost use Rattle.ipam_shared.specs.Kept.{IsKept};

use crate::told::Told;
use crate::{keepers, requests};
use ipam_keeper::Keeper;
use ipam_model::{Entry, Request, SLOTS, SlotState};
use ipam_shared::{Kept, PrepareFault};
use std::alloc::{AllocError, Global};
use std::fmt::Debug;

/// The most entries that a cluster may be opened with here.
const MOST_FIRST: u64 = 1 << 62;

/// Tells what comes of each step in a cluster after so many entries, and how many entries there are then.
pub fn tell<D: Keeper + Drop>(alloc: Global, keeper: D, first: u64, steps: &str, told: &mut Told) {
    let Some(mut kept) = keepers::open(alloc, keeper, first.min(MOST_FIRST)) else {
        told.push(String::from_str(alloc, "not opened"));
        return;
    };
    for line in steps.lines() {
        told.push(step_text(alloc, &mut kept, line));
    }
    let entries = kept.cluster().entries();
    told.push(format!(in alloc; "{entries} entries"));
    drop(kept.into_keeper());
}

/// What comes of a step: `begin SLOT`, of a DEL, `feed SLOT`, `turn SLOT`, `stop SLOT`, or `take TURNS`.
fn step_text<D: Keeper>(alloc: Global, kept: &mut Kept<D>, line: &str) -> Result<String, AllocError>
    requires { IsKept D.rows kept.old }
    ensures { IsKept D.rows kept.new }
{
    let (word, number) = line.split_once(' ').unwrap_or((line, ""));
    let number = number.parse().unwrap_or(u64::MAX);
    if word == "take" {
        let made = take(alloc, kept, number);
        return format!(in alloc; "{made} turns\n");
    }
    if number >= SLOTS as u64 {
        return String::from_str(alloc, "no such slot\n");
    }
    done_text(alloc, kept, word, number as u8)
}

fn done_text<D: Keeper>(
    alloc: Global,
    kept: &mut Kept<D>,
    word: &str,
    slot: u8,
) -> Result<String, AllocError>
    requires slot { slot < SLOTS }
    requires kept { IsKept D.rows kept.old }
    ensures { IsKept D.rows kept.new }
{
    if word == "begin" {
        return begun_text(alloc, kept, slot);
    }
    if word == "feed" {
        return answer_text(alloc, kept.feed(alloc, slot, &[], 0));
    }
    if word == "turn" {
        return answer_text(alloc, kept.turn(alloc, slot));
    }
    answer_text(alloc, kept.stop(slot).ok_or(PrepareFault::SlotIdle))
}

fn begun_text<D: Keeper>(alloc: Global, kept: &mut Kept<D>, slot: u8) -> Result<String, AllocError>
    requires slot { slot < SLOTS }
    requires kept { IsKept D.rows kept.old }
    ensures { IsKept D.rows kept.new }
{
    match requests::read(
        alloc,
        String::from_str(alloc, r#"{"del":{"handle":"n.c1"}}"#),
    ) {
        Some(request) => answer_text(alloc, kept.begin(alloc, slot, &request)),
        None => Err(AllocError),
    }
}

/// `done`, or the fault. The entry is dropped here, in one place, since its drop is dear to check.
fn answer_text<F: Debug + Drop>(
    alloc: Global,
    answer: Result<Entry, F>,
) -> Result<String, AllocError> {
    match answer {
        Ok(entry) => {
            drop(entry);
            String::from_str(alloc, "done\n")
        }
        Err(fault) => format!(in alloc; "{fault:?}\n"),
    }
}

/// How many of so many turns were made in slot 0, by ADDs and DELs of one handle.
fn take<D: Keeper>(alloc: Global, kept: &mut Kept<D>, turns: u64) -> u64
    requires { IsKept D.rows kept.old }
    ensures { IsKept D.rows kept.new }
{
    let Some((add, del)) = requests::add_and_del(alloc, 0) else {
        return 0;
    };
    let mut made = 0u64;
    let mut adds = true;
    for _ in 0..turns {
        let is_idle = kept.cluster().state(0) == SlotState::Idle;
        if goes_on(alloc, kept, &add, &del, adds) {
            made = made.wrapping_add(1);
        }
        adds = adds != is_idle;
    }
    made
}

/// Makes the next call, or begins one of the two requests where none runs, and says whether it could.
fn goes_on<D: Keeper>(
    alloc: Global,
    kept: &mut Kept<D>,
    add: &Request,
    del: &Request,
    adds: bool,
) -> bool
    requires kept { IsKept D.rows kept.old }
    requires add { IsSoundRequest add.now }
    requires del { IsSoundRequest del.now }
    ensures { IsKept D.rows kept.new }
{
    if kept.cluster().state(0) != SlotState::Idle {
        is_made(kept.turn(alloc, 0))
    } else if adds {
        is_made(kept.begin(alloc, 0, add))
    } else {
        is_made(kept.begin(alloc, 0, del))
    }
}

fn is_made<F: Drop>(answer: Result<Entry, F>) -> bool {
    match answer {
        Ok(entry) => {
            drop(entry);
            true
        }
        Err(_) => false,
    }
}
