// Many passes, each in a thread of its own.
ghost use Rattle.std.specs.Prelude.{◌≡◌, ◌+◌, ◌*◌, ◌-◌};
ghost use denote.Param.Send.{IsSync};

use crate::runs::asked;
use crate::team::{Team, Turned};
use crate::told::Told;
use crate::workers::{Grant, Job, Worked, both, work};
use crate::{keepers, requests};
use ipam_keeper::{Keeper, MemoryKeeper};
use ipam_shared::Pass;
use std::alloc::{AllocError, Global};
use std::sync::Wait;
use std::thread::{Threads, join};

/// How many addresses there may be, which are those below 10.0.16.0.
const ADDRESSES: usize = 4096;

/// The job is done by so many threads and one more, each with a pass of its own, over a keeper in memory.
// Apart, so that it is shown once that this keeper may cross threads.
pub fn tell<R: Threads + Wait + Sync>(
    rt: &R,
    alloc: Global,
    keeper: MemoryKeeper,
    others: u64,
    job: Job,
    told: &mut Told,
) {
    tell_over(rt, alloc, keeper, others, job, told);
}

/// Tells how many turns were made by all, or of the addresses that were asked for.
fn tell_over<R: Threads + Wait + Sync, D: Keeper + Drop + Send>(
    rt: &R,
    alloc: Global,
    keeper: D,
    others: u64,
    job: Job,
    told: &mut Told,
) {
    let Some((shared, pass)) = keepers::share(alloc, keeper) else {
        told.push(String::from_str(alloc, "not opened"));
        return;
    };
    let Worked {
        pass,
        grants,
        failed,
        lost,
        turns,
    } = spread(rt, alloc, &shared, pass, others, job);
    let keeper = keepers::close(rt, shared, pass);
    match job {
        Job::Grants(_) => {
            told.push(asked_text(alloc, &grants, failed, lost));
            told.push(right_text(rt, alloc, keeper, &grants));
        }
        Job::Turns(_) => told.push(format!(in alloc; "{turns} turns")),
    }
}

/// Does the job by this pass and by each of `others` passes that are split off, each in a thread of its own
/// that is joined.
fn spread<R: Threads + Wait + Sync, T: Team + Sync>(
    rt: &R,
    alloc: Global,
    team: &T,
    mut pass: Pass,
    others: u64,
    job: Job,
) -> Worked
    requires { pass.lock ≡ T.id team.now }
    ensures { result.pass.lock ≡ T.id team.now }
{
    if others == 0 {
        return work(rt, alloc, team, pass, job);
    }
    let Some(other) = team.split_off(&mut pass) else {
        return work(rt, alloc, team, pass, job);
    };
    let more = others - 1;
    let (worked, other) = join(
        rt,
        move || -> Worked
            requires { IsSync R.row × IsSync T.row × (pass.lock ≡ T.id team.now) }
            ensures { result.pass.lock ≡ T.id team.entry.now }
        { spread(rt, alloc, team, pass, more, job) },
        move || -> Worked
            requires { IsSync R.row × (other.lock ≡ T.id team.now) }
            ensures { result.pass.lock ≡ T.id team.entry.now }
        { work(rt, alloc, team, other, job) },
    );
    both(team, worked, other)
}

/// How many addresses were asked for, and what became of them.
fn asked_text(
    alloc: Global,
    grants: &[Grant],
    failed: u32,
    lost: u32,
) -> Result<String, AllocError> {
    let mut held = 0u32;
    let mut twice = false;
    let mut is_held = vec![in alloc; false; ADDRESSES]?;
    for one in grants {
        if !one.is_deleted
            && let Some(is_held) = is_held.get_mut((one.address.number % 4096) as usize)
        {
            twice = twice || *is_held;
            *is_held = true;
            held = held.wrapping_add(1);
        }
    }
    let asked = grants.len().wrapping_add(failed as usize);
    let (many_failed, many_held) = (failed > 100, held > 200);
    format!(in alloc;
        "asked: {asked}, lost: {lost}, many failed: {many_failed}, many held: {many_held}, twice: {twice}, "
    )
}

/// Whether the rows open, and the handle of each has its address, or has it no more where it was given
/// back.
fn right_text<R: Wait, D: Keeper + Drop>(
    rt: &R,
    alloc: Global,
    keeper: D,
    grants: &[Grant],
) -> Result<String, AllocError> {
    let right = match keepers::share(alloc, keeper) {
        Some((shared, mut pass)) => {
            let right = count_right(rt, alloc, &shared, &mut pass, grants);
            drop(keepers::close(rt, shared, pass));
            right == grants.len()
        }
        None => false,
    };
    format!(in alloc; "right: {right}")
}

fn count_right<R: Wait, T: Team>(
    rt: &R,
    alloc: Global,
    team: &T,
    pass: &mut Pass,
    grants: &[Grant],
) -> usize
    requires { pass.old.lock ≡ T.id team.now }
    ensures { pass.new.lock ≡ pass.old.lock }
{
    let mut count = 0usize;
    for one in grants {
        let text = requests::check(alloc, one.slot, one.number, one.address);
        let has = matches!(asked(rt, alloc, team, pass, text), Turned::Checked);
        if has != one.is_deleted {
            count = count.wrapping_add(1);
        }
    }
    count
}
