// What one pass does among many.
ghost use Rattle.std.specs.Prelude.{◌≡◌};
ghost use Rattle.ipam_model.specs.SoundRequest.{IsSoundRequest};

use crate::requests;
use crate::runs::{asked, finished};
use crate::team::{Team, Turned};
use ipam_addr::Addr;
use ipam_model::Request;
use ipam_shared::Pass;
use std::alloc::Global;
use std::sync::Wait;

/// How often a DEL is asked for that is not answered.
const MOST_TRIES: u32 = 40;

/// What each pass does.
#[derive(Clone, Copy)]
pub enum Job {
    /// So many handles ask for an address each.
    Grants(u32),
    /// So many turns are taken, of ADDs and DELs of one handle.
    Turns(u32),
}

/// An address that a handle was given, and whether it was given back since.
#[derive(Clone, Copy)]
pub struct Grant {
    pub slot: u8,
    pub number: u32,
    pub address: Addr,
    pub is_deleted: bool,
}

/// A pass, and what came of the requests that were made by it.
#[derive(Drop)]
pub struct Worked {
    pub pass: Pass,
    pub grants: Vec<Grant>,
    /// How many ADDs were not answered an address.
    pub failed: u32,
    /// How many handles could not be deleted, or were not asked for since there was no memory.
    pub lost: u32,
    /// How many turns were taken.
    pub turns: u32,
}

/// Does the job by the pass.
pub fn work<R: Wait, T: Team>(rt: &R, alloc: Global, team: &T, pass: Pass, job: Job) -> Worked
    requires { pass.lock ≡ T.id team.now }
    ensures { result.pass.lock ≡ T.id team.now }
{
    let mut worked = Worked {
        pass,
        grants: Vec::new(alloc),
        failed: 0,
        lost: 0,
        turns: 0,
    };
    match job {
        Job::Grants(count) => ask_all(rt, alloc, team, &mut worked, count),
        Job::Turns(count) => take_all(rt, alloc, team, &mut worked, count),
    }
    worked
}

fn ask_all<R: Wait, T: Team>(rt: &R, alloc: Global, team: &T, worked: &mut Worked, count: u32)
    requires { worked.old.pass.lock ≡ T.id team.now }
    ensures { worked.new.pass.lock ≡ worked.old.pass.lock }
{
    for number in 0..count {
        if !ask(rt, alloc, team, worked, number) {
            worked.lost = worked.lost.wrapping_add(1);
        }
    }
}

/// One handle asks for an address. Two slots have one node, so they race for its blocks. Each second one gives it
/// back, and so does one that was not given any, since a part of it may be recorded. Whether that was answered.
fn ask<R: Wait, T: Team>(rt: &R, alloc: Global, team: &T, worked: &mut Worked, number: u32) -> bool
    requires { worked.old.pass.lock ≡ T.id team.now }
    ensures { worked.new.pass.lock ≡ worked.old.pass.lock }
{
    let slot = worked.pass.slot();
    let node = slot / 2;
    let text = format!(in alloc; r#"{{"add":{{"handle":"n.s{slot}x{number}","node":"w{node}"}}}}"#);
    let added = asked(rt, alloc, team, &mut worked.pass, text);
    let keeps = number % 2 == 1 && matches!(added, Turned::Added(_));
    if !keeps && !is_deleted(rt, alloc, team, &mut worked.pass, number) {
        return false;
    }
    let Turned::Added(address) = added else {
        worked.failed = worked.failed.wrapping_add(1);
        return true;
    };
    let grant = Grant {
        slot,
        number,
        address,
        is_deleted: !keeps,
    };
    worked.grants.push(grant).is_ok()
}

/// Asks for the deletion of the pass's handle with this number until it is answered, and says whether it was.
fn is_deleted<R: Wait, T: Team>(
    rt: &R,
    alloc: Global,
    team: &T,
    pass: &mut Pass,
    number: u32,
) -> bool
    requires { pass.old.lock ≡ T.id team.now }
    ensures { pass.new.lock ≡ pass.old.lock }
{
    let slot = pass.slot();
    for _ in 0..MOST_TRIES {
        let text = format!(in alloc; r#"{{"del":{{"handle":"n.s{slot}x{number}"}}}}"#);
        if matches!(asked(rt, alloc, team, pass, text), Turned::Deleted) {
            return true;
        }
    }
    false
}

/// Takes so many turns by ADDs and DELs of one handle, and then those of the last one.
fn take_all<R: Wait, T: Team>(rt: &R, alloc: Global, team: &T, worked: &mut Worked, turns: u32)
    requires { worked.old.pass.lock ≡ T.id team.now }
    ensures { worked.new.pass.lock ≡ worked.old.pass.lock }
{
    let Some((add, del)) = requests::add_and_del(alloc, worked.pass.slot()) else {
        return;
    };
    let mut adds = true;
    for _ in 0..turns {
        let is_idle = !worked.pass.running();
        if goes_on(rt, alloc, team, &mut worked.pass, &add, &del, adds) {
            worked.turns = worked.turns.wrapping_add(1);
        }
        adds = adds != is_idle;
    }
    finished(rt, alloc, team, &mut worked.pass);
}

/// Takes the next turn of what runs in the pass's slot, or begins one of the two requests where nothing
/// does, and says whether it could.
fn goes_on<R: Wait, T: Team>(
    rt: &R,
    alloc: Global,
    team: &T,
    pass: &mut Pass,
    add: &Request,
    del: &Request,
    adds: bool,
) -> bool
    requires lock { pass.old.lock ≡ T.id team.now }
    requires add { IsSoundRequest add.now }
    requires del { IsSoundRequest del.now }
    ensures { pass.new.lock ≡ pass.old.lock }
{
    if pass.running() {
        !matches!(team.turned(rt, alloc, pass), Turned::Nothing)
    } else if adds {
        team.begins(rt, alloc, pass, add)
    } else {
        team.begins(rt, alloc, pass, del)
    }
}

/// What both did. The other's pass is joined, where nothing runs in its slot.
pub fn both<T: Team>(team: &T, mut worked: Worked, other: Worked) -> Worked
    requires worked { worked.pass.lock ≡ T.id team.now }
    requires other { other.pass.lock ≡ T.id team.now }
    ensures { result.pass.lock ≡ T.id team.now }
{
    let Worked {
        pass,
        grants,
        failed,
        lost,
        turns,
    } = other;
    team.take_back(&mut worked.pass, pass);
    worked.failed = worked.failed.wrapping_add(failed);
    worked.lost = worked.lost.wrapping_add(lost);
    worked.turns = worked.turns.wrapping_add(turns);
    if worked.grants.extend_from_slice(grants.as_slice()).is_err() {
        worked.lost = worked.lost.wrapping_add(1);
    }
    worked
}
