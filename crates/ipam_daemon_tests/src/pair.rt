// Steps by two passes of one cluster.
ghost use Rattle.std.specs.Prelude.{◌≡◌};

use crate::keepers;
use crate::runs::{asked, begun, finished};
use crate::team::{Team, Turned};
use crate::told::Told;
use ipam_addr::push_addr;
use ipam_keeper::Keeper;
use ipam_shared::Pass;
use std::alloc::{AllocError, Global};
use std::sync::Wait;

/// Takes the steps over what the keeper has. Those after a line `anew` are over what it has then, opened anew.
pub fn tell<R: Wait, D: Keeper + Drop>(
    rt: &R,
    alloc: Global,
    keeper: D,
    steps: &str,
    told: &mut Told,
) {
    let (steps, anew) = steps.split_once("\nanew\n").unwrap_or((steps, ""));
    match tell_once(rt, alloc, keeper, steps, told) {
        Some(keeper) => drop(tell_once(rt, alloc, keeper, anew, told)),
        None => told.push(String::from_str(alloc, "not opened")),
    }
}

/// Takes the steps. The keeper behind the cluster then, or none where its rows are not opened.
fn tell_once<R: Wait, D: Keeper + Drop>(
    rt: &R,
    alloc: Global,
    keeper: D,
    steps: &str,
    told: &mut Told,
) -> Option<D> {
    let (shared, mut one) = keepers::share(alloc, keeper)?;
    by_two(rt, alloc, &shared, &mut one, steps, told);
    Some(keepers::close(rt, shared, one))
}

/// Takes each step by the first pass, or by one that is split off and joined again where its line begins so.
fn by_two<R: Wait, T: Team>(
    rt: &R,
    alloc: Global,
    team: &T,
    one: &mut Pass,
    steps: &str,
    told: &mut Told,
)
    requires { one.old.lock ≡ T.id team.now }
    ensures { one.new.lock ≡ one.old.lock }
{
    let Some(mut other) = team.split_off(one) else {
        told.push(String::from_str(alloc, "not split"));
        return;
    };
    for line in steps.lines() {
        match line.strip_prefix("other ") {
            Some(step) => tell_step(rt, alloc, team, &mut other, step, told),
            None => tell_step(rt, alloc, team, one, line, told),
        }
    }
    team.take_back(one, other);
}

/// Tells the step and what comes of it.
fn tell_step<R: Wait, T: Team>(
    rt: &R,
    alloc: Global,
    team: &T,
    pass: &mut Pass,
    step: &str,
    told: &mut Told,
)
    requires { pass.old.lock ≡ T.id team.now }
    ensures { pass.new.lock ≡ pass.old.lock }
{
    let answer = answered(rt, alloc, team, pass, step);
    told.push(format!(in alloc; "{step}: "));
    told.push(answer);
    told.push(String::from_str(alloc, "\n"));
}

/// `begin REQUEST`, `turn`, `finish`, `ask REQUEST`, `settle`, or `sure`: whether the pass knows all to be sure.
fn answered<R: Wait, T: Team>(
    rt: &R,
    alloc: Global,
    team: &T,
    pass: &mut Pass,
    step: &str,
) -> Result<String, AllocError>
    requires { pass.old.lock ≡ T.id team.now }
    ensures { pass.new.lock ≡ pass.old.lock }
{
    let (word, rest) = step.split_once(' ').unwrap_or((step, ""));
    let text = String::from_str(alloc, rest);
    match word {
        "turn" => turned_text(alloc, team.turned(rt, alloc, pass)),
        "finish" => turned_text(alloc, finished(rt, alloc, team, pass)),
        "ask" => turned_text(alloc, asked(rt, alloc, team, pass, text)),
        "begin" => truth_text(alloc, begun(rt, alloc, team, pass, text)),
        "settle" => truth_text(alloc, team.settles(rt, pass)),
        _ => truth_text(alloc, pass.is_sure()),
    }
}

fn truth_text(alloc: Global, truth: bool) -> Result<String, AllocError> {
    format!(in alloc; "{truth}")
}

fn turned_text(alloc: Global, turned: Turned) -> Result<String, AllocError> {
    let word = match turned {
        Turned::Added(address) => {
            let mut text = String::new(alloc);
            push_addr(alloc, &mut text, address)?;
            return Ok(text);
        }
        Turned::Nothing => "nothing",
        Turned::Goes => "goes",
        Turned::Deleted => "deleted",
        Turned::Checked => "checked",
        Turned::Answered => "answered",
    };
    String::from_str(alloc, word)
}
