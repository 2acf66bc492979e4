// Requests that run by the turns of a pass.
ghost use Rattle.std.specs.Prelude.{◌≡◌};

use crate::requests;
use crate::team::{Team, Turned};
use ipam_shared::Pass;
use std::alloc::{AllocError, Global};
use std::sync::Wait;

/// No request here makes so many calls.
const MOST_CALLS: u32 = 100_000;

/// The answer of the request of this text, turn by turn. Nothing where it could not be begun or found no end.
pub fn asked<R: Wait, T: Team>(
    rt: &R,
    alloc: Global,
    team: &T,
    pass: &mut Pass,
    text: Result<String, AllocError>,
) -> Turned
    requires { pass.old.lock ≡ T.id team.now }
    ensures { pass.new.lock ≡ pass.old.lock }
{
    if begun(rt, alloc, team, pass, text) {
        finished(rt, alloc, team, pass)
    } else {
        Turned::Nothing
    }
}

/// Whether the request of this text could be begun.
pub fn begun<R: Wait, T: Team>(
    rt: &R,
    alloc: Global,
    team: &T,
    pass: &mut Pass,
    text: Result<String, AllocError>,
) -> bool
    requires { pass.old.lock ≡ T.id team.now }
    ensures { pass.new.lock ≡ pass.old.lock }
{
    match requests::read(alloc, text) {
        Some(request) => team.begins(rt, alloc, pass, &request),
        None => false,
    }
}

/// The answer of what runs, turn by turn.
pub fn finished<R: Wait, T: Team>(rt: &R, alloc: Global, team: &T, pass: &mut Pass) -> Turned
    requires { pass.old.lock ≡ T.id team.now }
    ensures { pass.new.lock ≡ pass.old.lock }
{
    for _ in 0..MOST_CALLS {
        if !pass.running() {
            break;
        }
        let turned = team.turned(rt, alloc, pass);
        if !matches!(turned, Turned::Nothing | Turned::Goes) {
            return turned;
        }
    }
    Turned::Nothing
}
