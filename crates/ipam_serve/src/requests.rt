//! What a session's slot is given goes on to its answer. The gate is passed before each call.
ghost use Rattle.std.specs.Prelude.{◌≡◌, Some, None, true, IsSome, IfOk, OnOk, OnErr, IfSome};
ghost use Rattle.std.specs.List.{All};
ghost use Rattle.ipam_records.specs.Sound.{IsHandleId};
ghost use Rattle.ipam_model.specs.declared.request.Request.{Request as Asked};
ghost use Rattle.ipam_model.specs.CanAnswer.{CanAnswer};
ghost use Rattle.ipam_model.specs.SoundRequest.{IsSoundRequest};
ghost use Rattle.ipam_shared.specs.Passes.{runs_in};
ghost use Rattle.ipam_serve.specs.Asking.{WasAdmitted};
ghost use Rattle.ipam_serve.specs.Calls.{EachCall};
ghost use Rattle.ipam_serve.specs.Faults.{FoundFed, FoundOnWay, FoundRoom, Halts, IfAnswered, IsWorn, OnMemory, OnWaits, OnWorn, answer_ran, spared_by};
ghost use Rattle.ipam_serve.specs.Gains.{request_running, is_early, is_waiting};
ghost use Rattle.ipam_serve.specs.Keeping.{MakesCalls};
ghost use Rattle.ipam_serve.specs.Lines.{IsUnanswered};
ghost use Rattle.ipam_serve.specs.Going.{FeedsOwn, GoesOnTo, GoesToAnswer, Steps};
ghost use Rattle.ipam_serve.specs.Runs.{DoesDeed, DoesPart, FeedsList};
ghost use Rattle.ipam_serve.specs.Spans.{Begins, Calls, IsTimeless, list_deed, own_feed, waits_of};

use crate::gates::SessionGate;
use crate::losses::Losses;
use crate::patience::Patience;
use crate::ran::{Broken, Ran};
use crate::turns::{Feeding, begin, call, feed};
use ipam_io::{Passed, Point};
use ipam_model::{Answer, Request};
use ipam_shared::{Keeper, Pass, Shared};
use ipam_text::Text;
use std::alloc::Global;
use std::sync::Wait;

/// Begins the request and goes on with it to its answer, or until it waits. It is one turn of the pass
/// for the beginning and one for each call, so that others may come between; the gate is passed before
/// each call. On `Err` what was begun still runs.
pub fn run_request<R: Wait, D: Keeper, G: SessionGate, P: Patience>(
    rt: &R,
    alloc: Global,
    shared: &Shared<D>,
    pass: &mut Pass,
    gate: &mut G,
    patience: &mut P,
    request: &Request,
) -> Result<Ran, Broken>
    requires lock { pass.old.lock ≡ shared.now }
    requires idle { runs_in pass.old ≡ None }
    requires sound { IsSoundRequest request.now }
    ensures ran { IfOk result (λ ran. DoesDeed
        (record { pass = pass.old; turns = G.turns gate.old }) (Begins request.now) (answer_ran ran) (spared_by ran)
        (record { pass = pass.new; turns = G.turns gate.new })) }
    ensures broken { OnErr result (DoesPart
        (record { pass = pass.old; turns = G.turns gate.old }) (Begins request.now) 1
        (record { pass = pass.new; turns = G.turns gate.new })) }
    ensures can_answer { IfOk result (λ ran. IfAnswered ran (CanAnswer request.now)) }
    ensures idle { IfOk result (λ ran. IfAnswered ran (λ told. runs_in pass.new ≡ None)) }
    ensures waits { IfOk result (λ ran. OnWaits ran
        ((is_waiting (runs_in pass.new) ≡ true) × (request_running (runs_in pass.new) ≡ Some request.now))) }
    ensures worn { OnWorn result (IsWorn 0 pass.old pass.new) }
    ensures memory { OnMemory result (FoundRoom pass.old pass.new) }
    ensures unanswered { OnWorn result (IsUnanswered pass.old pass.new) }
    ensures stops { Halts result (G.stops gate.old) (G.stops gate.new) }
    ensures keeper { MakesCalls D.rows D.given D.faults pass.old pass.new }
    ensures admitted { EachCall (WasAdmitted G.admits) pass.old pass.new }
    ensures lines { G.lines gate.new ≡ G.lines gate.old }
{
    patience.enter(rt);
    match begin(rt, alloc, shared, pass, request) {
        Ok(()) => run_on(rt, alloc, shared, pass, gate, patience),
        Err(broken) => {
            patience.leave();
            Err(broken)
        }
    }
}

/// Goes on with what runs to its answer, or until it waits, and lets those go on that came after. Where it
/// lost a race it lets others finish.
pub(crate) fn run_on<R: Wait, D: Keeper, G: SessionGate, P: Patience>(
    rt: &R,
    alloc: Global,
    shared: &Shared<D>,
    pass: &mut Pass,
    gate: &mut G,
    patience: &mut P,
) -> Result<Ran, Broken>
    requires lock { pass.old.lock ≡ shared.now }
    requires runs { IsSome (runs_in pass.old) }
    ensures went { GoesOnTo D.rows D.given D.faults result
        (record { pass = pass.old; turns = G.turns gate.old })
        (record { pass = pass.new; turns = G.turns gate.new }) }
    ensures stops { Halts result (G.stops gate.old) (G.stops gate.new) }
    ensures admitted { EachCall (WasAdmitted G.admits) pass.old pass.new }
    ensures lines { G.lines gate.new ≡ G.lines gate.old }
{
    let mut losses = Losses {
        count: 0,
        now: false,
    };
    loop {
        match step_on(rt, alloc, shared, pass, gate, &mut losses) {
            Ok(Some(ran)) => {
                patience.leave();
                return Ok(ran);
            }
            Ok(None) => losses.wait(rt, patience),
            Err(broken) => {
                patience.leave();
                return Err(broken);
            }
        }
    }
}

/// Makes the next call of what runs, or finds that it waits. None where the call has no answer.
fn step_on<R: Wait, D: Keeper, G: SessionGate>(
    rt: &R,
    alloc: Global,
    shared: &Shared<D>,
    pass: &mut Pass,
    gate: &mut G,
    losses: &mut Losses,
) -> Result<Option<Ran>, Broken>
    requires lock { pass.old.lock ≡ shared.now }
    requires runs { IsSome (runs_in pass.old) }
    ensures steps { Steps D.rows D.given D.faults result
        (record { pass = pass.old; turns = G.turns gate.old })
        (record { pass = pass.new; turns = G.turns gate.new }) }
    ensures stops { Halts result (G.stops gate.old) (G.stops gate.new) }
    ensures admitted { EachCall (WasAdmitted G.admits) pass.old pass.new }
    ensures lines { G.lines gate.new ≡ G.lines gate.old }
{
    match gate.pass(Point::Turn, pass) {
        Passed::Stop => Err(Broken::Halted),
        Passed::Go => call(rt, alloc, shared, pass, losses),
    }
}

/// Goes on with what runs to its answer. What waits though it was fed would never be answered; no request
/// does, and one that did would fail with `Memory`.
fn run_fed<R: Wait, D: Keeper, G: SessionGate, P: Patience>(
    rt: &R,
    alloc: Global,
    shared: &Shared<D>,
    pass: &mut Pass,
    gate: &mut G,
    patience: &mut P,
) -> Result<Option<Answer>, Broken>
    requires lock { pass.old.lock ≡ shared.now }
    requires runs { IsSome (runs_in pass.old) }
    ensures went { GoesToAnswer D.rows D.given D.faults result
        (record { pass = pass.old; turns = G.turns gate.old })
        (record { pass = pass.new; turns = G.turns gate.new }) }
    ensures stops { Halts result (G.stops gate.old) (G.stops gate.new) }
    ensures admitted { EachCall (WasAdmitted G.admits) pass.old pass.new }
    ensures lines { G.lines gate.new ≡ G.lines gate.old }
{
    match run_on(rt, alloc, shared, pass, gate, patience) {
        Ok(Ran::Answered(answer)) => Ok(Some(answer)),
        Ok(Ran::Waits) => Err(Broken::Memory),
        Err(broken) => Err(broken),
    }
}

/// Feeds the collection that waits its second list, and goes on to its answer. None where the grace is
/// not over, and it waits as before.
pub fn run_feed<R: Wait, D: Keeper, G: SessionGate, P: Patience>(
    rt: &R,
    alloc: Global,
    shared: &Shared<D>,
    pass: &mut Pass,
    gate: &mut G,
    patience: &mut P,
    live: &[Text],
    at: u64,
) -> Result<Option<Answer>, Broken>
    requires lock { pass.old.lock ≡ shared.now }
    requires waits { is_waiting (runs_in pass.old) ≡ true }
    requires sound { All IsHandleId live.now }
    ensures fed { IfOk result (λ told. FeedsList
        (record { pass = pass.old; turns = G.turns gate.old }) live.now at told
        (record { pass = pass.new; turns = G.turns gate.new })) }
    ensures broken { OnErr result (DoesPart
        (record { pass = pass.old; turns = G.turns gate.old }) (list_deed (is_early (runs_in pass.old) at) live.now at) 1
        (record { pass = pass.new; turns = G.turns gate.new })) }
    ensures can_answer { (request : Asked) → request_running (runs_in pass.old) ≡ Some request
        → IfOk result (λ told. IfSome told (CanAnswer request)) }
    ensures worn { OnWorn result (IsWorn 0 pass.old pass.new) }
    ensures memory { OnMemory result (FoundFed pass.old at pass.new) }
    ensures runs { OnWorn result (IsSome (runs_in pass.new)) }
    ensures stops { Halts result (G.stops gate.old) (G.stops gate.new) }
    ensures keeper { MakesCalls D.rows D.given D.faults pass.old pass.new }
    ensures admitted { EachCall (WasAdmitted G.admits) pass.old pass.new }
    ensures lines { G.lines gate.new ≡ G.lines gate.old }
{
    patience.enter(rt);
    match feed(rt, alloc, shared, pass, live, at) {
        Ok(Feeding::Fed) => run_fed(rt, alloc, shared, pass, gate, patience),
        Ok(Feeding::TooSoon) => {
            patience.leave();
            Ok(None)
        }
        Err(broken) => {
            patience.leave();
            Err(broken)
        }
    }
}

/// Begins the request of a CNI call and goes on with it to its answer. A collection is fed its own list
/// once it waits, at the time 0. On `Err` what was begun still runs.
pub fn run_call<R: Wait, D: Keeper, G: SessionGate, P: Patience>(
    rt: &R,
    alloc: Global,
    shared: &Shared<D>,
    pass: &mut Pass,
    gate: &mut G,
    patience: &mut P,
    request: &Request,
) -> Result<Answer, Broken>
    requires lock { pass.old.lock ≡ shared.now }
    requires idle { runs_in pass.old ≡ None }
    requires sound { IsSoundRequest request.now }
    requires timeless { IsTimeless request.now }
    ensures ran { IfOk result (λ told. DoesDeed
        (record { pass = pass.old; turns = G.turns gate.old }) (Calls request.now) (Some told) 1
        (record { pass = pass.new; turns = G.turns gate.new })) }
    ensures broken { OnErr result (DoesPart
        (record { pass = pass.old; turns = G.turns gate.old }) (Calls request.now) 2
        (record { pass = pass.new; turns = G.turns gate.new })) }
    ensures can_answer { IfOk result (CanAnswer request.now) }
    ensures idle { OnOk result (runs_in pass.new ≡ None) }
    ensures worn { OnWorn result (IsWorn (waits_of request.now) pass.old pass.new) }
    ensures memory { OnMemory result (FoundOnWay request.now pass.old pass.new) }
    ensures unanswered { OnWorn result (IsUnanswered pass.old pass.new) }
    ensures stops { Halts result (G.stops gate.old) (G.stops gate.new) }
    ensures keeper { MakesCalls D.rows D.given D.faults pass.old pass.new }
    ensures admitted { EachCall (WasAdmitted G.admits) pass.old pass.new }
    ensures lines { G.lines gate.new ≡ G.lines gate.old }
{
    match run_request(rt, alloc, shared, pass, gate, patience, request) {
        Ok(Ran::Answered(answer)) => Ok(answer),
        Ok(Ran::Waits) => feed_own(rt, alloc, shared, pass, gate, patience, request),
        Err(broken) => Err(broken),
    }
}

/// Feeds the collection that waits its own list. Nothing else waits, and what did would fail with
/// `Memory`.
fn feed_own<R: Wait, D: Keeper, G: SessionGate, P: Patience>(
    rt: &R,
    alloc: Global,
    shared: &Shared<D>,
    pass: &mut Pass,
    gate: &mut G,
    patience: &mut P,
    request: &Request,
) -> Result<Answer, Broken>
    requires lock { pass.old.lock ≡ shared.now }
    requires waits { is_waiting (runs_in pass.old) ≡ true }
    requires asked { request_running (runs_in pass.old) ≡ Some request.now }
    requires sound { IsSoundRequest request.now }
    requires timeless { IsTimeless request.now }
    ensures fed { FeedsOwn D.rows D.given D.faults (own_feed request.now) request.now result
        (record { pass = pass.old; turns = G.turns gate.old })
        (record { pass = pass.new; turns = G.turns gate.new }) }
    ensures stops { Halts result (G.stops gate.old) (G.stops gate.new) }
    ensures admitted { EachCall (WasAdmitted G.admits) pass.old pass.new }
    ensures lines { G.lines gate.new ≡ G.lines gate.old }
{
    let Request::Collect(asked) = request else {
        return Err(Broken::Memory);
    };
    let live = asked.live.as_slice();
    match run_feed(rt, alloc, shared, pass, gate, patience, live, 0) {
        Ok(Some(answer)) => Ok(answer),
        Ok(None) => unreachable!(),
        Err(broken) => Err(broken),
    }
}
