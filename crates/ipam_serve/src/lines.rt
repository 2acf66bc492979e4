//! A line is answered.
ghost use Rattle.std.specs.Prelude.{◌≡◌, ◌⊎◌, ℕ, Option, Some, None, Err, IfOk, OnOk, OnErr, IsTrue, option_map};
ghost use Rattle.std.specs.List.{All};
ghost use Rattle.ipam_io.specs.Readings.{prepend_known_readings};
ghost use Rattle.ipam_records.specs.Sound.{IsHandleId};
ghost use Rattle.ipam_model.specs.SoundRequest.{IsSoundRequest};
ghost use Rattle.ipam_model.specs.CanAnswer.{CanAnswer};
ghost use Rattle.ipam_session.specs.Calls.{IsOfCall, IsSoundBegun, call_begun, call_reply_told, is_of_call};
ghost use Rattle.ipam_session.specs.Lines.{called_reply};
ghost use Rattle.ipam_session.specs.Wishes.{IsSoundWish};
ghost use Rattle.ipam_serve.specs.Spans.{IsTimeless};
ghost use Rattle.ipam_session.specs.declared.wish.Wish.TheVariants as wish;
ghost use Rattle.ipam_shared.specs.Passes.{runs_in};
ghost use Rattle.ipam_serve.specs.Asking.{WasAdmitted};
ghost use Rattle.ipam_serve.specs.Calls.{EachCall};
ghost use Rattle.ipam_serve.specs.Faults.{Halts, OnMemory, OnWorn};
ghost use Rattle.ipam_serve.specs.Keeping.{MakesCalls};
ghost use Rattle.ipam_serve.specs.Lines.{BreaksOff, FoundNone, Replies, WearsOut, asked_by, is_collect, clock_reading, reply_ran, server_at, timed};
ghost use Rattle.ipam_serve.specs.Outcomes.{Comes, ComesOfCall};
ghost use Rattle.ipam_serve.specs.Runs.{IsAtRest};

use crate::gates::SessionGate;
use crate::looks::{PageLook, UsageLook};
use crate::opening::Opening;
use crate::patience::Patience;
use crate::ran::{Broken, Ran};
use crate::requests::{run_call, run_feed, run_request};
use crate::turns::{look, routes_since};
use crate::wishes::ReadsWishes;
use cni_types::Version;
use ipam_io::Clock;
use ipam_model::{Answer, Request};
use ipam_records::Key;
use ipam_session::{CallBegun, Refusal, Reply, RowKind, Wish, begin_call, tell_call};
use ipam_shared::{Keeper, Pass, Shared, SpentPass};
use ipam_text::{Seq, Text};
use std::alloc::{AllocError, Global};
use std::sync::Wait;

/// Does what the line asks, in the pass's slot, and gives its reply. What is begun goes on to its
/// answer, or until a collection waits. The line's bytes are let go before anything begins. On `Err` what
/// was begun still runs. What reads the line is usually the allocator itself.
pub fn answer_line<R: Wait, D: Keeper, G: SessionGate, C: Clock, P: Patience, T: ReadsWishes>(
    rt: &R,
    alloc: Global,
    reads: &T,
    shared: &Shared<D>,
    opening: &Opening,
    pass: &mut Pass,
    gate: &mut G,
    clock: &mut C,
    patience: &mut P,
    line: Vec<u8>,
) -> Result<Reply, Broken>
    requires lock { pass.old.lock ≡ shared.now }
    requires rests { IsAtRest (runs_in pass.old) }
    ensures replied { IfOk result (λ reply. Replies (asked_by line.items) reply
        (server_at pass.old (G.turns gate.old) (C.ahead clock.old))
        (server_at pass.new (G.turns gate.new) (C.ahead clock.new))) }
    ensures broken { OnErr result (BreaksOff (asked_by line.items)
        (server_at pass.old (G.turns gate.old) (C.ahead clock.old))
        (server_at pass.new (G.turns gate.new) (C.ahead clock.new))) }
    ensures rests { OnOk result (IsAtRest (runs_in pass.new)) }
    ensures worn { OnWorn result (WearsOut (asked_by line.items) pass.old pass.new) }
    ensures memory { OnMemory result
        (((server_at pass.new (G.turns gate.new) (C.ahead clock.new) ≡ server_at pass.old (G.turns gate.old) (C.ahead clock.old))
        × T.wants reads.now)
        ⊎ FoundNone (asked_by line.items)
        (server_at pass.old (G.turns gate.old) (C.ahead clock.old))
        (server_at pass.new (G.turns gate.new) (C.ahead clock.new))) }
    ensures opened { asked_by line.items ≡ Some Wish.Opened
        → IfOk result (λ reply. reply ≡ Reply.Opened opening.now) }
    ensures stops { Halts result (G.stops gate.old) (G.stops gate.new) }
    ensures keeper { MakesCalls D.rows D.given D.faults pass.old pass.new }
    ensures admitted { EachCall (WasAdmitted G.admits) pass.old pass.new }
    ensures lines { G.lines gate.new ≡ G.lines gate.old }
{
    match reads.wish_of(rt, opening, line) {
        Ok(Some(wish)) => answer_wish(
            rt, alloc, shared, opening, pass, gate, clock, patience, wish,
        ),
        Ok(None) => Ok(Reply::Refused(Refusal::Line)),
        Err(_) => Err(Broken::Memory),
    }
}

fn answer_wish<R: Wait, D: Keeper, G: SessionGate, C: Clock, P: Patience>(
    rt: &R,
    alloc: Global,
    shared: &Shared<D>,
    opening: &Opening,
    pass: &mut Pass,
    gate: &mut G,
    clock: &mut C,
    patience: &mut P,
    wish: Wish,
) -> Result<Reply, Broken>
    requires lock { pass.old.lock ≡ shared.now }
    requires rests { IsAtRest (runs_in pass.old) }
    requires sound { IsSoundWish wish }
    ensures comes { Comes D.rows D.given D.faults (Some wish) result
        (server_at pass.old (G.turns gate.old) (C.ahead clock.old))
        (server_at pass.new (G.turns gate.new) (C.ahead clock.new)) }
    ensures opened { wish ≡ Wish.Opened
        → IfOk result (λ reply. reply ≡ Reply.Opened opening.now) }
    ensures stops { Halts result (G.stops gate.old) (G.stops gate.new) }
    ensures admitted { EachCall (WasAdmitted G.admits) pass.old pass.new }
    ensures lines { G.lines gate.new ≡ G.lines gate.old }
{
    match wish {
        Wish::Cni(env, stdin) => {
            answer_call(
                rt, alloc, shared, opening, pass, gate, clock, patience, env, stdin,
            )
        }
        Wish::Request(mut request) => {
            let reply = answer_request(
                rt,
                alloc,
                shared,
                pass,
                gate,
                clock,
                patience,
                &mut request,
            );
            drop(request);
            reply
        }
        Wish::Feed(live) => answer_feed(
            rt,
            alloc,
            shared,
            pass,
            gate,
            clock,
            patience,
            live.as_slice(),
        ),
        Wish::Stop => answer_stop(rt, shared, pass),
        Wish::Routes => answer_routes(rt, shared, pass),
        Wish::RoutesSince(revision) => answer_since(rt, shared, pass, revision),
        Wish::Rows(kind, after) => answer_page(rt, alloc, shared, pass, kind, &after),
        Wish::Usage => answer_usage(rt, alloc, shared, pass),
        Wish::Opened => answer_opened(alloc, opening),
    }
}

/// A CNI call.
fn answer_call<R: Wait, D: Keeper, G: SessionGate, C: Clock, P: Patience>(
    rt: &R,
    alloc: Global,
    shared: &Shared<D>,
    opening: &Opening,
    pass: &mut Pass,
    gate: &mut G,
    clock: &mut C,
    patience: &mut P,
    env: Seq<(Text, Text)>,
    stdin: Text,
) -> Result<Reply, Broken>
    requires lock { pass.old.lock ≡ shared.now }
    requires rests { IsAtRest (runs_in pass.old) }
    ensures comes { Comes D.rows D.given D.faults (Some (wish.Cni env stdin)) result
        (server_at pass.old (G.turns gate.old) (C.ahead clock.old))
        (server_at pass.new (G.turns gate.new) (C.ahead clock.new)) }
    ensures stops { Halts result (G.stops gate.old) (G.stops gate.new) }
    ensures admitted { EachCall (WasAdmitted G.admits) pass.old pass.new }
    ensures lines { G.lines gate.new ≡ G.lines gate.old }
{
    if pass.running() {
        return Ok(Reply::Refused(Refusal::Waiting));
    }
    match begin_of(rt, alloc, opening, env, stdin) {
        Ok(CallBegun::Told(status, text)) => Ok(Reply::Called(status, text)),
        Ok(CallBegun::Runs(request, version)) => {
            tell_run(rt, alloc, shared, pass, gate, patience, &request, version)
        }
        Err(_) => Err(Broken::Memory),
    }
}

/// What a CNI call begins. Its environment and its standard input are let go.
fn begin_of<R: Wait>(
    rt: &R,
    alloc: Global,
    opening: &Opening,
    env: Seq<(Text, Text)>,
    stdin: Text,
) -> Result<CallBegun, AllocError>
    ensures begun { IfOk result (λ begun. call_begun env stdin ≡ Some begun) }
    ensures sound { IfOk result IsSoundBegun }
    ensures of_call { IfOk result IsOfCall }
{
    let turn = opening.turn(rt, stdin.as_bytes().len());
    let begun = begin_call(alloc, env.as_slice(), stdin.as_str());
    turn.end();
    begun
}

/// A request.
fn answer_request<R: Wait, D: Keeper, G: SessionGate, C: Clock, P: Patience>(
    rt: &R,
    alloc: Global,
    shared: &Shared<D>,
    pass: &mut Pass,
    gate: &mut G,
    clock: &mut C,
    patience: &mut P,
    request: &mut Request,
) -> Result<Reply, Broken>
    requires lock { pass.old.lock ≡ shared.now }
    requires rests { IsAtRest (runs_in pass.old) }
    requires sound { IsSoundRequest request.old }
    ensures comes { Comes D.rows D.given D.faults (Some (wish.Request request.old)) result
        (server_at pass.old (G.turns gate.old) (C.ahead clock.old))
        (server_at pass.new (G.turns gate.new) (C.ahead clock.new)) }
    ensures stops { Halts result (G.stops gate.old) (G.stops gate.new) }
    ensures admitted { EachCall (WasAdmitted G.admits) pass.old pass.new }
    ensures lines { G.lines gate.new ≡ G.lines gate.old }
{
    if pass.running() {
        return Ok(Reply::Refused(Refusal::Waiting));
    }
    let _at = set_time(clock, request);
    match run_request(rt, alloc, shared, pass, gate, patience, request) {
        Ok(ran) => Ok(reply_ran(ran)),
        Err(broken) => Err(broken),
    }
}

/// A second list.
fn answer_feed<R: Wait, D: Keeper, G: SessionGate, C: Clock, P: Patience>(
    rt: &R,
    alloc: Global,
    shared: &Shared<D>,
    pass: &mut Pass,
    gate: &mut G,
    clock: &mut C,
    patience: &mut P,
    live: &[Text],
) -> Result<Reply, Broken>
    requires lock { pass.old.lock ≡ shared.now }
    requires rests { IsAtRest (runs_in pass.old) }
    requires sound { All IsHandleId live.now }
    ensures comes { Comes D.rows D.given D.faults (Some (wish.Feed live.now)) result
        (server_at pass.old (G.turns gate.old) (C.ahead clock.old))
        (server_at pass.new (G.turns gate.new) (C.ahead clock.new)) }
    ensures stops { Halts result (G.stops gate.old) (G.stops gate.new) }
    ensures admitted { EachCall (WasAdmitted G.admits) pass.old pass.new }
    ensures lines { G.lines gate.new ≡ G.lines gate.old }
{
    if !pass.running() {
        return Ok(Reply::Refused(Refusal::NotWaiting));
    }
    let at = clock.now();
    match run_feed(rt, alloc, shared, pass, gate, patience, live, at) {
        Ok(Some(answer)) => Ok(Reply::Answered(answer)),
        Ok(None) => Ok(Reply::Refused(Refusal::TooSoon)),
        Err(broken) => Err(broken),
    }
}

/// A stop.
fn answer_stop<R: Wait, D: Keeper>(
    rt: &R,
    shared: &Shared<D>,
    pass: &mut Pass,
) -> Result<Reply, Broken>
    requires lock { pass.old.lock ≡ shared.now }
    requires rests { IsAtRest (runs_in pass.old) }
    ensures comes { (turns : Option ℕ) (ahead : Option (ℕ → ℕ)) → Comes D.rows D.given D.faults (Some wish.Stop) result
        (server_at pass.old turns ahead)
        (server_at pass.new turns ahead) }
    ensures stops { (count : ℕ) → Halts result count count }
{
    if !pass.running() {
        return Ok(Reply::Refused(Refusal::NotWaiting));
    }
    if pass.left() < 2 {
        return Err(Broken::Worn);
    }
    match shared.stop(rt, pass) {
        Ok(entry) => {
            drop(entry);
            Ok(Reply::Stopped)
        }
        Err(SpentPass) => unreachable!(),
    }
}

/// Answers with all routes.
fn answer_routes<R: Wait, D: Keeper>(
    rt: &R,
    shared: &Shared<D>,
    pass: &mut Pass,
) -> Result<Reply, Broken>
    requires lock { pass.old.lock ≡ shared.now }
    requires rests { IsAtRest (runs_in pass.old) }
    ensures comes { (turns : Option ℕ) (ahead : Option (ℕ → ℕ)) → Comes D.rows D.given D.faults (Some wish.Routes) result
        (server_at pass.old turns ahead)
        (server_at pass.new turns ahead) }
    ensures stops { (count : ℕ) → Halts result count count }
{
    if pass.left() < 2 {
        return Err(Broken::Worn);
    }
    match shared.routes(rt, pass) {
        Ok((revision, routes)) => Ok(Reply::Routes(revision, Seq::of(routes))),
        Err(_) => Err(Broken::Memory),
    }
}

/// What became of the routes after the revision.
fn answer_since<R: Wait, D: Keeper>(
    rt: &R,
    shared: &Shared<D>,
    pass: &mut Pass,
    revision: u64,
) -> Result<Reply, Broken>
    requires lock { pass.old.lock ≡ shared.now }
    requires rests { IsAtRest (runs_in pass.old) }
    ensures comes { (turns : Option ℕ) (ahead : Option (ℕ → ℕ)) → Comes D.rows D.given D.faults (Some (wish.RoutesSince revision)) result
        (server_at pass.old turns ahead)
        (server_at pass.new turns ahead) }
    ensures stops { (count : ℕ) → Halts result count count }
{
    match routes_since(rt, shared, pass, revision) {
        Ok(since) => Ok(Reply::RoutesSince(since)),
        Err(broken) => Err(broken),
    }
}

/// A page of rows.
fn answer_page<R: Wait, D: Keeper>(
    rt: &R,
    alloc: Global,
    shared: &Shared<D>,
    pass: &mut Pass,
    kind: RowKind,
    after: &Option<Key>,
) -> Result<Reply, Broken>
    requires lock { pass.old.lock ≡ shared.now }
    requires rests { IsAtRest (runs_in pass.old) }
    ensures comes { (turns : Option ℕ) (ahead : Option (ℕ → ℕ)) → Comes D.rows D.given D.faults (Some (wish.Rows kind after.now)) result
        (server_at pass.old turns ahead)
        (server_at pass.new turns ahead) }
    ensures stops { (count : ℕ) → Halts result count count }
{
    match look(rt, shared, pass, PageLook { alloc, kind, after }) {
        Some(Ok(page)) => Ok(Reply::Rows(page)),
        Some(Err(_)) => Err(Broken::Memory),
        None => Err(Broken::Worn),
    }
}

/// What each pool is used for.
fn answer_usage<R: Wait, D: Keeper>(
    rt: &R,
    alloc: Global,
    shared: &Shared<D>,
    pass: &mut Pass,
) -> Result<Reply, Broken>
    requires lock { pass.old.lock ≡ shared.now }
    requires rests { IsAtRest (runs_in pass.old) }
    ensures comes { (turns : Option ℕ) (ahead : Option (ℕ → ℕ)) → Comes D.rows D.given D.faults (Some wish.Usage) result
        (server_at pass.old turns ahead)
        (server_at pass.new turns ahead) }
    ensures stops { (count : ℕ) → Halts result count count }
{
    match look(rt, shared, pass, UsageLook { alloc }) {
        Some(Ok((revision, pools))) => Ok(Reply::Usage(revision, Seq::of(pools))),
        Some(Err(_)) => Err(Broken::Memory),
        None => Err(Broken::Worn),
    }
}

/// The text of the opening.
fn answer_opened(alloc: Global, opening: &Opening) -> Result<Reply, Broken>
    ensures opened { IfOk result (λ reply. reply ≡ Reply.Opened opening.now) }
    ensures memory { OnErr result (result ≡ Err Broken.Memory) }
{
    match Text::copied(alloc, opening.text()) {
        Ok(text) => Ok(Reply::Opened(text)),
        Err(AllocError) => Err(Broken::Memory),
    }
}

/// Runs the request of a CNI call, and tells its answer.
fn tell_run<R: Wait, D: Keeper, G: SessionGate, P: Patience>(
    rt: &R,
    alloc: Global,
    shared: &Shared<D>,
    pass: &mut Pass,
    gate: &mut G,
    patience: &mut P,
    request: &Request,
    version: Version,
) -> Result<Reply, Broken>
    requires lock { pass.old.lock ≡ shared.now }
    requires idle { runs_in pass.old ≡ None }
    requires sound { IsSoundRequest request.now }
    requires of_call { IsTrue (is_of_call request.now) }
    requires timeless { IsTimeless request.now }
    ensures comes { ComesOfCall D.rows D.given D.faults request.now version result
        (record { pass = pass.old; turns = G.turns gate.old })
        (record { pass = pass.new; turns = G.turns gate.new }) }
    ensures stops { Halts result (G.stops gate.old) (G.stops gate.new) }
    ensures admitted { EachCall (WasAdmitted G.admits) pass.old pass.new }
    ensures lines { G.lines gate.new ≡ G.lines gate.old }
{
    match run_call(rt, alloc, shared, pass, gate, patience, request) {
        Ok(answer) => call_reply(alloc, request, &answer, version),
        Err(broken) => Err(broken),
    }
}

fn call_reply(
    alloc: Global,
    request: &Request,
    answer: &Answer,
    version: Version,
) -> Result<Reply, Broken>
    requires of_call { IsTrue (is_of_call request.now) }
    requires can_answer { CanAnswer request.now answer.now }
    ensures told { IfOk result (λ reply.
        option_map called_reply (call_reply_told request.now version answer.now) ≡ Some reply) }
    ensures memory { OnErr result (result ≡ Err Broken.Memory) }
{
    match tell_call(alloc, request, answer, version) {
        Ok((status, text)) => Ok(Reply::Called(status, text)),
        Err(_) => Err(Broken::Memory),
    }
}

/// Gives a collection the clock's time, and tells it.
fn set_time<C: Clock>(clock: &mut C, request: &mut Request) -> u64
    ensures timed { request.new ≡ timed result request.old }
    ensures reads { C.ahead clock.old
        ≡ prepend_known_readings (clock_reading (is_collect request.old) result) (C.ahead clock.new) }
    ensures sound { IsSoundRequest request.old → IsSoundRequest request.new }
{
    match request {
        Request::Collect(asked) => {
            let at = clock.now();
            asked.at = at;
            at
        }
        _ => 0,
    }
}

fn reply_ran(ran: Ran) -> Reply
    ensures { result ≡ reply_ran ran }
{
    match ran {
        Ran::Answered(answer) => Reply::Answered(answer),
        Ran::Waits => Reply::Waiting,
    }
}
