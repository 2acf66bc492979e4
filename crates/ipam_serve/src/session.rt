//! A session, line by line up to its end.
ghost use Rattle.std.specs.Prelude.{◌≡◌, ◌⊎◌, ◌<◌, ℕ, List, Option, None, IfOk, IfErr, OnOk, OnErr, false, option_map};
ghost use Rattle.std.specs.Io.KnownBytes.{append_known, prepend_known};
ghost use Rattle.ipam_io.specs.Counts.{next_count};
ghost use Rattle.ipam_io.specs.Streams.{AppendsPrefix};
ghost use Rattle.ipam_serve.specs.Lines.{server_at};
ghost use Rattle.ipam_session.specs.Replies.{reply_line};
ghost use Rattle.ipam_shared.specs.PassValue.{PassValue};
ghost use Rattle.ipam_shared.specs.Passes.{IsSamePass, runs_in};
ghost use Rattle.ipam_serve.specs.Asking.{WasAdmitted};
ghost use Rattle.ipam_serve.specs.Calls.{EachCall};
ghost use Rattle.ipam_serve.specs.Keeping.{at_keeper};
ghost use Rattle.ipam_serve.specs.Runs.{IsAtRest};
ghost use Rattle.ipam_shared.specs.Settling.{IsSure, KnowsSure, WasSettled};
ghost use Rattle.ipam_serve.specs.Gains.{Settles};
ghost use Rattle.ipam_serve.specs.Sessions.{Ends, EndsReply, Exchange, Exchanges, IsCause, Nothing, ReadsLine, RoseAt, RoseIf, Serves, Session, StopsLast, end_of, is_halted, is_read_fault, is_write_fault, talk_at};

use crate::ends::SessionEnd;
use crate::gates::SessionGate;
use crate::lines::answer_line;
use crate::opening::Opening;
use crate::patience::Patience;
use crate::ran::Broken;
use crate::settling::settle;
use ipam_io::{Clock, Got, Lines, LinesFault, Link, Passed, Point, SESSION_LINE_BYTES};
use ipam_session::{Reply, push_reply};
use ipam_shared::{Keeper, Pass, Shared, SpentPass};
use std::alloc::Global;
use std::sync::Wait;

/// Serves a session over the link, in the pass's slot, until it ends. A line is replied to before the
/// next is read, and after all was made sure of that it tells: so what is replied outlasts a crash. What
/// waits in the slot at the end is stopped by one more turn. It waits for the link and for turns at the
/// cluster.
pub fn serve_session<R: Wait, L: Link, D: Keeper, G: SessionGate, C: Clock, P: Patience>(
    rt: &R,
    alloc: Global,
    shared: &Shared<D>,
    opening: &Opening,
    pass: &mut Pass,
    gate: &mut G,
    clock: &mut C,
    patience: &mut P,
    link: &mut L,
) -> SessionEnd
    requires lock { pass.old.lock ≡ shared.now }
    requires idle { runs_in pass.old ≡ None }
    ensures served { (held : List ℕ) × Session (at_keeper D.rows D.settled D.given D.faults D.broken) result
        (talk_at (server_at pass.old (G.turns gate.old) (C.ahead clock.old)) opening.now (G.lines gate.old) (L.left link.old) (L.written link.old))
        (talk_at (server_at pass.new (G.turns gate.new) (C.ahead clock.new)) opening.now (G.lines gate.new) (prepend_known held (L.left link.new)) (L.written link.new)) }
    ensures idle { runs_in pass.new ≡ None }
    ensures same { IsSamePass pass.old pass.new }
    ensures admitted { EachCall (WasAdmitted G.admits) pass.old pass.new }
    ensures reads { RoseIf (is_read_fault result) (L.read_faults link.old) (L.read_faults link.new) }
    ensures writes { RoseIf (is_write_fault result) (L.write_faults link.old) (L.write_faults link.new) }
    ensures stops { RoseIf (is_halted result) (G.stops gate.old) (G.stops gate.new) }
{
    pass.forget_sure();
    let end = serve_lines(
        rt, alloc, shared, opening, pass, gate, clock, patience, link,
    );
    stop_last(rt, shared, pass);
    end
}

/// Reads, does and replies to lines until the session ends. What waits in the slot then still does.
fn serve_lines<R: Wait, D: Keeper, G: SessionGate, C: Clock, P: Patience, L: Link>(
    rt: &R,
    alloc: Global,
    shared: &Shared<D>,
    opening: &Opening,
    pass: &mut Pass,
    gate: &mut G,
    clock: &mut C,
    patience: &mut P,
    link: &mut L,
) -> SessionEnd
    requires lock { pass.old.lock ≡ shared.now }
    requires rests { IsAtRest (runs_in pass.old) }
    requires sure { IsSure D.rows D.settled pass.old }
    ensures served { (held : List ℕ) × Serves (at_keeper D.rows D.settled D.given D.faults D.broken) result
        (talk_at (server_at pass.old (G.turns gate.old) (C.ahead clock.old)) opening.now (G.lines gate.old) (L.left link.old) (L.written link.old))
        (talk_at (server_at pass.new (G.turns gate.new) (C.ahead clock.new)) opening.now (G.lines gate.new) (prepend_known held (L.left link.new)) (L.written link.new)) }
    ensures lock { pass.new.lock ≡ pass.old.lock }
    ensures admitted { EachCall (WasAdmitted G.admits) pass.old pass.new }
    ensures reads { RoseIf (is_read_fault result) (L.read_faults link.old) (L.read_faults link.new) }
    ensures writes { RoseIf (is_write_fault result) (L.write_faults link.old) (L.write_faults link.new) }
    ensures stops { RoseIf (is_halted result) (G.stops gate.old) (G.stops gate.new) }
{
    let mut lines = Lines::<SESSION_LINE_BYTES>::new(alloc);
    for _ in rt.forever() {
        match exchange(
            rt, alloc, shared, opening, pass, gate, clock, patience, link, &mut lines,
        ) {
            Ok(()) => {}
            Err(end) => return end,
        }
    }
    unreachable!()
}

/// Reads a line, does what it asks, makes sure of it and writes its reply.
fn exchange<R: Wait, D: Keeper, G: SessionGate, C: Clock, P: Patience, L: Link>(
    rt: &R,
    alloc: Global,
    shared: &Shared<D>,
    opening: &Opening,
    pass: &mut Pass,
    gate: &mut G,
    clock: &mut C,
    patience: &mut P,
    link: &mut L,
    lines: &mut Lines<SESSION_LINE_BYTES>,
) -> Result<(), SessionEnd>
    requires lock { pass.old.lock ≡ shared.now }
    requires rests { IsAtRest (runs_in pass.old) }
    requires sure { IsSure D.rows D.settled pass.old }
    ensures exchanged { OnOk result ((x : Exchange) × Exchanges (at_keeper D.rows D.settled D.given D.faults D.broken) x
        (talk_at (server_at pass.old (G.turns gate.old) (C.ahead clock.old)) opening.now (G.lines gate.old) (prepend_known lines.old (L.left link.old)) (L.written link.old))
        (talk_at (server_at pass.new (G.turns gate.new) (C.ahead clock.new)) opening.now (G.lines gate.new) (prepend_known lines.new (L.left link.new)) (L.written link.new))) }
    ensures ended { IfErr result (λ how. Ends (at_keeper D.rows D.settled D.given D.faults D.broken) how
        (talk_at (server_at pass.old (G.turns gate.old) (C.ahead clock.old)) opening.now (G.lines gate.old) (prepend_known lines.old (L.left link.old)) (L.written link.old))
        (talk_at (server_at pass.new (G.turns gate.new) (C.ahead clock.new)) opening.now (G.lines gate.new) (prepend_known lines.new (L.left link.new)) (L.written link.new))) }
    ensures rests { OnOk result (IsAtRest (runs_in pass.new)) }
    ensures sure { OnOk result (IsSure D.rows D.settled pass.new) }
    ensures lock { pass.new.lock ≡ pass.old.lock }
    ensures admitted { EachCall (WasAdmitted G.admits) pass.old pass.new }
    ensures reads { RoseAt is_read_fault result (L.read_faults link.old) (L.read_faults link.new) }
    ensures writes { RoseAt is_write_fault result (L.write_faults link.old) (L.write_faults link.new) }
    ensures stops { RoseAt is_halted result (G.stops gate.old) (G.stops gate.new) }
{
    match read_line(pass, gate, link, lines) {
        Ok(line) => {
            let told = answer_line(
                rt, alloc, &alloc, shared, opening, pass, gate, clock, patience, line,
            );
            match told {
                Ok(reply) => settle_and_reply(rt, alloc, shared, pass, patience, link, reply),
                Err(broken) => Err(end_of(broken)),
            }
        }
        Err(end) => Err(end),
    }
}

fn end_of(broken: Broken) -> SessionEnd
    ensures { result ≡ end_of broken }
{
    match broken {
        Broken::Halted => SessionEnd::Halted,
        Broken::Worn => SessionEnd::Worn,
        Broken::Memory => SessionEnd::Memory,
    }
}

/// Reads the next line, once the gate lets it.
fn read_line<G: SessionGate, L: Link>(
    pass: &Pass,
    gate: &mut G,
    link: &mut L,
    lines: &mut Lines<SESSION_LINE_BYTES>,
) -> Result<Vec<u8>, SessionEnd>
    ensures line { IfOk result (λ line. ReadsLine line.items (prepend_known lines.old (L.left link.old)) (prepend_known lines.new (L.left link.new))) }
    ensures none { OnErr result (prepend_known lines.new (L.left link.new) ≡ prepend_known lines.old (L.left link.old)) }
    ensures cause { (first last : PassValue) → IfErr result (λ how. IsCause how Nothing (prepend_known lines.old (L.left link.old)) first last) }
    ensures turns { G.turns gate.new ≡ G.turns gate.old }
    ensures asked { G.lines gate.new ≡ option_map next_count (G.lines gate.old) }
    ensures written { L.written link.new ≡ L.written link.old }
    ensures reads { RoseAt is_read_fault result (L.read_faults link.old) (L.read_faults link.new) }
    ensures writes { RoseAt is_write_fault result (L.write_faults link.old) (L.write_faults link.new) }
    ensures stops { RoseAt is_halted result (G.stops gate.old) (G.stops gate.new) }
{
    match gate.pass(Point::Line, pass) {
        Passed::Go => next_line(link, lines),
        Passed::Stop => Err(SessionEnd::Halted),
    }
}

/// Reads the next line.
fn next_line<L: Link>(
    link: &mut L,
    lines: &mut Lines<SESSION_LINE_BYTES>,
) -> Result<Vec<u8>, SessionEnd>
    ensures line { IfOk result (λ line. ReadsLine line.items (prepend_known lines.old (L.left link.old)) (prepend_known lines.new (L.left link.new))) }
    ensures none { OnErr result (prepend_known lines.new (L.left link.new) ≡ prepend_known lines.old (L.left link.old)) }
    ensures cause { (first last : PassValue) → IfErr result (λ how. IsCause how Nothing (prepend_known lines.old (L.left link.old)) first last) }
    ensures written { L.written link.new ≡ L.written link.old }
    ensures reads { RoseAt is_read_fault result (L.read_faults link.old) (L.read_faults link.new) }
    ensures writes { RoseAt is_write_fault result (L.write_faults link.old) (L.write_faults link.new) }
    ensures not_halted { IfErr result (λ how. is_halted how ≡ false) }
{
    match lines.next(link) {
        Ok(Got::Line(line)) => Ok(line),
        Ok(Got::End) => Err(SessionEnd::Closed),
        Ok(Got::Cut) => Err(SessionEnd::Cut),
        Err(LinesFault::TooLong) => Err(SessionEnd::LineTooLong),
        Err(LinesFault::Read) => Err(SessionEnd::ReadFault),
        Err(LinesFault::Memory) => Err(SessionEnd::Memory),
    }
}

/// Makes sure of all that the pass has learned, and then writes the reply.
fn settle_and_reply<R: Wait, D: Keeper, P: Patience, L: Link>(
    rt: &R,
    alloc: Global,
    shared: &Shared<D>,
    pass: &mut Pass,
    patience: &mut P,
    link: &mut L,
    reply: Reply,
) -> Result<(), SessionEnd>
    requires lock { pass.old.lock ≡ shared.now }
    requires sure { IsSure D.rows D.settled pass.old }
    ensures settles { Settles pass.old pass.new }
    ensures settled { OnOk result (WasSettled D.rows D.settled pass.new) }
    ensures known { OnOk result (KnowsSure pass.new) }
    ensures sure { OnOk result (IsSure D.rows D.settled pass.new) }
    ensures wrote { OnOk result (L.written link.new ≡ append_known (L.written link.old) (reply_line reply)) }
    ensures ended { IfErr result (λ how. EndsReply (at_keeper D.rows D.settled D.given D.faults D.broken) how reply
        pass.old (L.written link.old) pass.new (L.written link.new)) }
    ensures left { L.left link.new ≡ L.left link.old }
    ensures reads { RoseAt is_read_fault result (L.read_faults link.old) (L.read_faults link.new) }
    ensures writes { RoseAt is_write_fault result (L.write_faults link.old) (L.write_faults link.new) }
    ensures not_halted { IfErr result (λ how. is_halted how ≡ false) }
{
    match settle(rt, shared, pass, patience) {
        Ok(()) => write_reply(alloc, link, reply),
        Err(end) => {
            drop(reply);
            Err(end)
        }
    }
}

/// Writes the line of the reply in one write.
fn write_reply<L: Link>(alloc: Global, link: &mut L, reply: Reply) -> Result<(), SessionEnd>
    ensures wrote { OnOk result (L.written link.new ≡ append_known (L.written link.old) (reply_line reply)) }
    ensures part { OnErr result (AppendsPrefix (L.written link.old) (L.written link.new) (reply_line reply)) }
    ensures cause { IfErr result (λ how. (how ≡ SessionEnd.WriteFault) ⊎ (how ≡ SessionEnd.Memory)) }
    ensures left { L.left link.new ≡ L.left link.old }
    ensures reads { L.read_faults link.new ≡ L.read_faults link.old }
    ensures writes { RoseAt is_write_fault result (L.write_faults link.old) (L.write_faults link.new) }
{
    let mut text = String::new(alloc);
    let pushed = push_reply(alloc, &mut text, &reply);
    drop(reply);
    match pushed {
        Ok(()) => match link.write(text.as_bytes()) {
            Ok(()) => Ok(()),
            Err(_) => Err(SessionEnd::WriteFault),
        },
        Err(_) => Err(SessionEnd::Memory),
    }
}

/// Stops what runs in the slot.
fn stop_last<R: Wait, D: Keeper>(rt: &R, shared: &Shared<D>, pass: &mut Pass)
    requires lock { pass.old.lock ≡ shared.now }
    requires left { (runs_in pass.old ≡ None) ⊎ (0 < pass.old.left) }
    ensures stopped { StopsLast pass.old pass.new }
    ensures idle { runs_in pass.new ≡ None }
{
    if !pass.running() {
        return;
    }
    match shared.stop(rt, pass) {
        Ok(entry) => drop(entry),
        Err(SpentPass) => unreachable!(),
    }
}
