//! The line is sent, and the reply is read.
ghost use Rattle.std.specs.Prelude.{◌≡◌, IfSome};
ghost use Rattle.ipam_call.specs.Calls.{Sent, Received, LinkFaults, SentLine, MayBeReceived, IsReading, IsOutcomeOf, IsExchanged};
ghost use Rattle.ipam_call.specs.Replies.{reply_of_line};
ghost use Rattle.ipam_call.specs.Requests.{line_for};

use crate::end::{CallFault, DaemonReply};
use crate::reply::reply_of_line;
use crate::request::line_for;
use ipam_io::{Got, Lines, LinesFault, Link, SESSION_LINE_BYTES};
use ipam_text::Text;
use std::alloc::Global;

/// Sends the line of a call with this environment and this standard input, in one write, and reads
/// the reply. Of several pairs of one name the last counts.
///
/// Nothing is sent where there is no such line.
#[tactic(auto, using(crate::proofs::Outcomes::exchanged))]
pub fn exchange<L: Link>(
    alloc: Global,
    env: &[(Text, Text)],
    input: &[u8],
    link: &mut L,
) -> Result<DaemonReply, CallFault>
    ensures sent { Sent result (line_for env.now input.now) (L.written link.old) (L.written link.new) }
    ensures received { IfSome (L.left link.old) (λ bytes. Received result bytes) }
    ensures faults { LinkFaults result (L.read_faults link.old) (L.read_faults link.new)
        (L.write_faults link.old) (L.write_faults link.new) }
    ensures causes { IsExchanged result }
{
    match line_for(alloc, env, input) {
        Ok(Some(line)) => ask(alloc, line.as_str(), link),
        Ok(None) => Err(CallFault::Undecodable),
        Err(_) => Err(CallFault::Memory),
    }
}

fn ask<L: Link>(alloc: Global, line: &str, link: &mut L) -> Result<DaemonReply, CallFault>
    ensures sent { SentLine result line.now (L.written link.old) (L.written link.new) }
    ensures received { IfSome (L.left link.old) (λ bytes. Received result bytes) }
    ensures faults { LinkFaults result (L.read_faults link.old) (L.read_faults link.new)
        (L.write_faults link.old) (L.write_faults link.new) }
    ensures causes { MayBeReceived result }
{
    match link.write(line.as_bytes()) {
        Ok(()) => receive(alloc, link),
        Err(_) => Err(CallFault::Link),
    }
}

/// Reads one line, which is the reply.
#[tactic(auto, using(crate::proofs::Outcomes::got_received, crate::proofs::Outcomes::got_counted, crate::proofs::Outcomes::got_caused))]
fn receive<L: Link>(alloc: Global, link: &mut L) -> Result<DaemonReply, CallFault>
    ensures received { IfSome (L.left link.old) (λ bytes. Received result bytes) }
    ensures written { L.written link.new ≡ L.written link.old }
    ensures faults { LinkFaults result (L.read_faults link.old) (L.read_faults link.new)
        (L.write_faults link.old) (L.write_faults link.new) }
    ensures causes { MayBeReceived result }
{
    let mut lines = Lines::<SESSION_LINE_BYTES>::new(alloc);
    let got = lines.next(link);
    read_got(alloc, got)
}

/// What comes of the line that was got.
fn read_got(alloc: Global, got: Result<Got, LinesFault>) -> Result<DaemonReply, CallFault>
    ensures { IsOutcomeOf got result }
{
    match got {
        Ok(Got::Line(line)) => read_reply(alloc, line.as_slice()),
        Ok(Got::End | Got::Cut) => Err(CallFault::Reply),
        Err(LinesFault::TooLong) => Err(CallFault::Reply),
        Err(LinesFault::Read) => Err(CallFault::Link),
        Err(LinesFault::Memory) => Err(CallFault::Memory),
    }
}

fn read_reply(alloc: Global, line: &[u8]) -> Result<DaemonReply, CallFault>
    ensures { IsReading result (reply_of_line line.now) }
{
    match reply_of_line(alloc, line) {
        Ok(Some(reply)) => Ok(reply),
        Ok(None) => Err(CallFault::Reply),
        Err(_) => Err(CallFault::Memory),
    }
}
