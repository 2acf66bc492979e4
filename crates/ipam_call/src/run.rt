//! A whole call.
ghost use Rattle.std.specs.Prelude.{◌≡◌, IfSome};
ghost use Rattle.ipam_call.specs.declared.end.CallEnd.{CallEnd as End};
ghost use Rattle.ipam_call.specs.Calls.{Went, Sent, Received, IsInVersion, IsToldVersion, LinkFaults, IsExchanged, outcome};
ghost use Rattle.ipam_call.specs.Ends.{WritesCallEnd, IsStatus};
ghost use Rattle.ipam_call.specs.Requests.{line_for};
ghost use Rattle.ipam_call.specs.Versions.{version_for};

use crate::asking::exchange;
use crate::end::{CallEnd, CallFault};
use crate::input::read_input;
use crate::telling::tell_end;
use crate::version::version_for;
use cni_types::Version;
use ipam_io::{InputFault, Link, Sink, Source};
use ipam_text::Text;
use std::alloc::{AllocError, Global};

/// Makes one CNI call of the daemon behind the link: reads standard input, sends one line, reads
/// one line, writes what the daemon replied and gives its status.
///
/// Where there is no reply it writes an error and gives 1. It gives 4 where the sink failed. An error is in
/// the version of standard input once that was read, and else in 1.0.0; until then nothing is asked of the
/// link.
pub fn run_call<S: Source, K: Sink, L: Link>(
    alloc: Global,
    env: &[(Text, Text)],
    source: &mut S,
    sink: &mut K,
    link: &mut L,
) -> u8
    ensures called { (end : End)
        × Went (link.new ≡ link.old) env.now end
        (record {
          input = S.left source.old;
          input_faults = S.read_faults source.old;
          sent = L.written link.old;
          send_faults = L.write_faults link.old;
          replies = L.left link.old;
          reply_faults = L.read_faults link.old;
        })
        (record {
          input = S.left source.new;
          input_faults = S.read_faults source.new;
          sent = L.written link.new;
          send_faults = L.write_faults link.new;
          replies = L.left link.new;
          reply_faults = L.read_faults link.new;
        })
        × WritesCallEnd end (K.written sink.old) (K.written sink.new)
        (K.write_faults sink.old) (K.write_faults sink.new) result }
    ensures status { IsStatus result }
    ensures source_rest { S.read_rest source.new ≡ S.read_rest source.old }
    ensures sink_rest { K.write_rest sink.new ≡ K.write_rest sink.old }
{
    let end = call_daemon(alloc, env, source, link);
    tell_end(sink, &end)
}

/// Sends the call of the environment and of what the source has, and takes the reply. Writes nothing but to
/// the link.
fn call_daemon<S: Source, L: Link>(
    alloc: Global,
    env: &[(Text, Text)],
    source: &mut S,
    link: &mut L,
) -> CallEnd
    ensures went { Went (link.new ≡ link.old) env.now result
        (record {
          input = S.left source.old;
          input_faults = S.read_faults source.old;
          sent = L.written link.old;
          send_faults = L.write_faults link.old;
          replies = L.left link.old;
          reply_faults = L.read_faults link.old;
        })
        (record {
          input = S.left source.new;
          input_faults = S.read_faults source.new;
          sent = L.written link.new;
          send_faults = L.write_faults link.new;
          replies = L.left link.new;
          reply_faults = L.read_faults link.new;
        }) }
    ensures rest { S.read_rest source.new ≡ S.read_rest source.old }
{
    match read_input(alloc, source) {
        Ok(input) => call_with(alloc, env, input.as_slice(), link),
        Err(InputFault::Read) => CallEnd::Failed(Version::V1_0_0, CallFault::Read),
        Err(InputFault::Memory) => CallEnd::Failed(Version::V1_0_0, CallFault::Memory),
    }
}

/// Reads the version of the configuration, and makes the call with this standard input.
#[tactic(auto, using(crate::proofs::Tellings::told_in))]
fn call_with<L: Link>(alloc: Global, env: &[(Text, Text)], input: &[u8], link: &mut L) -> CallEnd
    ensures sent { Sent (outcome result) (line_for env.now input.now)
        (L.written link.old) (L.written link.new) }
    ensures received { IfSome (L.left link.old) (λ bytes. Received (outcome result) bytes) }
    ensures version { IsToldVersion (link.new ≡ link.old) result (version_for input.now) }
    ensures faults { LinkFaults (outcome result) (L.read_faults link.old) (L.read_faults link.new)
        (L.write_faults link.old) (L.write_faults link.new) }
    ensures causes { IsExchanged (outcome result) }
{
    match version_for(alloc, input) {
        Ok(version) => call_in(alloc, env, input, version, link),
        Err(AllocError) => CallEnd::Failed(Version::V1_0_0, CallFault::Memory),
    }
}

/// Makes the call. Its errors are written in this version.
fn call_in<L: Link>(
    alloc: Global,
    env: &[(Text, Text)],
    input: &[u8],
    version: Version,
    link: &mut L,
) -> CallEnd
    ensures sent { Sent (outcome result) (line_for env.now input.now)
        (L.written link.old) (L.written link.new) }
    ensures received { IfSome (L.left link.old) (λ bytes. Received (outcome result) bytes) }
    ensures version { IsInVersion result version }
    ensures faults { LinkFaults (outcome result) (L.read_faults link.old) (L.read_faults link.new)
        (L.write_faults link.old) (L.write_faults link.new) }
    ensures causes { IsExchanged (outcome result) }
{
    match exchange(alloc, env, input, link) {
        Ok(reply) => CallEnd::Replied(reply),
        Err(fault) => CallEnd::Failed(version, fault),
    }
}
