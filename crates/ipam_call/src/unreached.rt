//! A call of a daemon that isn't reached.
ghost use Rattle.std.specs.Prelude.{◌≡◌};
ghost use Rattle.ipam_call.specs.declared.end.CallEnd.{CallEnd as End};
ghost use Rattle.ipam_call.specs.Ends.{WritesCallEnd, IsStatus};
ghost use Rattle.ipam_call.specs.Unreached.{IsUnreached, unreached_end};

use crate::end::{CallEnd, CallFault};
use crate::input::read_input;
use crate::telling::tell_end;
use crate::version::version_for;
use cni_types::Version;
use ipam_io::{InputFault, Sink, Source};
use std::alloc::{AllocError, Global};

/// Writes the error of a call that didn't reach the daemon, the code 111 with the details `link`,
/// and gives the status 1, or 4 where the sink failed.
///
/// The error is written in the version of standard input, which is read for that alone, and in
/// 1.0.0 where it has none that is supported or can't be read. Where there is no memory to read it,
/// the error is that of want of memory.
pub fn tell_unreached<S: Source, K: Sink>(alloc: Global, source: &mut S, sink: &mut K) -> u8
    ensures told { (end : End) × IsUnreached (S.left source.old) (S.read_faults source.old) (S.read_faults source.new) end
        × WritesCallEnd end (K.written sink.old) (K.written sink.new)
        (K.write_faults sink.old) (K.write_faults sink.new) result }
    ensures status { IsStatus result }
    ensures source_rest { S.read_rest source.new ≡ S.read_rest source.old }
    ensures sink_rest { K.write_rest sink.new ≡ K.write_rest sink.old }
{
    let end = unreached(alloc, source);
    tell_end(sink, &end)
}

/// How a call of nobody ends.
fn unreached<S: Source>(alloc: Global, source: &mut S) -> CallEnd
    ensures end { IsUnreached (S.left source.old) (S.read_faults source.old) (S.read_faults source.new) result }
    ensures rest { S.read_rest source.new ≡ S.read_rest source.old }
{
    match read_input(alloc, source) {
        Ok(input) => unreached_end(version_for(alloc, input.as_slice())),
        Err(InputFault::Read) => CallEnd::Failed(Version::V1_0_0, CallFault::Link),
        Err(InputFault::Memory) => CallEnd::Failed(Version::V1_0_0, CallFault::Memory),
    }
}

/// How it ends with this version, or without memory to read it.
fn unreached_end(found: Result<Version, AllocError>) -> CallEnd
    ensures { result ≡ unreached_end found }
{
    match found {
        Ok(version) => CallEnd::Failed(version, CallFault::Link),
        Err(AllocError) => CallEnd::Failed(Version::V1_0_0, CallFault::Memory),
    }
}
