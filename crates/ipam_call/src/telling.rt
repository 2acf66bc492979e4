//! The end of a call is written.
ghost use Rattle.std.specs.Prelude.{◌≡◌};
ghost use Rattle.ipam_call.specs.Ends.{fixed_of, WritesCallEnd};

use crate::end::{CallEnd, CallFault};
use crate::fixed::{FixedError, fixed_text};
use cni_types::Version;
use ipam_io::Sink;

/// The status where the sink failed.
const SINK_FAULT: u8 = 4;

/// Writes what the daemon replied, or the error, in one write. Takes no memory. Gives the status of the
/// reply, 1 with an error and 4 where the write failed.
pub fn tell_end<K: Sink>(sink: &mut K, end: &CallEnd) -> u8
    ensures told { WritesCallEnd end.now (K.written sink.old) (K.written sink.new)
        (K.write_faults sink.old) (K.write_faults sink.new) result }
    ensures rest { K.write_rest sink.new ≡ K.write_rest sink.old }
{
    match end {
        CallEnd::Replied(reply) => match sink.write(reply.stdout.as_bytes()) {
            Ok(()) => reply.status,
            Err(_) => SINK_FAULT,
        },
        CallEnd::Failed(version, fault) => tell_fault(sink, *version, *fault),
    }
}

/// Writes the error of a call of which nothing was read since there is no memory: so it is in version 1.0.0. Takes no
/// memory. Gives the status 1, and 4 where the write failed.
pub fn tell_no_memory<K: Sink>(sink: &mut K) -> u8
    ensures told { WritesCallEnd (CallEnd.Failed Version.V1_0_0 CallFault.Memory) (K.written sink.old) (K.written sink.new)
        (K.write_faults sink.old) (K.write_faults sink.new) result }
    ensures rest { K.write_rest sink.new ≡ K.write_rest sink.old }
{
    tell_fault(sink, Version::V1_0_0, CallFault::Memory)
}

fn tell_fault<K: Sink>(sink: &mut K, version: Version, fault: CallFault) -> u8
    ensures told { WritesCallEnd (CallEnd.Failed version fault) (K.written sink.old) (K.written sink.new)
        (K.write_faults sink.old) (K.write_faults sink.new) result }
    ensures rest { K.write_rest sink.new ≡ K.write_rest sink.old }
{
    let text = fixed_text(version, fixed_of(fault));
    match sink.write(text.as_bytes()) {
        Ok(()) => 1,
        Err(_) => SINK_FAULT,
    }
}

fn fixed_of(fault: CallFault) -> FixedError
    ensures { result ≡ fixed_of fault }
{
    match fault {
        CallFault::Read => FixedError::Read,
        CallFault::Undecodable => FixedError::Undecodable,
        CallFault::Link => FixedError::Link,
        CallFault::Reply => FixedError::Reply,
        CallFault::Memory => FixedError::Memory,
    }
}
