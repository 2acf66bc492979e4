//! The end of a call is written.
ghost use Rattle.std.specs.Prelude.{◌≡◌};
ghost use Rattle.ipam_command.specs.Ends.{WritesCniEnd, WritesWith, fixed_of};

use crate::cni_end::{CniEnd, CniFault};
use ipam_call::{FixedError, fixed_text};
use ipam_io::Sink;

/// The status of a call that ends with an error.
const FAILED: u8 = 1;

/// The status where the sink failed.
const SINK_FAULT: u8 = 4;

/// Writes the text of a call's end, in one write, and gives its status: 1 with the error of a fault, and
/// 4 where the write failed. Takes no memory.
pub fn tell_end<K: Sink>(sink: &mut K, end: &CniEnd) -> u8
    ensures told { WritesCniEnd end.now (K.written sink.old) (K.written sink.new)
        (K.write_faults sink.old) (K.write_faults sink.new) result }
    ensures rest { K.write_rest sink.new ≡ K.write_rest sink.old }
{
    match end {
        CniEnd::Told(status, text) => write(sink, *status, text.as_str()),
        CniEnd::Failed(version, fault) => {
            write(sink, FAILED, fixed_text(*version, fixed_of(*fault)))
        }
    }
}

fn write<K: Sink>(sink: &mut K, status: u8, text: &str) -> u8
    ensures written { WritesWith status text.now (K.written sink.old) (K.written sink.new)
        (K.write_faults sink.old) (K.write_faults sink.new) result }
    ensures rest { K.write_rest sink.new ≡ K.write_rest sink.old }
{
    match sink.write(text.as_bytes()) {
        Ok(()) => status,
        Err(_) => SINK_FAULT,
    }
}

fn fixed_of(fault: CniFault) -> FixedError
    ensures { result ≡ fixed_of fault }
{
    match fault {
        CniFault::Read => FixedError::Read,
        CniFault::Undecodable => FixedError::Undecodable,
        CniFault::Keeper => FixedError::Keeper,
        CniFault::Memory => FixedError::Memory,
    }
}
