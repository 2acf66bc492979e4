//! The call.
ghost use Rattle.std.specs.Prelude.{◌≡◌, ◌⊎◌};
ghost use Rattle.ipam_call.specs.declared.end.CallEnd.{CallEnd as End};
ghost use Rattle.ipam_call.specs.Calls.{Went};
ghost use Rattle.ipam_call.specs.Ends.{IsStatus, WritesCallEnd};
ghost use Rattle.ipam_call.specs.Unreached.{IsUnreached};

use crate::connecting::Connects;
use crate::run::run_call;
use crate::unreached::tell_unreached;
use ipam_io::{Link, Sink, Source};
use ipam_text::Text;
use std::alloc::Global;

/// Connects to the daemon at the address, makes one CNI call of it with this environment and standard input, and
/// ends the link: the call is all that the link is asked. Where nobody answers at the address, the error for that
/// is written, and the status is 1.
pub fn call<L: Link + Drop, C: Connects<L>, S: Source, K: Sink>(
    alloc: Global,
    connector: &mut C,
    address: &str,
    env: &[(Text, Text)],
    source: &mut S,
    sink: &mut K,
) -> u8
    ensures called { ((between : C) × (before after : L) × C.reaches connector.old address.now before between × C.ends between after connector.new
        × ((end : End) × Went (after ≡ before) env.now end
        (record {
          input = S.left source.old;
          input_faults = S.read_faults source.old;
          sent = L.written before;
          send_faults = L.write_faults before;
          replies = L.left before;
          reply_faults = L.read_faults before;
        })
        (record {
          input = S.left source.new;
          input_faults = S.read_faults source.new;
          sent = L.written after;
          send_faults = L.write_faults after;
          replies = L.left after;
          reply_faults = L.read_faults after;
        })
        × WritesCallEnd end (K.written sink.old) (K.written sink.new) (K.write_faults sink.old) (K.write_faults sink.new) result))
        ⊎ (C.fails connector.old address.now connector.new
        × ((end : End) × IsUnreached (S.left source.old) (S.read_faults source.old) (S.read_faults source.new) end
        × WritesCallEnd end (K.written sink.old) (K.written sink.new) (K.write_faults sink.old) (K.write_faults sink.new) result)) }
    ensures status { IsStatus result }
    ensures source_rest { S.read_rest source.new ≡ S.read_rest source.old }
    ensures sink_rest { K.write_rest sink.new ≡ K.write_rest sink.old }
{
    match connector.connect(address) {
        Some(mut link) => {
            let status = run_call(alloc, env, source, sink, &mut link);
            connector.end(link);
            status
        }
        None => tell_unreached(alloc, source, sink),
    }
}
