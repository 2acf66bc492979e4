//! A whole call.
ghost use Rattle.std.specs.Prelude.{◌≡◌};
ghost use Rattle.std.specs.Io.KnownBytes.{IsAtEnd};
ghost use Rattle.ipam_command.specs.declared.cni_end.CniEnd.{CniEnd as End};
ghost use Rattle.ipam_keeper.specs.Outside.{outside_of};
ghost use Rattle.ipam_command.specs.Calls.{CniCallWent};
ghost use Rattle.ipam_call.specs.Ends.{IsStatus};
ghost use Rattle.ipam_command.specs.Ends.{WritesCniEnd};

use crate::cni_calling::make_call;
use crate::cni_telling::tell_end;
use ipam_io::{Sink, Source};
use ipam_keeper::Keeper;
use ipam_text::Text;
use std::alloc::Global;

/// Makes one CNI call: reads standard input, looks at the call, opens the keeper's rows, runs the
/// request by itself and writes the reply. Gives 0, or 1 with an error.
///
/// It gives 4 where the sink failed. Want of memory is an error too, whose text takes none. An error is in
/// the version of the configuration once that was read, and else in 1.0.0; until then nothing is asked of
/// the keeper.
pub fn cni<S: Source, K: Sink, D: Keeper>(
    alloc: Global,
    env: &[(Text, Text)],
    source: &mut S,
    sink: &mut K,
    keeper: &mut D,
) -> u8
    ensures called { (end : End)
        × CniCallWent (keeper.new ≡ keeper.old) env.now end
        (outside_of (S.left source.old) (S.read_faults source.old) (K.written sink.old) (K.write_faults sink.old) (D.rows keeper.old) (D.faults keeper.old))
        (outside_of (S.left source.new) (S.read_faults source.new) (K.written sink.new) (K.write_faults sink.new) (D.rows keeper.new) (D.faults keeper.new))
        × WritesCniEnd end (K.written sink.old) (K.written sink.new)
        (K.write_faults sink.old) (K.write_faults sink.new) result }
    ensures to_end { result ≡ 0 → IsAtEnd (S.left source.new) }
    ensures status { IsStatus result }
    ensures source_rest { S.read_rest source.new ≡ S.read_rest source.old }
    ensures sink_rest { K.write_rest sink.new ≡ K.write_rest sink.old }
{
    let end = make_call(alloc, env, source, keeper);
    tell_end(sink, &end)
}
