//! Standard input is read.
ghost use Rattle.std.specs.Prelude.{◌≡◌, ◌+◌, ◌≤◌, length, IfOk};
ghost use Rattle.std.specs.Io.KnownBytes.{prepend_known, IsAtEnd};
ghost use Rattle.ipam_io.specs.Counts.{Rose};
ghost use Rattle.ipam_io.specs.Inputs.{OnReadFault, OnNoReadFault};

use cni_types::MOST_INPUT_BYTES;
use ipam_io::{InputFault, Source, read_whole};
use std::alloc::Global;

/// The bytes of the source to its end, or one more than standard input may have.
pub fn read_input<S: Source>(alloc: Global, source: &mut S) -> Result<Vec<u8>, InputFault>
    ensures bytes { IfOk result
        (λ input. S.left source.old ≡ prepend_known input.items (S.left source.new)) }
    ensures whole { IfOk result
        (λ input. length input.items ≤ MOST_INPUT_BYTES → IsAtEnd (S.left source.new)) }
    ensures bound { IfOk result (λ input. length input.items ≤ MOST_INPUT_BYTES + 1) }

    ensures fault { OnReadFault result
        (Rose (S.read_faults source.old) (S.read_faults source.new)) }
    ensures no_fault { OnNoReadFault result
        (S.read_faults source.new ≡ S.read_faults source.old) }
    ensures rest { S.read_rest source.new ≡ S.read_rest source.old }
{
    read_whole(alloc, source, MOST_INPUT_BYTES)
}
