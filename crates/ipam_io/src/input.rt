//! A source is read as a whole.
ghost use Rattle.std.specs.Prelude.{◌≡◌, ◌+◌, ◌<◌, ◌≤◌, ◌^◌, length, vec_len, IfOk};
ghost use Rattle.std.specs.Io.KnownBytes.{prepend_known, IsAtEnd};
ghost use Rattle.ipam_io.specs.Counts.{Rose};
ghost use Rattle.ipam_io.specs.Inputs.{OnReadFault, OnNoReadFault};

use crate::lines::CHUNK;
use crate::source::Source;
use std::alloc::Global;

/// Why a source could not be read.
#[derive(Clone, Copy, Debug, PartialEq, Eq)]
pub enum InputFault {
    /// A read of the source failed.
    Read,
    /// There was no memory.
    Memory,
}

/// The bytes of the source to its end, or one more than the most that are wanted.
pub fn read_whole<S: Source>(
    alloc: Global,
    source: &mut S,
    most: usize,
) -> Result<Vec<u8>, InputFault>
    requires { most < 2 ^ 32 }
    ensures bytes { IfOk result
        (λ input. S.left source.old ≡ prepend_known input.items (S.left source.new)) }
    ensures whole { IfOk result
        (λ input. length input.items ≤ most → IsAtEnd (S.left source.new)) }
    ensures bound { IfOk result (λ input. length input.items ≤ most + 1) }

    ensures fault { OnReadFault result
        (Rose (S.read_faults source.old) (S.read_faults source.new)) }
    ensures no_fault { OnNoReadFault result
        (S.read_faults source.new ≡ S.read_faults source.old) }
    ensures rest { S.read_rest source.new ≡ S.read_rest source.old }
{
    let mut input = Vec::new(alloc);
    while input.len() <= most {
        match append_within(&mut input, source, most) {
            Ok(0) => return Ok(input),
            Ok(_) => {}
            Err(fault) => return Err(fault),
        }
    }
    Ok(input)
}

// Makes room for a chunk before it reads, so that no byte that was read is lost.
fn append_within<S: Source>(
    bytes: &mut Vec<u8>,
    source: &mut S,
    most: usize,
) -> Result<usize, InputFault>
    requires few { most < 2 ^ 32 }
    requires within { vec_len bytes.old ≤ most }
    ensures bytes { prepend_known bytes.old.items (S.left source.old)
        ≡ prepend_known bytes.new.items (S.left source.new) }
    ensures grows { IfOk result (λ count. vec_len bytes.new ≡ vec_len bytes.old + count) }
    ensures bound { vec_len bytes.new ≤ most + 1 }
    ensures end { IfOk result (λ count. count ≡ 0 → IsAtEnd (S.left source.new)) }

    ensures fault { OnReadFault result
        (Rose (S.read_faults source.old) (S.read_faults source.new)) }
    ensures no_fault { OnNoReadFault result
        (S.read_faults source.new ≡ S.read_faults source.old) }
    ensures rest { S.read_rest source.new ≡ S.read_rest source.old }
{
    if bytes.reserve(CHUNK).is_err() {
        return Err(InputFault::Memory);
    }
    let mut chunk = [0u8; CHUNK];
    let room = CHUNK.min(most + 1 - bytes.len());
    let Ok(count) = source.read(&mut chunk[..room]) else {
        return Err(InputFault::Read);
    };
    match bytes.extend_from_slice(&chunk[..count]) {
        Ok(()) => Ok(count),
        Err(_) => Err(InputFault::Memory),
    }
}
