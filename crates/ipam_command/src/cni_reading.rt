//! A call is read, and what it asks is begun.
ghost use Rattle.std.specs.Prelude.{◌≡◌, ◌+◌, ◌≤◌, length, IfOk, OnErr, Ok, Err};
ghost use Rattle.std.specs.Io.KnownBytes.{IsAtEnd, prepend_known};
ghost use Rattle.ipam_io.specs.Counts.{Rose};
ghost use Rattle.ipam_io.specs.Inputs.{OnNoReadFault, OnReadFault};
ghost use Rattle.cni_types.specs.declared.error.CniError.{CniError as OneError};
ghost use Rattle.cni_types.specs.declared.error.LookFault.TheVariants.{Refused};
ghost use Rattle.cni_types.specs.declared.limits.TheConstants.{MOST_INPUT_BYTES};
ghost use Rattle.cni_types.specs.Looking.{look_reading};
ghost use Rattle.cni_types.specs.Sound.{IsSoundLook};
ghost use Rattle.cni_asks.specs.Asking.{IsSoundAsk};
ghost use Rattle.ipam_call.specs.Versions.{version_for};
ghost use Rattle.ipam_command.specs.Replies.{begun_by};

use crate::cni_asking::begun_by;
use cni_asks::Ask;
use cni_types::{Look, LookFault, Version, look};
use ipam_call::{InputFault, read_input, version_for};
use ipam_io::Source;
use ipam_text::Text;
use std::alloc::{AllocError, Global};

/// What takes the memory for reading a call and for what it begins. What is generic over it knows nothing of it,
/// and so can't state by itself that it found none.
pub(crate) trait ReadsCalls {
    /// It found no memory.
    ghost wants: { Self → Type 0 };

    /// The bytes of the source to its end, or one more than standard input may have.
    fn read_input<S: Source>(&self, source: &mut S) -> Result<Vec<u8>, InputFault>
        ensures bytes { IfOk result (λ input. S.left source.old ≡ prepend_known input.items (S.left source.new)) }
        ensures whole { IfOk result (λ input. length input.items ≤ MOST_INPUT_BYTES → IsAtEnd (S.left source.new)) }
        ensures bound { IfOk result (λ input. length input.items ≤ MOST_INPUT_BYTES + 1) }
        ensures fault { OnReadFault result (Rose (S.read_faults source.old) (S.read_faults source.new)) }
        ensures no_fault { OnNoReadFault result (S.read_faults source.new ≡ S.read_faults source.old) }
        ensures rest { S.read_rest source.new ≡ S.read_rest source.old }
        ensures wants { result ≡ Err InputFault.Memory → wants self.now };

    /// The version in which an error is written that comes of this standard input.
    fn version_for(&self, input: &[u8]) -> Result<Version, AllocError>
        ensures version { IfOk result (λ version. version ≡ version_for input.now) }
        ensures wants { OnErr result (wants self.now) };

    /// What the call asks, of its environment and its standard input.
    fn look(&self, env: &[(Text, Text)], input: &[u8]) -> Result<Look, LookFault>
        ensures asked { IfOk result (λ asked. look_reading env.now input.now ≡ Ok asked) }
        ensures refused { (error : OneError) → result ≡ Err (Refused error) → look_reading env.now input.now ≡ Err error }
        ensures sound { IfOk result IsSoundLook }
        ensures wants { result ≡ Err LookFault.Memory → wants self.now };

    /// What the call begins.
    fn begun_by(&self, look: Look) -> Result<Ask, AllocError>
        ensures begun { IfOk result (λ begun. begun ≡ begun_by look) }
        ensures sound { IsSoundLook look → IfOk result IsSoundAsk }
        ensures wants { OnErr result (wants self.now) };
}

impl ReadsCalls for Global {
    ghost wants = { λ _. Unit {0} };

    fn read_input<S: Source>(&self, source: &mut S) -> Result<Vec<u8>, InputFault> {
        read_input(*self, source)
    }

    fn version_for(&self, input: &[u8]) -> Result<Version, AllocError> {
        version_for(*self, input)
    }

    fn look(&self, env: &[(Text, Text)], input: &[u8]) -> Result<Look, LookFault> {
        look(*self, env, input)
    }

    fn begun_by(&self, look: Look) -> Result<Ask, AllocError> {
        begun_by(*self, look)
    }
}
