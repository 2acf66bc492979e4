ghost use Rattle.std.specs.Prelude.{◌≡◌};
ghost use Rattle.ipam_json.specs.declared.fault.ReadFault.TheVariants.{Memory};

use std::alloc::AllocError;

/// The kind of value that a reader asked for.
#[derive(Clone, Copy, Debug)]
pub enum Want {
    /// A JSON object.
    Object,
    /// A JSON array.
    Array,
    /// A JSON string.
    Text,
    /// `true` or `false`.
    Truth,
    /// A whole number from 0 to 2^64 - 1, written without a point or an exponent.
    Whole,
}

/// Why a reader found nothing: no value of that kind is at the path.
#[derive(Debug, Drop)]
pub struct FieldFault {
    /// The path that the reader was given: member names and decimal indexes, joined by dots. The
    /// empty path is the value itself.
    pub path: String,
    /// The kind that the reader asked for.
    pub want: Want,
}

/// Why a field was not read.
#[derive(Debug, Drop)]
pub enum ReadFault {
    /// The path leads to no value, or to one of another kind.
    Field(FieldFault),
    /// There was no memory for the fault's path.
    Memory,
}

impl From<AllocError> for ReadFault {
    ghost from_gives = { λ _ e. e ≡ Memory };

    fn from(_error: AllocError) -> ReadFault {
        ReadFault::Memory
    }
}
