ghost use Rattle.std.specs.Prelude.{◌≡◌};
ghost use Rattle.ipam_record_text.specs.declared.fault.BodyFault.TheVariants.{Memory};

use std::alloc::AllocError;

/// Why a body is not read.
#[derive(Clone, Copy, Debug, PartialEq, Eq)]
pub enum BodyFault {
    /// The body is no text of a record of its kind.
    Form,
    /// The body has pools of which one is refused by those before it.
    Table,
    /// There was no memory to read the body, which may be good.
    Memory,
}

impl From<AllocError> for BodyFault {
    ghost from_gives = { λ _ e. e ≡ Memory };

    fn from(_error: AllocError) -> BodyFault {
        BodyFault::Memory
    }
}
