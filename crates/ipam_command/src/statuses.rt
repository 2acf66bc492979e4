//! The statuses that the program ends with.
ghost use Rattle.std.specs.Prelude.{◌≡◌};
ghost use Rattle.ipam_command.specs.Statuses.{code_of_gen, code_of_play};

use crate::gen_end::GenEnd;
use ipam_commands::{BROKEN_ROWS, DONE, LINE_REFUSED, NO_MEMORY, READ_FAULT, WRITE_FAULT};
use ipam_play::PlayEnd;

/// The status of a script that was played to this end.
pub(crate) fn code_of_play(end: PlayEnd) -> u8
    ensures { result ≡ code_of_play end }
{
    match end {
        PlayEnd::Done => DONE,
        PlayEnd::ReadFault => READ_FAULT,
        PlayEnd::WriteFault => WRITE_FAULT,
        PlayEnd::NoMemory => NO_MEMORY,
        PlayEnd::NotOpened => BROKEN_ROWS,
        PlayEnd::LineRefused => LINE_REFUSED,
    }
}

/// The status of a run of the generator that ended so.
pub(crate) fn code_of_gen(end: GenEnd) -> u8
    ensures { result ≡ code_of_gen end }
{
    match end {
        GenEnd::Done => DONE,
        GenEnd::WriteFault => WRITE_FAULT,
        GenEnd::NoMemory => NO_MEMORY,
    }
}
