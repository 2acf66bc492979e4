ghost use Rattle.std.specs.Prelude.{◌≡◌};
ghost use Rattle.ipam_play.specs.Halting.{halt_of};

use crate::fault::PlayFault;
use crate::refusal::LineRefusal;
use ipam_text::Text;

/// Why a script is not played on.
#[derive(Drop)]
pub(crate) enum Halt {
    /// The line is refused.
    Refused(LineRefusal),
    /// The base breaks this one of the ten rules, first at this key.
    NotOpened(u8, Text),
    /// A write failed.
    Write,
    Memory,
}

impl Halt {
    pub(crate) fn of(fault: PlayFault) -> Halt
        ensures { result ≡ halt_of fault }
    {
        match fault {
            PlayFault::Base => Halt::Refused(LineRefusal::Base),
            PlayFault::Busy => Halt::Refused(LineRefusal::Busy),
            PlayFault::Idle => Halt::Refused(LineRefusal::Idle),
            PlayFault::Waiting => Halt::Refused(LineRefusal::Waiting),
            PlayFault::NotWaiting => Halt::Refused(LineRefusal::NotWaiting),
            PlayFault::TooSoon => Halt::Refused(LineRefusal::TooSoon),
            PlayFault::Worn => Halt::Refused(LineRefusal::Worn),
            PlayFault::Open(rule, about) => Halt::NotOpened(rule, about),
            PlayFault::Memory => Halt::Memory,
        }
    }
}
