//! How a word ends.
ghost use Rattle.std.specs.Prelude.{◌≡◌};

/// The link to the daemon failed.
pub const LINK_FAULT: u8 = 10;
/// What the daemon sent is no reply.
pub const REPLY_FAULT: u8 = 11;

/// How an operator's word over a daemon ended.
#[derive(Clone, Copy, PartialEq, Eq)]
pub enum End {
    /// All was done.
    Done,
    /// What was asked was refused.
    Refused,
    /// Standard input failed.
    ReadFault,
    /// Standard output failed.
    WriteFault,
    /// The daemon's keeper failed.
    KeeperFault,
    /// There was no memory.
    NoMemory,
    /// Nobody answers at the address, or the link failed.
    LinkFault,
    /// What the daemon sent is no reply, or there was no line.
    ReplyFault,
}

impl End {
    ghost use Rattle.ipam_operator.specs.Telling.{code_of};

    /// The exit status: those that the words have over a file, 10 and 11.
    pub fn code(self) -> u8
        ensures { result ≡ code_of self }
    {
        match self {
            End::Done => 0,
            End::Refused => 1,
            End::ReadFault => 3,
            End::WriteFault => 4,
            End::KeeperFault => 5,
            End::NoMemory => 6,
            End::LinkFault => LINK_FAULT,
            End::ReplyFault => REPLY_FAULT,
        }
    }
}
