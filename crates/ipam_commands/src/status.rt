//! How commands end.
ghost use Rattle.std.specs.Prelude.{◌≡◌};

/// All was done, and the source was read to its end where the command reads it.
pub const DONE: u8 = 0;
/// What was asked was refused.
pub const REFUSED: u8 = 1;
/// The words name no command.
pub const UNKNOWN_WORDS: u8 = 2;
/// The source failed.
pub const READ_FAULT: u8 = 3;
/// The sink failed.
pub const WRITE_FAULT: u8 = 4;
/// The keeper failed.
pub const KEEPER_FAULT: u8 = 5;
/// There was no memory.
pub const NO_MEMORY: u8 = 6;
/// The rows break a rule for rows that are opened.
pub const BROKEN_ROWS: u8 = 7;
/// A line of the script is refused.
pub const LINE_REFUSED: u8 = 8;

/// How a command ended.
#[derive(Clone, Copy)]
pub enum Status {
    /// All was done.
    Done,
    /// What was asked was refused.
    Refused,
    /// The words name no command.
    UnknownWords,
    /// The source failed.
    ReadFault,
    /// The sink failed.
    WriteFault,
    /// The keeper failed.
    KeeperFault,
    /// There was no memory.
    NoMemory,
    /// The rows break one of the rules for rows that are opened.
    BrokenRows,
    /// A line of the script is refused.
    LineRefused,
}

impl Status {
    ghost use Rattle.ipam_commands.specs.Statuses.{code_of_status};

    /// The exit status of a program that ends so.
    pub fn code(self) -> u8
        ensures { result ≡ code_of_status self }
    {
        match self {
            Status::Done => DONE,
            Status::Refused => REFUSED,
            Status::UnknownWords => UNKNOWN_WORDS,
            Status::ReadFault => READ_FAULT,
            Status::WriteFault => WRITE_FAULT,
            Status::KeeperFault => KEEPER_FAULT,
            Status::NoMemory => NO_MEMORY,
            Status::BrokenRows => BROKEN_ROWS,
            Status::LineRefused => LINE_REFUSED,
        }
    }
}
