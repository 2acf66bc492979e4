//! Why no connection is accepted for a while.
use std::{fmt, io};

/// A cause for which accepting a connection failed, and after which a later one may be accepted. It is displayed as
/// a part of a sentence.
#[derive(Clone, Copy, Debug, PartialEq, Eq)]
pub enum Passing {
    /// This process has as many files open as it may.
    ProcessFiles,
    /// All processes together have as many files open as there may be.
    SystemFiles,
    /// The system has no buffers for sockets.
    Buffers,
    /// The system has no memory.
    Memory,
    /// No space, or none that this user may take, is left for a socket file.
    Space,
    /// The peer gave the connection up, or a rule of the network refused it, before it was accepted.
    Aborted,
    /// The network is down, or the way to the peer.
    Network,
    /// The socket file was gone. A new one was made.
    FileGone,
}

/// Linux's numbers, as accept(2) and bind(2) list them.
const NOT_PERMITTED: i32 = 1;

const NO_MEMORY: i32 = 12;

const SYSTEM_FILES: i32 = 23;

const PROCESS_FILES: i32 = 24;

const NO_SPACE: i32 = 28;

const NO_NETWORK: i32 = 64;

const PROTOCOL_ERROR: i32 = 71;

const NO_PROTOCOL_OPTION: i32 = 92;

const NOT_SUPPORTED: i32 = 95;

const NETWORK_DOWN: i32 = 100;

const NETWORK_UNREACHABLE: i32 = 101;

const ABORTED: i32 = 103;

const RESET: i32 = 104;

const NO_BUFFERS: i32 = 105;

const TIMED_OUT: i32 = 110;

const HOST_DOWN: i32 = 112;

const HOST_UNREACHABLE: i32 = 113;

const OVER_QUOTA: i32 = 122;

impl Passing {
    /// The cause of an error of accepting, where it passes. None where it doesn't.
    pub(crate) fn of(error: &io::Error) -> Option<Passing> {
        match error.raw_os_error()? {
            ABORTED
            | RESET
            | NOT_PERMITTED
            | PROTOCOL_ERROR
            | NO_PROTOCOL_OPTION
            | NOT_SUPPORTED
            | TIMED_OUT => Some(Passing::Aborted),
            NO_NETWORK | NETWORK_DOWN | NETWORK_UNREACHABLE | HOST_DOWN | HOST_UNREACHABLE => {
                Some(Passing::Network)
            }
            _ => Passing::lack_of(error),
        }
    }

    /// What the system or the process lacked, where that caused an error of any call.
    pub(crate) fn lack_of(error: &io::Error) -> Option<Passing> {
        match error.raw_os_error()? {
            PROCESS_FILES => Some(Passing::ProcessFiles),
            SYSTEM_FILES => Some(Passing::SystemFiles),
            NO_BUFFERS => Some(Passing::Buffers),
            NO_MEMORY => Some(Passing::Memory),
            NO_SPACE | OVER_QUOTA => Some(Passing::Space),
            _ => None,
        }
    }
}

impl fmt::Display for Passing {
    fn fmt<W: fmt::Write>(&self, f: &mut fmt::Formatter<W>) -> fmt::Result {
        f.write_str(match self {
            Passing::ProcessFiles => "the daemon has as many files open as it may",
            Passing::SystemFiles => "the system has as many files open as it can",
            Passing::Buffers => "the system has no buffers for sockets",
            Passing::Memory => "the system has no memory",
            Passing::Space => "no space is left for the socket file",
            Passing::Aborted => "a connection was given up before it was accepted",
            Passing::Network => "the network is down",
            Passing::FileGone => "the socket file was gone, and a new one was made",
        })
    }
}
