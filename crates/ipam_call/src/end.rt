use cni_types::Version;
use ipam_text::Text;

/// What the daemon replied.
#[derive(Drop)]
pub struct DaemonReply {
    /// 0 on success, 1 with an error.
    pub status: u8,
    /// What the call writes.
    pub stdout: Text,
}

/// Why a call has no reply.
#[derive(Clone, Copy, Debug, PartialEq, Eq)]
pub enum CallFault {
    /// A read of standard input failed.
    Read,
    /// Standard input is too long or no UTF-8, or the line would be too long.
    Undecodable,
    /// A read or a write of the link failed.
    Link,
    /// What the daemon sent is no reply.
    Reply,
    /// There was no memory.
    Memory,
}

/// How a call ends.
#[derive(Drop)]
pub enum CallEnd {
    /// The daemon replied, with success or with an error of the call.
    Replied(DaemonReply),
    /// The error is written in this version.
    Failed(Version, CallFault),
}
