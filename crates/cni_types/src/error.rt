use crate::code::Code;
use crate::version::Version;
use ipam_text::Text;

/// What a call is answered that has no success.
#[derive(Drop)]
pub struct CniError {
    /// The configuration's version where it is supported, else 1.0.0.
    pub version: Version,
    /// The cause, which gives the error's number and message.
    pub code: Code,
    /// What the code is about, such as a variable's name or a member's path.
    pub details: Text,
}

/// Why a call is not taken.
#[derive(Drop)]
pub enum LookFault {
    /// The call is refused with this error.
    Refused(CniError),
    /// There was no memory to look at the call, which may be good.
    Memory,
}
