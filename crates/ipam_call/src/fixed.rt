//! The errors whose code and details are fixed. Their texts are constants, so writing one takes no memory.
ghost use Rattle.std.specs.Prelude.{◌≡◌};
ghost use Rattle.cni_types.specs.Texts.{error_text};
ghost use Rattle.ipam_call.specs.Fixed.{fixed_error};

use cni_types::Version;

/// What an error is about whose code and details are fixed.
#[derive(Clone, Copy, Debug, PartialEq, Eq)]
pub enum FixedError {
    /// A read of standard input failed: code 5, `read`.
    Read,
    /// The keeper failed: code 5, `keeper`.
    Keeper,
    /// The database is busy: code 11. Only the installed plugin tells it.
    Busy,
    /// Standard input is no configuration, or the line for it would be too long: code 6.
    Undecodable,
    /// A read or a write of the link to the daemon failed: code 111, `link`.
    Link,
    /// What the daemon sent is no reply: code 111, `reply`.
    Reply,
    /// There was no memory: code 101.
    Memory,
}

/// The text of an error in the version that is spelled so.
macro_rules! text_in {
    ($version:literal, $code:literal, $details:literal, $message:literal) => {
        concat!(
            "{\"cniVersion\":\"", $version, "\",\"code\":", $code, ",\"details\":\"", $details, "\",\"msg\":\"",
            $message, "\"}\n"
        )
    };
}

/// The text of an error in each version.
macro_rules! text {
    ($version:expr, $code:literal, $details:literal, $message:literal) => {
        match $version {
            Version::V0_3_0 => text_in!("0.3.0", $code, $details, $message),
            Version::V0_3_1 => text_in!("0.3.1", $code, $details, $message),
            Version::V0_4_0 => text_in!("0.4.0", $code, $details, $message),
            Version::V1_0_0 => text_in!("1.0.0", $code, $details, $message),
            Version::V1_1_0 => text_in!("1.1.0", $code, $details, $message),
        }
    };
}

/// The text of the error in this version. Takes no memory.
#[tactic(auto, unfolding(crate::proofs::ErrorTexts::text_computed))]
pub fn fixed_text(version: Version, error: FixedError) -> &'static str
    ensures { result.now ≡ error_text (fixed_error version error) }
{
    match error {
        FixedError::Read => text!(version, 5, "read", "input or output fault"),
        FixedError::Keeper => text!(version, 5, "keeper", "input or output fault"),
        FixedError::Busy => text!(version, 11, "the database is busy", "try again later"),
        FixedError::Undecodable => text!(version, 6, "", "cannot decode network configuration"),
        FixedError::Link => text!(version, 111, "link", "no reply from the daemon"),
        FixedError::Reply => text!(version, 111, "reply", "no reply from the daemon"),
        FixedError::Memory => text!(version, 101, "", "want of memory"),
    }
}
