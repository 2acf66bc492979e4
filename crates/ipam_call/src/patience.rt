//! How long a client tries to connect.
ghost use Rattle.std.specs.Prelude.{◌≡◌, codes};
ghost use Rattle.ipam_call.specs.Patience.{digit_of, number_of, seconds_of};
ghost use Rattle.ipam_call.specs.Values.{last_value};

use crate::values::last_value;
use ipam_text::Seq;

/// How many seconds a client tries to connect, where the environment doesn't say.
pub const CONNECT_SECONDS: u8 = 10;

/// The most seconds that the environment may say: a call has this time for its connection and its reply.
pub const MOST_CONNECT_SECONDS: u8 = 30;

/// How many seconds a client tries to connect where nobody listens yet: as many as the last entry
/// `IPAM_CONNECT_SECONDS` says in one or two digits, up to [`MOST_CONNECT_SECONDS`], and else
/// [`CONNECT_SECONDS`]. With 0 it tries once.
pub fn connect_seconds(entries: &[Seq<u8>]) -> u8
    ensures { result ≡ seconds_of (last_value (codes "IPAM_CONNECT_SECONDS") entries.now) }
{
    let Some(bytes) = last_value(entries, "IPAM_CONNECT_SECONDS") else {
        return CONNECT_SECONDS;
    };
    match number_of(bytes) {
        Some(seconds) if seconds <= MOST_CONNECT_SECONDS => seconds,
        _ => CONNECT_SECONDS,
    }
}

/// The number that one or two digits are.
fn number_of(bytes: &[u8]) -> Option<u8>
    ensures { result ≡ number_of bytes.now }
{
    match bytes {
        [ones] => digit_of(*ones),
        [tens, ones] => Some(digit_of(*tens)? * 10 + digit_of(*ones)?),
        _ => None,
    }
}

fn digit_of(byte: u8) -> Option<u8>
    ensures { result ≡ digit_of byte }
{
    if b'0' <= byte && byte <= b'9' {
        Some(byte - b'0')
    } else {
        None
    }
}
