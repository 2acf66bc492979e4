//! The daemon that the environment names.
ghost use Rattle.std.specs.Prelude.{◌≡◌, codes, option_map};
ghost use Rattle.ipam_call.specs.Daemon.{address_of};
ghost use Rattle.ipam_call.specs.Values.{last_value};

use crate::values::{last_value, text_of};
use ipam_text::Seq;

/// The address that the last entry `IPAM_DAEMON` has, where there is such an entry that is not empty. It is
/// empty, and so reaches nobody, where the value is no text.
pub fn daemon_named(entries: &[Seq<u8>]) -> Option<&str>
    ensures { option_map (λ t. t.now) result ≡ address_of (last_value (codes "IPAM_DAEMON") entries.now) }
{
    match last_value(entries, "IPAM_DAEMON") {
        Some([]) | None => None,
        Some(bytes) => Some(text_of(bytes).unwrap_or("")),
    }
}
