//! The values of the environment.
ghost use Rattle.std.specs.Prelude.{◌≡◌};
ghost use Rattle.ipam_call.specs.Values.{found, last_value, stripped, text_of, value_in};

use ipam_text::Seq;
use std::str;

/// The value of the last entry of this name.
pub(crate) fn last_value<'a>(entries: &'a [Seq<u8>], name: &str) -> Option<&'a [u8]>
    ensures { found result ≡ last_value name.now entries.now }
{
    let mut value = None;
    for entry in entries {
        if let Some(newer) = value_in(entry.as_slice(), name) {
            value = Some(newer);
        }
    }
    value
}

/// The value of the entry, where it has this name.
fn value_in<'a>(entry: &'a [u8], name: &str) -> Option<&'a [u8]>
    ensures { found result ≡ value_in name.now entry.now }
{
    match stripped(entry, name) {
        Some(rest) => stripped(rest, "="),
        None => None,
    }
}

/// What stands after these bytes, where it begins with them.
fn stripped<'a>(bytes: &'a [u8], first: &str) -> Option<&'a [u8]>
    ensures { found result ≡ stripped first.now bytes.now }
{
    bytes.strip_prefix(first.as_bytes())
}

/// The bytes as a text, where they are one.
pub(crate) fn text_of<'a>(bytes: &'a [u8]) -> Option<&'a str>
    ensures { found result ≡ text_of bytes.now }
{
    match str::from_utf8(bytes) {
        Ok(text) => Some(text),
        Err(_) => None,
    }
}
