ghost use Rattle.std.specs.Prelude.{◌≡◌};
ghost use Rattle.ipam_addr.specs.Names.{is_name_byte, is_name_within, is_name_text, is_handle_text};

/// The most bytes of a name of a node, a pool, a reservation, a network or a container.
pub const MOST_NAME_BYTES: usize = 253;

/// The most bytes of a handle's id: two names and a dot.
pub const MOST_HANDLE_BYTES: usize = 507;

/// Whether the text is a name: an ASCII letter or digit, then letters, digits, `_`, `.` and `-`,
/// at most 253 bytes in all.
pub fn is_name(text: &[u8]) -> bool
    ensures { result ≡ is_name_text text.now }
{
    is_name_within(text, MOST_NAME_BYTES)
}

/// Whether the text is a handle's id: formed as a name, and at most 507 bytes long.
pub fn is_handle_id(text: &[u8]) -> bool
    ensures { result ≡ is_handle_text text.now }
{
    is_name_within(text, MOST_HANDLE_BYTES)
}

fn is_name_within(text: &[u8], most: usize) -> bool
    ensures { result ≡ is_name_within most text.now }
{
    match text {
        [first, rest @ ..] => {
            first.is_ascii_alphanumeric()
                && text.len() <= most
                && rest.iter().all(|&byte| is_name_byte(byte))
        }
        [] => false,
    }
}

fn is_name_byte(byte: u8) -> bool
    ensures { result ≡ is_name_byte byte }
{
    byte.is_ascii_alphanumeric() || byte == b'_' || byte == b'.' || byte == b'-'
}
