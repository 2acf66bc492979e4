ghost use Rattle.std.specs.Prelude.{◌≡◌, ◌+◌, ◌*◌, ◌<◌, ◌≤◌, List, ℕ, [], ◌∷◌, ◌++◌, decimal, length, take};
ghost use Rattle.std.specs.Char.{digit_char};
ghost use Rattle.std.specs.Str.{IsAscii};
ghost use Rattle.std.specs.Net.Text.{ipv4_text, hex, groups_text, longest_zero_run, compressed_text, hex_groups_text};
ghost use Rattle.ipam_addr.specs.Text.{address_of, address_text};

use crate::address::{Addr, Family};
use std::marker::Model;
use std::net::{Ipv4Addr, Ipv6Addr};
use std::str;

/// The text of one address or CIDR, in ASCII, written from the front. The longest text is a CIDR's,
/// of eight groups of four digits, seven colons, `/` and three digits.
#[derive(Drop)]
pub(crate) struct TextBuffer {
    bytes: [u8; 48],
    len: usize,
}

impl Model for TextBuffer {
    ghost Value = { List ℕ };

    ghost view = { λ b. take b.len b.bytes };

    ghost invariant = { λ b. (b.len ≤ 48) × IsAscii (take b.len b.bytes) };
}

impl TextBuffer {
    pub(crate) fn new() -> TextBuffer
        ensures { result ≡ [] }
    {
        TextBuffer {
            bytes: [0; 48],
            len: 0,
        }
    }

    pub(crate) fn as_str(&self) -> &str
        ensures { result.now ≡ self.now }
    {
        str::from_utf8(&self.bytes[..self.len]).unwrap()
    }

    pub(crate) fn push(&mut self, byte: u8)
        requires room { length self.old < 48 }
        requires ascii { byte < 128 }
        ensures { self.new ≡ self.old ++ byte ∷ [] }
    {
        self.bytes[self.len] = byte;
        self.len += 1;
    }

    pub(crate) fn push_decimal(&mut self, n: u8)
        requires { length self.old + 3 ≤ 48 }
        ensures text { self.new ≡ self.old ++ decimal n }
        ensures len { length self.new ≤ length self.old + 3 }
    {
        match n {
            100.. => {
                self.push(b'0' + n / 100);
                self.push(b'0' + n / 10 % 10);
                self.push(b'0' + n % 10);
            }
            10.. => {
                self.push(b'0' + n / 10);
                self.push(b'0' + n % 10);
            }
            _ => self.push(b'0' + n),
        }
    }

    pub(crate) fn push_addr(&mut self, addr: Addr)
        requires { length self.old ≡ 0 }
        ensures text { self.new ≡ self.old ++ address_text addr }
        ensures len { length self.new ≤ 42 }
        ensures reads_back { address_of (address_text addr) ≡ Some addr }
    {
        match addr.family {
            Family::V4 => self.push_octets(Ipv4Addr::from_bits(addr.number as u32).octets()),
            Family::V6 => self.push_segments(&Ipv6Addr::from_bits(addr.number).segments()),
        }
    }

    fn push_octets(&mut self, octets: [u8; 4])
        requires { length self.old ≡ 0 }
        ensures text { self.new ≡ self.old ++ ipv4_text octets }
        ensures len { length self.new ≤ 42 }
    {
        let [a, b, c, d] = octets;
        self.push_decimal(a);
        self.push(b'.');
        self.push_decimal(b);
        self.push(b'.');
        self.push_decimal(c);
        self.push(b'.');
        self.push_decimal(d);
    }

    // The segments by RFC 5952, with no dotted part.
    fn push_segments(&mut self, segments: &[u16])
        requires empty { length self.old ≡ 0 }
        requires eight { length segments.now ≡ 8 }
        ensures text { self.new ≡ self.old ++ hex_groups_text segments.now }
        ensures len { length self.new ≤ 42 }
    {
        let (start, len) = longest_zero_run(segments);
        if len > 1 {
            self.push_groups(&segments[..start]);
            self.push(b':');
            self.push(b':');
            self.push_groups(&segments[start + len..]);
        } else {
            self.push_groups(segments);
        }
    }

    // The segments with `:` between them.
    fn push_groups(&mut self, segments: &[u16])
        requires { length self.old + 5 * length segments.now ≤ 48 }
        ensures text { self.new ≡ self.old ++ groups_text segments.now }
        ensures len { length self.new ≤ length self.old + 5 * length segments.now }
    {
        if let [first, rest @ ..] = segments {
            self.push_hex(*first);
            for segment in rest {
                self.push(b':');
                self.push_hex(*segment);
            }
        }
    }

    // The segment in lower case, with no leading zeros.
    fn push_hex(&mut self, segment: u16)
        requires { length self.old + 4 ≤ 48 }
        ensures text { self.new ≡ self.old ++ hex segment }
        ensures len { length self.new ≤ length self.old + 4 }
    {
        match segment {
            0x1000.. => {
                self.push(hex_digit(segment / 0x1000));
                self.push(hex_digit(segment / 0x100 % 16));
                self.push(hex_digit(segment / 0x10 % 16));
                self.push(hex_digit(segment % 16));
            }
            0x100.. => {
                self.push(hex_digit(segment / 0x100 % 16));
                self.push(hex_digit(segment / 0x10 % 16));
                self.push(hex_digit(segment % 16));
            }
            0x10.. => {
                self.push(hex_digit(segment / 0x10 % 16));
                self.push(hex_digit(segment % 16));
            }
            _ => self.push(hex_digit(segment % 16)),
        }
    }
}

fn hex_digit(value: u16) -> u8
    requires { value < 16 }
    ensures text { result ≡ digit_char value }
    ensures ascii { result < 128 }
{
    if value < 10 {
        b'0' + value as u8
    } else {
        b'a' + (value - 10) as u8
    }
}

// The start and the length of the longest run of zeros, the first one of that length.
fn longest_zero_run(segments: &[u16]) -> (usize, usize)
    ensures value { result ≡ longest_zero_run segments.now }
    ensures within { result.0 + result.1 ≤ length segments.now }
{
    let mut start = segments.len();
    let mut len = 0;
    let mut run = 0;
    for i in (0..segments.len()).rev() {
        run = if segments[i] == 0 { run + 1 } else { 0 };
        if run >= len {
            start = i;
            len = run;
        }
    }
    (start, len)
}
