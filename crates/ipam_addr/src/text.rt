ghost use Rattle.std.specs.Prelude.{◌≡◌, ◌≤◌, ℕ, length, if◌then◌else◌, ◌++◌, ◌↔◌, IfOk, IfErr, OnOk, OnErr, string_bytes};
ghost use Rattle.std.specs.Option.{ok_or};
ghost use Rattle.std.specs.Str.{all_ascii_digits};
ghost use Rattle.std.specs.Str.Parse.{digits_value};
ghost use Rattle.std.specs.Net.Grammar.{Parses};
ghost use Rattle.ipam_addr.specs.Shape.{AddrValue};
ghost use Rattle.ipam_addr.specs.Made.{made_cidr};
ghost use Rattle.ipam_addr.specs.Text.{SpellsAddress, address_of, address_text, HasForm, SpellsCidr, cidr_from_parts, cidr_reading, cidr_text_of, prefix_of};

use crate::address::{Addr, Family};
use crate::buffer::TextBuffer;
use crate::cidrs::{AddrFault, Cidr};
use crate::prefix::cidr;
use std::alloc::{AllocError, Global};
use std::net::{Ipv4Addr, Ipv6Addr};

/// The address that the text writes: an IPv4 address as four decimal numbers without leading
/// zeros, or an IPv6 address in one of the forms of RFC 4291, without a zone.
///
/// Fails with `Text` on any other text. Takes no memory.
pub fn read_addr(text: &[u8]) -> Result<Addr, AddrFault>
    ensures value { result ≡ ok_or (address_of text.now) AddrFault.Text }
    ensures exact { Parses SpellsAddress text.now result }
{
    if let Ok(ip) = Ipv4Addr::parse_ascii(text) {
        return Ok(Addr {
            family: Family::V4,
            number: u128::from(ip.to_bits()),
        });
    }
    match Ipv6Addr::parse_ascii(text) {
        Ok(ip) => Ok(Addr {
            family: Family::V6,
            number: ip.to_bits(),
        }),
        Err(_) => Err(AddrFault::Text),
    }
}

/// The CIDR that the text writes: an address, `/`, and a number of one to three digits without a
/// leading zero.
///
/// Fails with `Text` where the text has not this form, and else as `cidr` does. Takes no memory.
pub fn read_cidr(text: &[u8]) -> Result<Cidr, AddrFault>
    ensures value { result ≡ cidr_reading text.now }
    ensures text { (result ≡ Err AddrFault.Text)
        ↔ ((a : AddrValue) (prefix : ℕ) → ¬ (HasForm text.now a prefix)) }
    ensures made { (a : AddrValue) (prefix : ℕ) → HasForm text.now a prefix
        → result ≡ made_cidr a prefix }
    ensures spelled { IfOk result (SpellsCidr text.now) }
{
    let slash = text.iter().position(|&byte| byte == b'/');
    match slash {
        Some(slash) => read_parts(&text[..slash], &text[slash + 1..]),
        None => Err(AddrFault::Text),
    }
}

fn read_parts(address: &[u8], digits: &[u8]) -> Result<Cidr, AddrFault>
    ensures { result ≡ cidr_from_parts (address_of address.now) (prefix_of digits.now) }
{
    let addr = read_addr(address)?;
    let Some(prefix) = read_prefix(digits) else {
        return Err(AddrFault::Text);
    };
    match u8::try_from(prefix) {
        Ok(prefix) => cidr(addr, prefix),
        Err(_) => Err(AddrFault::Prefix),
    }
}

fn read_prefix(digits: &[u8]) -> Option<u16>
    ensures { result ≡ prefix_of digits.now }
{
    if digits.is_empty() {
        return None;
    }
    if digits.len() > 3 {
        return None;
    }
    if digits[0] == b'0' && digits.len() > 1 {
        return None;
    }
    read_digits(digits)
}

fn read_digits(digits: &[u8]) -> Option<u16>
    requires { length digits.now ≤ 3 }
    ensures { result
        ≡ (if all_ascii_digits digits.now then Some (digits_value 10 digits.now) else None) }
{
    let mut value = 0u16;
    for &byte in digits {
        if !byte.is_ascii_digit() {
            return None;
        }
        value = value * 10 + u16::from(byte - b'0');
    }
    Some(value)
}

/// Appends the address's text: an IPv4 address in dots, and an IPv6 address by RFC 5952 in hex
/// groups alone, never with dots at its end. Only `out` may ask for memory.
pub fn push_addr(_alloc: Global, out: &mut String, addr: Addr) -> Result<(), AllocError>
    ensures ok { OnOk result (string_bytes out.new ≡ string_bytes out.old ++ address_text addr) }
    ensures err { OnErr result (string_bytes out.new ≡ string_bytes out.old) }
    ensures reads_back { address_of (address_text addr) ≡ Some addr }
{
    let mut text = TextBuffer::new();
    text.push_addr(addr);
    out.push_str(text.as_str())
}

/// Appends the CIDR's text: its first address as `push_addr` writes it, `/` and the prefix. Only
/// `out` may ask for memory.
pub fn push_cidr(_alloc: Global, out: &mut String, cidr: Cidr) -> Result<(), AllocError>
    ensures ok { OnOk result (string_bytes out.new ≡ string_bytes out.old ++ cidr_text_of cidr) }
    ensures err { OnErr result (string_bytes out.new ≡ string_bytes out.old) }
    ensures reads_back { cidr_reading (cidr_text_of cidr) ≡ Ok cidr }
{
    let mut text = TextBuffer::new();
    text.push_addr(cidr.base());
    text.push(b'/');
    text.push_decimal(cidr.prefix());
    out.push_str(text.as_str())
}
