ghost use Rattle.std.specs.Prelude.{◌≡◌, ◌++◌, ◌↔◌, IfOk, OnOk, bytes_eq, option_map, string_bytes};
ghost use Rattle.std.specs.Option.{option_copied};
ghost use Rattle.std.specs.Str.{IsAscii};
ghost use Rattle.ipam_records.specs.KeyRef.{owned_key};
ghost use Rattle.ipam_records.specs.KeyText.{IsKey, IsTextOf, key_bytes, key_read, text_behind, cidr_read, block_read, affinity_of_parts, affinity_read, handle_read};

use crate::key::Key;
use crate::key_ref::KeyRef;
use ipam_addr::{Cidr, is_handle_id, is_name, push_cidr, read_cidr};
use std::alloc::{AllocError, Global};
use std::str;

/// The key's text: its kind, and after a slash what tells it from others of its kind.
pub fn key_text(alloc: Global, key: &Key) -> Result<String, AllocError>
    ensures text { IfOk result (λ text. string_bytes text ≡ key_bytes key.now) }
    ensures reads_back { IsKey key.now → key_read (key_bytes key.now) ≡ Some key.now }
    ensures own { (other : Key) → IsKey key.now → IsKey other
        → key_bytes key.now ≡ key_bytes other → key.now ≡ other }
{
    let mut text = String::new(alloc);
    push_key(alloc, &mut text, key)?;
    Ok(text)
}

fn push_key(alloc: Global, out: &mut String, key: &Key) -> Result<(), AllocError>
    ensures { OnOk result (string_bytes out.new ≡ string_bytes out.old ++ key_bytes key.now) }
{
    match key {
        Key::Config => out.push_str("config")?,
        Key::Pools => out.push_str("pools")?,
        Key::Reservations => out.push_str("reservations")?,
        Key::Block(cidr) => {
            out.push_str("block/")?;
            push_cidr(alloc, out, *cidr)?;
        }
        Key::Affinity(node, cidr) => {
            out.push_str("affinity/")?;
            out.push_str(node.as_str())?;
            out.push_str("/")?;
            push_cidr(alloc, out, *cidr)?;
        }
        Key::Handle(id) => {
            out.push_str("handle/")?;
            out.push_str(id.as_str())?;
        }
    }
    Ok(())
}

/// The key that has this text, or `None` where no key has it: where the text has not the form of
/// a key's, the node in it is no name, the id no handle's, or a CIDR is spelled otherwise than it
/// is printed.
pub fn key_of_text(alloc: Global, text: &[u8]) -> Result<Option<Key>, AllocError>
    ensures value { IfOk result (λ found. found ≡ key_read text.now) }
    ensures exact { IfOk result (λ found.
        (key : Key) → (found ≡ Some key) ↔ IsTextOf text.now key) }
{
    // (no `?` here: what borrows from the text would be given back on one branch alone)
    match read_key(alloc, text) {
        Ok(Some(key)) => Ok(Some(key.to_key(alloc)?)),
        Ok(None) => Ok(None),
        Err(fault) => Err(fault),
    }
}

/// The key that has this text, as `key_of_text`, borrowed from the text.
pub(crate) fn read_key<'a>(alloc: Global, text: &'a [u8]) -> Result<Option<KeyRef<'a>>, AllocError>
    ensures { IfOk result (λ found. option_map owned_key found ≡ key_read text.now) }
{
    if is_word(text, "config") {
        return Ok(Some(KeyRef::Config));
    }
    if is_word(text, "pools") {
        return Ok(Some(KeyRef::Pools));
    }
    if is_word(text, "reservations") {
        return Ok(Some(KeyRef::Reservations));
    }
    if let Some(cidr) = behind(text, "block/") {
        return read_block(alloc, cidr);
    }
    if let Some(parts) = behind(text, "affinity/") {
        return read_affinity(alloc, parts);
    }
    if let Some(id) = behind(text, "handle/") {
        return Ok(read_handle(id));
    }
    Ok(None)
}

fn is_word(text: &[u8], word: &str) -> bool
    ensures { result ≡ bytes_eq text.now word.now }
{
    text == word.as_bytes()
}

// What stands after this beginning, where the text has it.
fn behind<'a>(text: &'a [u8], start: &str) -> Option<&'a [u8]>
    ensures { option_copied result ≡ text_behind start.now text.now }
{
    text.strip_prefix(start.as_bytes())
}

fn read_block<'a>(alloc: Global, text: &'a [u8]) -> Result<Option<KeyRef<'a>>, AllocError>
    ensures { IfOk result (λ key. option_map owned_key key ≡ block_read text.now) }
{
    match read_cidr_text(alloc, text)? {
        Some(cidr) => Ok(Some(KeyRef::Block(cidr))),
        None => Ok(None),
    }
}

fn read_affinity<'a>(alloc: Global, text: &'a [u8]) -> Result<Option<KeyRef<'a>>, AllocError>
    ensures { IfOk result (λ key. option_map owned_key key ≡ affinity_read text.now) }
{
    let slash = text.iter().position(|&byte| byte == b'/');
    match slash {
        Some(slash) => read_affinity_parts(alloc, &text[..slash], &text[slash + 1..]),
        None => Ok(None),
    }
}

fn read_affinity_parts<'a>(
    alloc: Global,
    node: &'a [u8],
    cidr: &[u8],
) -> Result<Option<KeyRef<'a>>, AllocError>
    ensures { IfOk result (λ key. option_map owned_key key ≡ affinity_of_parts node.now cidr.now) }
{
    if !is_name(node) {
        return Ok(None);
    }
    match read_cidr_text(alloc, cidr)? {
        Some(cidr) => Ok(Some(KeyRef::Affinity(ascii(node), cidr))),
        None => Ok(None),
    }
}

fn read_handle<'a>(id: &'a [u8]) -> Option<KeyRef<'a>>
    ensures { option_map owned_key result ≡ handle_read id.now }
{
    if is_handle_id(id) {
        Some(KeyRef::Handle(ascii(id)))
    } else {
        None
    }
}

// The CIDR whose printed text this is.
fn read_cidr_text(alloc: Global, text: &[u8]) -> Result<Option<Cidr>, AllocError>
    ensures { IfOk result (λ cidr. cidr ≡ cidr_read text.now) }
{
    let Ok(cidr) = read_cidr(text) else {
        return Ok(None);
    };
    let mut printed = String::new(alloc);
    push_cidr(alloc, &mut printed, cidr)?;
    if printed.as_bytes() == text {
        Ok(Some(cidr))
    } else {
        Ok(None)
    }
}

// A name or an id as a text.
fn ascii<'a>(bytes: &'a [u8]) -> &'a str
    requires { IsAscii bytes.now }
    ensures { result.now ≡ bytes.now }
{
    str::from_utf8(bytes).unwrap()
}
