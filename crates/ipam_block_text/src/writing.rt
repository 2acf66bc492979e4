//! What the text of a block is written with, a piece at a time. After an error the text may have got a
//! part of it.
ghost use Rattle.std.specs.Prelude.{◌≡◌, ◌++◌, [], ◌∷◌, Some, None, map, codes, decimal, IsTrue, IfOk, OnOk, string_bytes};
ghost use Rattle.json.specs.Print.{escape, escape_byte, quoted};
ghost use Rattle.serde_json.specs.Data.{array, object, string};
ghost use Rattle.ipam_addr.specs.Text.{cidr_text_of};
ghost use Rattle.serde_json.specs.View.{view, items_of};
ghost use Rattle.serde_json.specs.Written.{compact_text, comma_if};
ghost use Rattle.ipam_block.specs.Operations.{node_bytes};
ghost use Rattle.ipam_block_text.specs.Numbering.{borrowed};
ghost use Rattle.ipam_block_text.specs.Pieces.{holders_text, sequence_text, queue_text, rest_text};
ghost use Rattle.ipam_block_text.specs.Stamps.{stamp_members};
ghost use Rattle.ipam_json.specs.Built.{whole_data};
ghost use Rattle.ipam_block_text.specs.Limits.{keys_ascend};
ghost use Rattle.ipam_block_text.specs.Body.{host_data, place_data, attributes_data, secondary_data};

use crate::form::keys_ascend;
use crate::parts::Uses;
use ipam_addr::{Cidr, push_cidr};
use ipam_block::Attributes;
use ipam_text::Text;
use itoa::Buffer;
use serde_json::{Map, Value, put};
use std::alloc::{AllocError, Global};

/// Appends the first members: the node, and who holds what.
pub(crate) fn push_holders(
    alloc: Global,
    out: &mut String,
    node: Option<&str>,
    uses: &Uses<'_>,
) -> Result<(), AllocError>
    ensures { OnOk result (string_bytes out.new ≡ string_bytes out.old
        ++ holders_text (node_bytes node.entry) uses.now.places.items (borrowed uses.now.attributes.items)) }
{
    push(out, "{\"affinity\":")?;
    push_affinity(alloc, out, node)?;
    push(out, ",\"allocations\":")?;
    push_places(out, uses.places.as_slice())?;
    push(out, ",\"attributes\":")?;
    push_list(alloc, out, uses.attributes.as_slice())
}

/// Appends the CIDR.
pub(crate) fn push_cidr_member(
    alloc: Global,
    out: &mut String,
    cidr: Cidr,
) -> Result<(), AllocError>
    ensures { OnOk result (string_bytes out.new
        ≡ string_bytes out.old ++ (codes ",\"cidr\":" ++ compact_text (string (cidr_text_of cidr)))) }
{
    let mut text = String::new(alloc);
    push_cidr(alloc, &mut text, cidr)?;
    push(out, ",\"cidr\":")?;
    push_quoted(alloc, out, text.as_str())
}

/// Appends the last members: the sequence number, the stamps, which are in their order, and the queue.
pub(crate) fn push_rest(
    out: &mut String,
    sequence: u64,
    stamps: &[(u16, u64)],
    queue: &[u64],
) -> Result<(), AllocError>
    ensures { OnOk result (string_bytes out.new ≡ string_bytes out.old
        ++ rest_text sequence (compact_text (object (stamp_members stamps.now))) queue.now) }
{
    push_sequence(out, sequence)?;
    push_stamps(out, stamps)?;
    push_queue(out, queue)
}

/// Appends the last members, with this text of the stamps.
pub(crate) fn push_rest_with(
    out: &mut String,
    sequence: u64,
    stamps: &str,
    queue: &[u64],
) -> Result<(), AllocError>
    ensures { OnOk result
        (string_bytes out.new ≡ string_bytes out.old ++ rest_text sequence stamps.now queue.now) }
{
    push_sequence(out, sequence)?;
    push(out, stamps)?;
    push_queue(out, queue)
}

/// Appends the sequence number, and the name of the stamps.
fn push_sequence(out: &mut String, sequence: u64) -> Result<(), AllocError>
    ensures { OnOk result (string_bytes out.new ≡ string_bytes out.old ++ sequence_text sequence) }
{
    push(out, ",\"sequenceNumber\":")?;
    push_whole(out, sequence)?;
    push(out, ",\"sequenceNumberForAllocation\":")
}

/// Appends the queue, and the end.
fn push_queue(out: &mut String, queue: &[u64]) -> Result<(), AllocError>
    ensures { OnOk result (string_bytes out.new ≡ string_bytes out.old ++ queue_text queue.now) }
{
    push(out, ",\"unallocated\":")?;
    push_numbers(out, queue)?;
    push(out, "}")
}

/// Appends the node that the block is affine to.
fn push_affinity(alloc: Global, out: &mut String, node: Option<&str>) -> Result<(), AllocError>
    ensures { OnOk result (string_bytes out.new
        ≡ string_bytes out.old ++ compact_text (host_data (node_bytes node.entry))) }
{
    match node {
        Some(name) => {
            let mut host = String::from_str(alloc, "host:")?;
            host.push_str(name)?;
            push_quoted(alloc, out, host.as_str())
        }
        None => push(out, "null"),
    }
}

/// Appends the list of the indices, with `null` for what isn't held.
fn push_places(out: &mut String, places: &[Option<usize>]) -> Result<(), AllocError>
    ensures { OnOk result (string_bytes out.new
        ≡ string_bytes out.old ++ compact_text (array (items_of (map place_data places.now)))) }
{
    push(out, "[")?;
    let mut later = false;
    for place in places {
        push_comma(out, later)?;
        push_place(out, *place)?;
        later = true;
    }
    push(out, "]")
}

fn push_place(out: &mut String, place: Option<usize>) -> Result<(), AllocError>
    ensures { OnOk result
        (string_bytes out.new ≡ string_bytes out.old ++ compact_text (place_data place)) }
{
    match place {
        Some(index) => push_whole(out, index as u64),
        None => push(out, "null"),
    }
}

/// Appends the list of the attributes.
fn push_list(alloc: Global, out: &mut String, attributes: &[&Attributes]) -> Result<(), AllocError>
    ensures { OnOk result (string_bytes out.new ≡ string_bytes out.old
        ++ compact_text (array (items_of (map attributes_data (borrowed attributes.now))))) }
{
    push(out, "[")?;
    let mut later = false;
    for own in attributes {
        push_comma(out, later)?;
        push_attributes(alloc, out, own)?;
        later = true;
    }
    push(out, "]")
}

fn push_attributes(
    alloc: Global,
    out: &mut String,
    attributes: &Attributes,
) -> Result<(), AllocError>
    ensures { OnOk result (string_bytes out.new
        ≡ string_bytes out.old ++ compact_text (attributes_data attributes.now)) }
{
    push(out, "{\"handle_id\":")?;
    push_quoted(alloc, out, attributes.handle.as_str())?;
    push(out, ",\"secondary\":")?;
    push_secondary(alloc, out, attributes.secondary.as_slice())?;
    push(out, "}")
}

/// Appends the pairs by the bytes of their keys. Those of a sound block are in this order.
fn push_secondary(alloc: Global, out: &mut String, pairs: &[(Text, Text)]) -> Result<(), AllocError>
    ensures { OnOk result
        (string_bytes out.new ≡ string_bytes out.old ++ compact_text (secondary_data pairs.now)) }
{
    if keys_ascend(pairs) {
        return push_ascending(alloc, out, pairs);
    }
    let text = secondary_value(alloc, pairs)?.to_string(alloc)?;
    push(out, text.as_str())
}

fn secondary_value(alloc: Global, pairs: &[(Text, Text)]) -> Result<Value, AllocError>
    ensures { IfOk result (λ v. view v ≡ secondary_data pairs.now) }
{
    let mut members = Map::new(alloc);
    for pair in pairs {
        let value = Value::try_from_str(alloc, pair.1.as_str())?;
        put(&mut members, alloc, pair.0.as_str(), value)?;
    }
    Ok(Value::Object(members))
}

/// Appends pairs that are in the order of their keys.
fn push_ascending(alloc: Global, out: &mut String, pairs: &[(Text, Text)]) -> Result<(), AllocError>
    requires { IsTrue (keys_ascend pairs.now) }
    ensures { OnOk result
        (string_bytes out.new ≡ string_bytes out.old ++ compact_text (secondary_data pairs.now)) }
{
    push(out, "{")?;
    let mut later = false;
    for pair in pairs {
        push_pair(alloc, out, later, pair)?;
        later = true;
    }
    push(out, "}")
}

/// Appends a pair as a member, after a comma where something stands before.
fn push_pair(
    alloc: Global,
    out: &mut String,
    later: bool,
    pair: &(Text, Text),
) -> Result<(), AllocError>
    ensures { OnOk result (string_bytes out.new
        ≡ string_bytes out.old ++ (comma_if later ++ (quoted pair.now.0 ++ 58 ∷ quoted pair.now.1))) }
{
    push_comma(out, later)?;
    push_quoted(alloc, out, pair.0.as_str())?;
    push(out, ":")?;
    push_quoted(alloc, out, pair.1.as_str())
}

/// Appends the stamps in this order.
fn push_stamps(out: &mut String, stamps: &[(u16, u64)]) -> Result<(), AllocError>
    ensures { OnOk result (string_bytes out.new
        ≡ string_bytes out.old ++ compact_text (object (stamp_members stamps.now))) }
{
    push(out, "{")?;
    let mut later = false;
    for stamp in stamps {
        push_stamp(out, later, *stamp)?;
        later = true;
    }
    push(out, "}")
}

/// Appends the stamp as a member, after a comma where something stands before.
fn push_stamp(out: &mut String, later: bool, stamp: (u16, u64)) -> Result<(), AllocError>
    ensures { OnOk result (string_bytes out.new
        ≡ string_bytes out.old ++ (comma_if later ++ (quoted (decimal stamp.0) ++ 58 ∷ decimal stamp.1))) }
{
    push_comma(out, later)?;
    push(out, "\"")?;
    push_whole(out, u64::from(stamp.0))?;
    push(out, "\":")?;
    push_whole(out, stamp.1)
}

/// Appends the list of the numbers.
fn push_numbers(out: &mut String, numbers: &[u64]) -> Result<(), AllocError>
    ensures { OnOk result (string_bytes out.new
        ≡ string_bytes out.old ++ compact_text (array (items_of (map whole_data numbers.now)))) }
{
    push(out, "[")?;
    let mut later = false;
    for number in numbers {
        push_comma(out, later)?;
        push_whole(out, *number)?;
        later = true;
    }
    push(out, "]")
}

fn push_whole(out: &mut String, number: u64) -> Result<(), AllocError>
    ensures { OnOk result (string_bytes out.new ≡ string_bytes out.old ++ decimal number) }
{
    let mut buffer = Buffer::new();
    push(out, buffer.format(number))
}

/// Appends a comma, where something stands before.
fn push_comma(out: &mut String, later: bool) -> Result<(), AllocError>
    ensures { OnOk result (string_bytes out.new ≡ string_bytes out.old ++ comma_if later) }
{
    if later { push(out, ",") } else { Ok(()) }
}

/// Appends the text as a JSON string. Most have nothing that is escaped.
fn push_quoted(alloc: Global, out: &mut String, text: &str) -> Result<(), AllocError>
    ensures { OnOk result (string_bytes out.new ≡ string_bytes out.old ++ quoted text.now) }
{
    if !is_plain(text.as_bytes()) {
        let text = Value::try_from_str(alloc, text)?.to_string(alloc)?;
        return push(out, text.as_str());
    }
    push(out, "\"")?;
    push(out, text)?;
    push(out, "\"")
}

/// Whether no byte has an escape.
fn is_plain(bytes: &[u8]) -> bool
    ensures { IsTrue result → escape bytes.now ≡ bytes.now }
{
    for byte in bytes {
        if !is_plain_byte(*byte) {
            return false;
        }
    }
    true
}

/// Whether the byte stands in a JSON string as it is: no control byte, quote or backslash.
fn is_plain_byte(byte: u8) -> bool
    ensures { IsTrue result → escape_byte byte ≡ byte ∷ [] }
{
    if byte < 32 || byte == 34 {
        return false;
    }
    byte != 92
}

fn push(out: &mut String, text: &str) -> Result<(), AllocError>
    ensures { OnOk result (string_bytes out.new ≡ string_bytes out.old ++ text.now) }
{
    out.push_str(text)
}
