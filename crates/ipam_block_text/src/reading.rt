ghost use Rattle.std.specs.Prelude.{◌≡◌, ◌≢◌, ◌≤◌, Err, Some, None, IfOk, option_and_then, bytes_eq, false};
ghost use Rattle.ipam_addr.specs.Shape.{CidrValue};
ghost use Rattle.serde_json.specs.View.{view};
ghost use Rattle.serde_json.specs.Written.{compact_text, has_float};
ghost use Rattle.ipam_addr.specs.Width.{cidr_size};
ghost use Rattle.ipam_block_text.specs.Body.{parts_data, block_body};
ghost use Rattle.ipam_block.specs.Shape.{BlockValue};
ghost use Rattle.ipam_block.specs.Sound.{IsBlockRecord};
ghost use Rattle.ipam_block_text.specs.Reading.{block_of_parts_in, has_text, block_reading, cidr_said};

use crate::fault::BodyFault;
use crate::form::{parts_in, stamps_in};
use crate::held::block_in;
use crate::parts::Parts;
use crate::print::{block_text, parts_text};
use ipam_block::{ADDRESSES_MAX, Block};
use ipam_json::json_of;
use serde_json::Value;
use std::alloc::{AllocError, Global};

/// The block whose text this is.
///
/// Fails with `Form` where it is not canonical JSON with the members of a block and within their
/// limits, and else with `Unsound` and the CIDR that it says where it is not the text of a block.
pub fn block_of(alloc: Global, body: &str) -> Result<Block, BodyFault>
    ensures read { IfOk result (λ b. IsBlockRecord b × (body.now ≡ block_body b)) }
    ensures form { result ≡ Err BodyFault.Form → cidr_said body.now ≡ None }
    ensures unsound { (cidr : CidrValue) → result ≡ Err (BodyFault.Unsound cidr)
        → (cidr_said body.now ≡ Some cidr)
        × ((b : BlockValue) → IsBlockRecord b → body.now ≢ block_body b) }
{
    match outcome(alloc, body) {
        Ok(outcome) => outcome,
        Err(_) => Err(BodyFault::Memory),
    }
}

/// The block, or why there is none. A text that is a block's is printed once.
fn outcome(alloc: Global, body: &str) -> Result<Result<Block, BodyFault>, AllocError>
    ensures { IfOk result (λ r. r ≡ block_reading body.now) }
{
    let Some(value) = json_of(alloc, body)? else {
        return Ok(Err(BodyFault::Form));
    };
    let Some(parts) = parts_in(alloc, &value)? else {
        return Ok(Err(BodyFault::Form));
    };
    let Some(stamps) = stamps_in(&value) else {
        return Ok(Err(BodyFault::Form));
    };
    if let Some(block) = block_with_text(alloc, &parts, stamps, body)? {
        return Ok(Ok(block));
    }
    if is_text_with(alloc, &parts, stamps, body)? {
        Ok(Err(BodyFault::Unsound(parts.cidr)))
    } else {
        Ok(Err(BodyFault::Form))
    }
}

/// The block with these parts and stamps, if they make one and this is its text.
fn block_with_text(
    alloc: Global,
    parts: &Parts,
    stamps: &Value,
    body: &str,
) -> Result<Option<Block>, AllocError>
    requires { cidr_size parts.now.cidr ≤ ADDRESSES_MAX }
    ensures { IfOk result (λ o. o ≡ option_and_then (has_text body.now) (block_of_parts_in parts.now (view stamps.now))) }
{
    let Some(block) = block_in(alloc, parts, stamps)? else {
        return Ok(None);
    };
    let text = block_text(alloc, &block)?;
    if text.as_str() == body {
        Ok(Some(block))
    } else {
        Ok(None)
    }
}

/// Whether the body is the text with these parts and stamps.
fn is_text_with(
    alloc: Global,
    parts: &Parts,
    stamps: &Value,
    body: &str,
) -> Result<bool, AllocError>
    requires { has_float (view stamps.now) ≡ false }
    ensures { IfOk result (λ same. same
        ≡ bytes_eq (compact_text (parts_data parts.now (view stamps.now))) body.now) }
{
    let text = parts_text(alloc, parts, stamps)?;
    Ok(text.as_str() == body)
}
