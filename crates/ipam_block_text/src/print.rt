ghost use Rattle.std.specs.Prelude.{◌≡◌, false, IfOk, string_bytes};
ghost use Rattle.serde_json.specs.View.{view};
ghost use Rattle.serde_json.specs.Written.{compact_text, has_float};
ghost use Rattle.ipam_block.specs.Operations.{node_bytes};
ghost use Rattle.ipam_block_text.specs.Body.{block_body, parts_data};

use crate::parts::{Parts, queue_of, uses_in, uses_of};
use crate::stamps::stamps_of;
use crate::writing::{push_cidr_member, push_holders, push_rest, push_rest_with};
use ipam_block::Block;
use ipam_text::Text;
use serde_json::Value;
use std::alloc::{AllocError, Global};

/// The room that most texts need, in bytes.
const ROOM: usize = 4_096;

/// The text of the block's record: canonical JSON.
pub fn block_text(alloc: Global, block: &Block) -> Result<String, AllocError>
    ensures { IfOk result (λ s. string_bytes s ≡ block_body block.now) }
{
    let uses = uses_of(alloc, block)?;
    let stamps = stamps_of(alloc, block.allocations())?;
    let queue = queue_of(alloc, block)?;
    let mut out = String::with_capacity(alloc, ROOM)?;
    push_holders(alloc, &mut out, block.node(), &uses)?;
    push_cidr_member(alloc, &mut out, uses.cidr)?;
    push_rest(
        &mut out,
        block.sequence(),
        stamps.as_slice(),
        queue.as_slice(),
    )?;
    Ok(out)
}

/// The text with these parts and stamps.
pub(crate) fn parts_text(alloc: Global, parts: &Parts, stamps: &Value) -> Result<String, AllocError>
    requires { has_float (view stamps.now) ≡ false }
    ensures { IfOk result (λ s. string_bytes s ≡ compact_text (parts_data parts.now (view stamps.now))) }
{
    let uses = uses_in(alloc, parts)?;
    let stamps = stamps.to_string(alloc)?;
    let mut out = String::with_capacity(alloc, ROOM)?;
    push_holders(alloc, &mut out, name_of(&parts.node), &uses)?;
    push_cidr_member(alloc, &mut out, uses.cidr)?;
    push_rest_with(
        &mut out,
        parts.sequence,
        stamps.as_str(),
        parts.queue.as_slice(),
    )?;
    Ok(out)
}

fn name_of(node: &Option<Text>) -> Option<&str>
    ensures { node_bytes result ≡ node.now }
{
    match node {
        Some(name) => Some(name.as_str()),
        None => None,
    }
}
