//! The names and CIDRs that stand in bodies.
ghost use Rattle.std.specs.Prelude.{◌≡◌, ◌≤◌, ◌<◌, IfOk, IsTrue, ◌↔◌, option_map, string_bytes, nat_le};
ghost use Rattle.serde_json.specs.View.{view};
ghost use Rattle.ipam_addr.specs.Text.{cidr_text_of};
ghost use Rattle.ipam_addr.specs.Width.{cidr_size};
ghost use Rattle.ipam_record_text.specs.Blocks.{cidr_of, block_cidr_of, name_read, id_of, cidr_at, block_cidr_at, name_at, id_at};

use ipam_addr::{Cidr, is_handle_id, is_name, push_cidr, read_cidr};
use ipam_block::ADDRESSES_MAX;
use ipam_json::text_at;
use serde_json::Value;
use std::alloc::{AllocError, Global};

/// The CIDR that the text writes.
#[tactic(auto, unfolding(crate::specs::Blocks::cidr_of))]
pub fn cidr_of(text: &str) -> Option<Cidr>
    ensures { result ≡ cidr_of text.now }
{
    match read_cidr(text.as_bytes()) {
        Ok(cidr) => Some(cidr),
        Err(_) => None,
    }
}

/// The CIDR that the text writes, where a block may have it.
#[tactic(auto, unfolding(crate::specs::Blocks::block_cidr_of))]
pub(crate) fn block_of(text: &str) -> Option<Cidr>
    ensures { result ≡ block_cidr_of text.now }
{
    let cidr = cidr_of(text)?;
    if is_small(cidr) { Some(cidr) } else { None }
}

fn is_small(cidr: Cidr) -> bool
    ensures { result ≡ nat_le (cidr_size cidr) ADDRESSES_MAX }
{
    cidr.last().number - cidr.base().number < u128::from(ADDRESSES_MAX)
}

/// The text, where it is a name.
#[tactic(auto, unfolding(crate::specs::Blocks::name_read))]
pub fn name_of(text: &str) -> Option<&str>
    ensures { option_map (λ t. t.now) result ≡ name_read text.now }
{
    if is_name(text.as_bytes()) {
        Some(text)
    } else {
        None
    }
}

/// The text, where it is the id of a handle.
#[tactic(auto, unfolding(crate::specs::Blocks::id_of))]
pub fn id_of(text: &str) -> Option<&str>
    ensures { option_map (λ t. t.now) result ≡ id_of text.now }
{
    if is_handle_id(text.as_bytes()) {
        Some(text)
    } else {
        None
    }
}

/// The CIDR's text.
pub(crate) fn cidr_text(alloc: Global, cidr: Cidr) -> Result<String, AllocError>
    ensures { IfOk result (λ s. string_bytes s ≡ cidr_text_of cidr) }
{
    let mut text = String::new(alloc);
    push_cidr(alloc, &mut text, cidr)?;
    Ok(text)
}

/// The CIDR whose text has this name.
pub(crate) fn cidr_at(value: &Value, name: &str) -> Option<Cidr>
    ensures { result ≡ cidr_at name.now (view value.now) }
{
    let text = text_at(value, name)?;
    cidr_of(text)
}

/// The CIDR whose text has this name, if a block may have it.
pub(crate) fn block_at(value: &Value, name: &str) -> Option<Cidr>
    ensures { result ≡ block_cidr_at name.now (view value.now) }
{
    let text = text_at(value, name)?;
    block_of(text)
}

/// The name that has this name.
pub(crate) fn name_at<'a>(value: &'a Value, name: &str) -> Option<&'a str>
    ensures { option_map (λ t. t.now) result ≡ name_at name.now (view value.now) }
{
    let text = text_at(value, name)?;
    name_of(text)
}

/// The id of a handle that has this name.
pub(crate) fn id_at<'a>(value: &'a Value, name: &str) -> Option<&'a str>
    ensures { option_map (λ t. t.now) result ≡ id_at name.now (view value.now) }
{
    let text = text_at(value, name)?;
    id_of(text)
}
