//! What the values of members are read as.
ghost use Rattle.std.specs.Prelude.{◌≡◌, IfOk, option_map, codes};
ghost use Rattle.serde_json.specs.Find.{as_str};
ghost use Rattle.serde_json.specs.View.{view, items_view};
ghost use Rattle.ipam_resources.specs.Values.{name_in, size_in, bound_in, selector_value_in, mode_of, mode_value_in, is_text, lists_text, has_no_items, are_uses, uses_in};

use ipam_json::{in_8_bits, in_32_bits};
use ipam_pool::Mode;
use ipam_record_text::{name_of, selector_of};
use ipam_select::NodeSelector;
use serde_json::Value;
use std::alloc::{AllocError, Global};

/// The name whose text the JSON is.
#[tactic(auto, unfolding(crate::specs::Values::name_in))]
pub(crate) fn name_in(json: &Value) -> Option<&str>
    ensures { option_map (λ t. t.now) result ≡ name_in (view json.now) }
{
    let text = json.as_str()?;
    name_of(text)
}

/// The whole number from 0 to 255 that the JSON is.
#[tactic(auto, unfolding(crate::specs::Values::size_in))]
pub(crate) fn size_in(json: &Value) -> Option<u8>
    ensures { result ≡ size_in (view json.now) }
{
    in_8_bits(json.as_u64()?)
}

/// The whole number from 0 to 2^32 - 1 that the JSON is.
#[tactic(auto, unfolding(crate::specs::Values::bound_in))]
pub(crate) fn bound_in(json: &Value) -> Option<u32>
    ensures { result ≡ bound_in (view json.now) }
{
    in_32_bits(json.as_u64()?)
}

/// The selector whose text the JSON is.
#[tactic(auto, unfolding(crate::specs::Values::selector_value_in))]
pub(crate) fn selector_in(alloc: Global, json: &Value) -> Result<Option<NodeSelector>, AllocError>
    ensures { IfOk result (λ found. found ≡ selector_value_in (view json.now)) }
{
    match json.as_str() {
        Some(text) => selector_of(alloc, text),
        None => Ok(None),
    }
}

/// The mode whose name the JSON is.
#[tactic(auto, unfolding(crate::specs::Values::mode_value_in))]
pub(crate) fn mode_in(json: &Value) -> Option<Mode>
    ensures { result ≡ mode_value_in (view json.now) }
{
    let text = json.as_str()?;
    mode_of(text)
}

#[tactic(auto, unfolding(crate::specs::Values::mode_of))]
fn mode_of(text: &str) -> Option<Mode>
    ensures { result ≡ mode_of text.now }
{
    if text == "Automatic" {
        Some(Mode::Automatic)
    } else if text == "Manual" {
        Some(Mode::Manual)
    } else {
        None
    }
}

/// Whether the JSON lists uses of a pool for workloads.
#[tactic(auto, unfolding(crate::specs::Values::are_uses))]
fn are_uses(items: &[Value]) -> bool
    ensures { result ≡ are_uses (items_view items.now) }
{
    is_empty(items) || lists_workload(items)
}

#[tactic(auto, using(crate::proofs::ValueLemmas::is_empty_view))]
fn is_empty(items: &[Value]) -> bool
    ensures { result ≡ has_no_items (items_view items.now) }
{
    items.is_empty()
}

fn lists_workload(items: &[Value]) -> bool
    ensures { result ≡ lists_text (codes "Workload") (items_view items.now) }
{
    for item in items {
        if is_workload(item) {
            return true;
        }
    }
    false
}

fn is_workload(json: &Value) -> bool
    ensures { result ≡ is_text (codes "Workload") (as_str (view json.now)) }
{
    match json.as_str() {
        Some(text) => text == "Workload",
        None => false,
    }
}

/// Something, where the JSON lists uses for workloads.
pub(crate) fn uses_in(json: &Value) -> Option<()>
    ensures { result ≡ uses_in (view json.now) }
{
    let items = json.as_array()?;
    if are_uses(items.as_slice()) {
        Some(())
    } else {
        None
    }
}
