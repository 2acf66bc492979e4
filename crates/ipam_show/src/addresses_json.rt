//! Addresses in use are shown to a program.
ghost use Rattle.std.specs.Prelude.{◌≡◌, codes, map, IfOk, OnOk, string_bytes};
ghost use Rattle.std.specs.Option.{option_copied};
ghost use Rattle.serde_json.specs.Data.{no_members, put};
ghost use Rattle.serde_json.specs.View.{members_view, view};
ghost use Rattle.serde_json.specs.Written.{compact_text};
ghost use Rattle.ipam_json.specs.Built.{array_of};
ghost use Rattle.ipam_model.specs.Pairs.{value_of};
ghost use Rattle.ipam_show.specs.Addresses.{text_or_null, use_data, uses_data, uses_json};
ghost use Rattle.ipam_words.specs.Views.{chosen_by};
ghost use Rattle.ipam_show.specs.InUse.{uses_kept, value_in_use};

use crate::addresses_shown::address_cell;
use crate::cells::cidr_cell;
use crate::counting::recorded;
use crate::in_use::{InUse, uses_kept};
use crate::json_shown::{put_cell, put_text};
use ipam_block::Attributes;
use ipam_store::Store;
use ipam_text::Text;
use ipam_words::Choice;
use serde_json::{Map, Value, put};
use std::alloc::{AllocError, Global};

/// The addresses as one JSON object, on a line of its own.
#[tactic(auto, unfolding(crate::specs::Addresses::uses_json))]
pub(crate) fn uses_json(alloc: Global, uses: &[InUse]) -> Result<String, AllocError>
    ensures { IfOk result (λ text. string_bytes text ≡ uses_json uses.now) }
{
    let mut text = uses_string(alloc, uses)?;
    text.push_str("\n")?;
    Ok(text)
}

fn uses_string(alloc: Global, uses: &[InUse]) -> Result<String, AllocError>
    ensures { IfOk result (λ text. string_bytes text ≡ compact_text (uses_data uses.now)) }
{
    let json = uses_value(alloc, uses)?;
    json.to_string(alloc)
}

#[tactic(auto, unfolding(crate::specs::Addresses::uses_data))]
fn uses_value(alloc: Global, uses: &[InUse]) -> Result<Value, AllocError>
    ensures { IfOk result (λ json. view json ≡ uses_data uses.now) }
{
    let mut members = Map::new(alloc);
    let list = list_value(alloc, uses)?;
    put(&mut members, alloc, "addresses", list)?;
    Ok(Value::Object(members))
}

/// The addresses in use that are chosen as a JSON array of objects, in order of address.
pub fn addresses_value(
    alloc: Global,
    store: &Store,
    chosen: &Choice<'_>,
) -> Result<Value, AllocError>
    ensures { IfOk result (λ json. view json ≡ array_of (map use_data (uses_kept (chosen_by chosen.now) store.now.store))) }
{
    let uses = uses_kept(alloc, store, chosen)?;
    list_value(alloc, &uses)
}

fn list_value(alloc: Global, uses: &[InUse]) -> Result<Value, AllocError>
    ensures { IfOk result (λ json. view json ≡ array_of (map use_data uses.now)) }
{
    let mut list = Vec::new(alloc);
    for used in uses {
        list.push(use_value(alloc, used)?)?;
    }
    Ok(Value::Array(list))
}

#[tactic(auto, unfolding(crate::specs::Addresses::use_data))]
fn use_value(alloc: Global, used: &InUse) -> Result<Value, AllocError>
    ensures { IfOk result (λ json. view json ≡ use_data used.now) }
{
    let mut members = recorded_members(alloc, used)?;
    let handle = &used.attributes.get().handle;
    put_text(alloc, &mut members, "handle", handle.as_str())?;
    let node = node_value(alloc, &used.block_node)?;
    put(&mut members, alloc, "blockNode", node)?;
    put_cell(alloc, &mut members, "block", cidr_cell(alloc, used.block)?)?;
    put_cell(
        alloc,
        &mut members,
        "address",
        address_cell(alloc, used.address)?,
    )?;
    Ok(Value::Object(members))
}

/// The members that the address is recorded with.
fn recorded_members(alloc: Global, used: &InUse) -> Result<Map<String, Value>, AllocError>
    ensures { IfOk result (λ m. members_view m.entries
        ≡ put (codes "namespace") (text_or_null (value_in_use (codes "namespace") used.now))
        (put (codes "network") (text_or_null (value_in_use (codes "network") used.now))
        (put (codes "node") (text_or_null (value_in_use (codes "node") used.now))
        (put (codes "pod") (text_or_null (value_in_use (codes "pod") used.now)) no_members)))) }
{
    let recorded_to = used.attributes.get();
    let mut members = Map::new(alloc);
    put_recorded(alloc, &mut members, "pod", recorded_to)?;
    put_recorded(alloc, &mut members, "node", recorded_to)?;
    put_recorded(alloc, &mut members, "network", recorded_to)?;
    put_recorded(alloc, &mut members, "namespace", recorded_to)?;
    Ok(members)
}

/// Puts what is recorded under the name.
fn put_recorded(
    alloc: Global,
    members: &mut Map<String, Value>,
    name: &str,
    attributes: &Attributes,
) -> Result<(), AllocError>
    ensures { OnOk result (members_view members.new.entries
        ≡ put name.now (text_or_null (value_of name.now attributes.now.secondary)) (members_view members.old.entries)) }
{
    let value = text_value(alloc, recorded(attributes, name))?;
    put(members, alloc, name, value)
}

fn text_value(alloc: Global, text: Option<&str>) -> Result<Value, AllocError>
    ensures { IfOk result (λ json. view json ≡ text_or_null (option_copied text.entry)) }
{
    match text {
        Some(text) => Value::try_from_str(alloc, text),
        None => Ok(Value::Null),
    }
}

fn node_value(alloc: Global, node: &Option<Text>) -> Result<Value, AllocError>
    ensures { IfOk result (λ json. view json ≡ text_or_null node.now) }
{
    match node {
        Some(name) => Value::try_from_str(alloc, name.as_str()),
        None => Ok(Value::Null),
    }
}
