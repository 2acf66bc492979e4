//! A node is shown to a program.
ghost use Rattle.std.specs.Prelude.{◌≡◌, map, option_map, IfOk, string_bytes};
ghost use Rattle.serde_json.specs.View.{view};
ghost use Rattle.serde_json.specs.Written.{compact_text};
ghost use Rattle.ipam_block.specs.State.{state_text};
ghost use Rattle.ipam_json.specs.Built.{array_of};
ghost use Rattle.ipam_show.specs.Addresses.{text_or_null};
ghost use Rattle.ipam_views.specs.Node.{node_data, node_json, own_data};

use ipam_block::State;
use ipam_show::{BlockCount, addresses_value, cidr_cell, put_cell, put_text, state_of};
use ipam_store::Store;
use ipam_words::Choice;
use serde_json::{Map, Value, put};
use std::alloc::{AllocError, Global};

/// The node as one JSON object, on a line of its own.
#[tactic(auto, unfolding(crate::specs::Node::node_json))]
pub(crate) fn node_json(
    alloc: Global,
    store: &Store,
    node: &str,
    counts: &[BlockCount],
) -> Result<String, AllocError>
    ensures { IfOk result (λ text. string_bytes text ≡ node_json node.now store.now.store counts.now) }
{
    let mut text = node_string(alloc, store, node, counts)?;
    text.push_str("\n")?;
    Ok(text)
}

fn node_string(
    alloc: Global,
    store: &Store,
    node: &str,
    counts: &[BlockCount],
) -> Result<String, AllocError>
    ensures { IfOk result (λ text. string_bytes text ≡ compact_text (node_data node.now store.now.store counts.now)) }
{
    let json = node_value(alloc, store, node, counts)?;
    json.to_string(alloc)
}

#[tactic(auto, unfolding(crate::specs::Node::node_data))]
fn node_value(
    alloc: Global,
    store: &Store,
    node: &str,
    counts: &[BlockCount],
) -> Result<Value, AllocError>
    ensures { IfOk result (λ json. view json ≡ node_data node.now store.now.store counts.now) }
{
    let blocks = own_list(alloc, store, counts)?;
    let borrowed = addresses_value(alloc, store, &Choice::BorrowedBy(node))?;
    let mut members = Map::new(alloc);
    put_text(alloc, &mut members, "node", node)?;
    put(&mut members, alloc, "borrowed", borrowed)?;
    put(&mut members, alloc, "blocks", blocks)?;
    Ok(Value::Object(members))
}

fn own_list(alloc: Global, store: &Store, counts: &[BlockCount]) -> Result<Value, AllocError>
    ensures { IfOk result (λ json. view json ≡ array_of (map (own_data store.now.store) counts.now)) }
{
    let mut list = Vec::new(alloc);
    for count in counts {
        list.push(own_value(alloc, store, count)?)?;
    }
    Ok(Value::Array(list))
}

#[tactic(auto, unfolding(crate::specs::Node::own_data))]
fn own_value(alloc: Global, store: &Store, count: &BlockCount) -> Result<Value, AllocError>
    ensures { IfOk result (λ json. view json ≡ own_data store.now.store count.now) }
{
    let state = state_of(alloc, store, count)?;
    let state = state_value(alloc, state)?;
    let mut members = Map::new(alloc);
    put(
        &mut members,
        alloc,
        "used",
        Value::from(u64::from(count.used)),
    )?;
    put(&mut members, alloc, "state", state)?;
    put(
        &mut members,
        alloc,
        "size",
        Value::from(u64::from(count.size)),
    )?;
    put(
        &mut members,
        alloc,
        "free",
        Value::from(u64::from(count.free)),
    )?;
    put_cell(alloc, &mut members, "block", cidr_cell(alloc, count.cidr)?)?;
    Ok(Value::Object(members))
}

fn state_value(alloc: Global, state: Option<State>) -> Result<Value, AllocError>
    ensures { IfOk result (λ json. view json ≡ text_or_null (option_map state_text state)) }
{
    match state {
        Some(state) => Value::try_from_str(alloc, state.name()),
        None => Ok(Value::Null),
    }
}
