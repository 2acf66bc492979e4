//! A handle is shown to a program.
ghost use Rattle.std.specs.Prelude.{◌≡◌, map, IfOk, string_bytes};
ghost use Rattle.serde_json.specs.View.{view};
ghost use Rattle.serde_json.specs.Written.{compact_text};
ghost use Rattle.ipam_json.specs.Built.{array_of};
ghost use Rattle.ipam_views.specs.Handle.{handle_data, handle_json, high_data};

use crate::high_counts::HighCount;
use ipam_show::{addresses_value, cidr_cell, put_cell, put_text};
use ipam_store::Store;
use ipam_words::Choice;
use serde_json::{Map, Value, put};
use std::alloc::{AllocError, Global};

/// The handle as one JSON object, on a line of its own.
#[tactic(auto, unfolding(crate::specs::Handle::handle_json))]
pub(crate) fn handle_json(
    alloc: Global,
    store: &Store,
    handle: &str,
    counts: &[HighCount],
) -> Result<String, AllocError>
    ensures { IfOk result (λ text. string_bytes text ≡ handle_json handle.now store.now.store counts.now) }
{
    let mut text = handle_string(alloc, store, handle, counts)?;
    text.push_str("\n")?;
    Ok(text)
}

fn handle_string(
    alloc: Global,
    store: &Store,
    handle: &str,
    counts: &[HighCount],
) -> Result<String, AllocError>
    ensures { IfOk result (λ text. string_bytes text ≡ compact_text (handle_data handle.now store.now.store counts.now)) }
{
    let json = handle_value(alloc, store, handle, counts)?;
    json.to_string(alloc)
}

#[tactic(auto, unfolding(crate::specs::Handle::handle_data))]
fn handle_value(
    alloc: Global,
    store: &Store,
    handle: &str,
    counts: &[HighCount],
) -> Result<Value, AllocError>
    ensures { IfOk result (λ json. view json ≡ handle_data handle.now store.now.store counts.now) }
{
    let high = high_list(alloc, counts)?;
    let addresses = addresses_value(alloc, store, &Choice::OfHandle(handle))?;
    let mut members = Map::new(alloc);
    put_text(alloc, &mut members, "handle", handle)?;
    put(&mut members, alloc, "countsTooHigh", high)?;
    put(&mut members, alloc, "addresses", addresses)?;
    Ok(Value::Object(members))
}

fn high_list(alloc: Global, counts: &[HighCount]) -> Result<Value, AllocError>
    ensures { IfOk result (λ json. view json ≡ array_of (map high_data counts.now)) }
{
    let mut list = Vec::new(alloc);
    for high in counts {
        list.push(high_value(alloc, high)?)?;
    }
    Ok(Value::Array(list))
}

#[tactic(auto, unfolding(crate::specs::Handle::high_data))]
fn high_value(alloc: Global, high: &HighCount) -> Result<Value, AllocError>
    ensures { IfOk result (λ json. view json ≡ high_data high.now) }
{
    let mut members = Map::new(alloc);
    put(
        &mut members,
        alloc,
        "inUse",
        Value::from(u64::from(high.in_use)),
    )?;
    put(
        &mut members,
        alloc,
        "count",
        Value::from(u64::from(high.count)),
    )?;
    put_cell(alloc, &mut members, "block", cidr_cell(alloc, high.block)?)?;
    Ok(Value::Object(members))
}
