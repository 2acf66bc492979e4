ghost use Rattle.std.specs.Prelude.{◌≡◌, ◌≢◌, [], Err, Some, IfOk, IfSome, ◌<◌, option_map, option_and_then, string_bytes};
ghost use Rattle.std.specs.Bool.{OnTrue, OnFalse};
ghost use Rattle.serde_json.specs.Data.{no_members};
ghost use Rattle.serde_json.specs.View.{view, members_view};
ghost use Rattle.ipam_block.specs.HandleShape.{HandleValue};
ghost use Rattle.ipam_block.specs.HandleOperations.{content, count_in};
ghost use Rattle.ipam_block.specs.HandleSound.{AreCounts, IsHandleRecord};
ghost use Rattle.ipam_record_text.specs.Handle.{handle_data, handle_body, with_counts, count_of_json, block_counted, AddsCount, counts_after, handle_of_counts, handle_in};
ghost use Rattle.ipam_json.specs.Held.{held};

use crate::blocks::{block_of, cidr_text, id_at};
use crate::fault::BodyFault;
use ipam_addr::Cidr;
use ipam_block::Handle;
use ipam_json::{in_32_bits, json_of, members_at};
use ipam_text::{Seq, Text};
use serde_json::{Map, Value, json, put};
use std::alloc::{AllocError, Global};
use std::collections::BTreeMap;

/// The body of the handle.
pub fn handle_text(alloc: Global, handle: &Handle) -> Result<String, AllocError>
    ensures { IfOk result (λ s. string_bytes s ≡ handle_body handle.now) }
{
    let json = handle_json(alloc, handle)?;
    json.to_string(alloc)
}

#[tactic(auto, unfolding(crate::specs::Handle::handle_data))]
fn handle_json(alloc: Global, handle: &Handle) -> Result<Value, AllocError>
    ensures { IfOk result (λ v. view v ≡ handle_data handle.now) }
{
    let counts = counts_json(alloc, handle.blocks())?;
    let counts = Value::Object(counts);
    let id = handle.id();
    json!(in alloc; {"block": counts, "handleID": id})
}

fn counts_json(alloc: Global, counts: &[(Cidr, u32)]) -> Result<Map<String, Value>, AllocError>
    ensures { IfOk result
        (λ m. members_view m.entries ≡ with_counts no_members counts.now) }
{
    let mut map = Map::new(alloc);
    for entry in counts {
        let name = cidr_text(alloc, entry.0)?;
        put(&mut map, alloc, name.as_str(), Value::from(entry.1))?;
    }
    Ok(map)
}

/// The handle whose body this is.
pub fn handle_of(alloc: Global, body: &str) -> Result<Handle, BodyFault>
    ensures read { IfOk result (λ h. IsHandleRecord h × (body.now ≡ handle_body h)) }
    ensures form { result ≡ Err BodyFault.Form
        → (h : HandleValue) → IsHandleRecord h → body.now ≢ handle_body h }
    ensures no_table { result ≢ Err BodyFault.Table }
{
    match held_handle(alloc, body) {
        Ok(Some(handle)) => Ok(handle),
        Ok(None) => Err(BodyFault::Form),
        Err(_) => Err(BodyFault::Memory),
    }
}

#[tactic(auto, unfolding(ipam_json::specs::Held::held))]
fn held_handle(alloc: Global, body: &str) -> Result<Option<Handle>, AllocError>
    ensures { IfOk result (λ held_value. held_value ≡ held handle_in handle_body body.now) }
{
    let Some(json) = json_of(alloc, body)? else {
        return Ok(None);
    };
    let Some(handle) = handle_in(alloc, &json)? else {
        return Ok(None);
    };
    let text = handle_text(alloc, &handle)?;
    Ok((text.as_str() == body).then_some(handle))
}

#[tactic(auto, unfolding(crate::specs::Handle::handle_in))]
fn handle_in(alloc: Global, json: &Value) -> Result<Option<Handle>, AllocError>
    ensures { IfOk result (λ found. found ≡ handle_in (view json.now)) }
{
    let Some(members) = members_at(json, "block") else {
        return Ok(None);
    };
    let Some(id) = id_at(json, "handleID") else {
        return Ok(None);
    };
    let id = Text::copied(alloc, id)?;
    counted_handle(alloc, id, members)
}

#[tactic(auto, unfolding(crate::specs::Handle::handle_of_counts))]
fn counted_handle(
    alloc: Global,
    id: Text,
    members: &Map<String, Value>,
) -> Result<Option<Handle>, AllocError>
    ensures { IfOk result (λ found. found ≡ option_and_then (handle_of_counts id)
        (counts_after [] (members_view members.now.entries))) }
{
    let Some(counts) = counts_in(alloc, members)? else {
        return Ok(None);
    };
    if counts.is_empty() {
        return Ok(None);
    }
    let counts = listed(alloc, &counts)?;
    Ok(Handle::of_counts(id, counts))
}

/// The counts that the members are. The texts of blocks stand in another order than the blocks.
fn counts_in(
    alloc: Global,
    members: &Map<String, Value>,
) -> Result<Option<BTreeMap<Cidr, u32>>, AllocError>
    ensures counts { IfOk result (λ found. option_map (λ m. m.entries) found
        ≡ counts_after [] (members_view members.now.entries)) }
    ensures sound { IfOk result (λ found. IfSome found (λ m. AreCounts m.entries)) }
{
    let mut counts = BTreeMap::new(alloc);
    for (name, value) in members {
        let Some(entry) = counted(name.as_str(), value) else {
            return Ok(None);
        };
        if !add(&mut counts, entry.0, entry.1)? {
            return Ok(None);
        }
    }
    Ok(Some(counts))
}

/// Adds the block's count and answers `true`, or answers `false` where the block has one.
fn add(counts: &mut BTreeMap<Cidr, u32>, block: Cidr, count: u32) -> Result<bool, AllocError>
    requires { AreCounts counts.old.entries }
    ensures added { IfOk result (λ new. OnTrue new (AddsCount counts.old.entries counts.new.entries block count)) }
    ensures there { IfOk result (λ new. OnFalse new (0 < count_in counts.old.entries block)) }
{
    match counts.insert(block, count) {
        Ok(old) => Ok(old.is_none()),
        Err(_) => Err(AllocError),
    }
}

fn listed(alloc: Global, counts: &BTreeMap<Cidr, u32>) -> Result<Seq<(Cidr, u32)>, AllocError>
    ensures { IfOk result (λ list. list ≡ counts.now.entries) }
{
    let mut list = Vec::new(alloc);
    for (block, count) in counts {
        list.push((*block, *count))?;
    }
    Ok(Seq::of(list))
}

/// The block and the count that a member is.
#[tactic(auto, unfolding(crate::specs::Handle::block_counted))]
fn counted(name: &str, value: &Value) -> Option<(Cidr, u32)>
    ensures value { result ≡ block_counted name.now (view value.now) }
    ensures some { IfSome result (λ c. 0 < c.1) }
{
    let block = block_of(name)?;
    let count = count_of_json(value)?;
    Some((block, count))
}

#[tactic(auto, unfolding(crate::specs::Handle::count_of_json))]
fn count_of_json(value: &Value) -> Option<u32>
    ensures value { result ≡ count_of_json (view value.now) }
    ensures some { IfSome result (λ n. 0 < n) }
{
    let count = in_32_bits(value.as_u64()?)?;
    if count > 0 { Some(count) } else { None }
}
