ghost use Rattle.std.specs.Prelude.{◌≡◌, ◌≢◌, [], Ok, Err, Some, IfOk, IfErr, List, map, option_map, string_bytes};
ghost use Rattle.serde_json.specs.View.{view, items_view, members_view};
ghost use Rattle.ipam_json.specs.Built.{members_from};
ghost use Rattle.ipam_select.specs.Formula.{every};
ghost use Rattle.ipam_record_text.specs.Rules.{mode_kept_in};
ghost use Rattle.ipam_record_text.specs.Pools.{plain_fields, pool_data, pools_data, pools_body, plain_in, pool_in, pool_list_in, pools_after, size_at, table_of, refusal_fault, IsSoundPool, IsPoolsRecord, HasRefusedPool};
ghost use Rattle.ipam_json.specs.Held.{held};
ghost use Rattle.ipam_pool.specs.declared.pools.Pool.{Pool as OnePool};
ghost use Rattle.std.specs.List.{AllByRecursion};

use crate::blocks::{cidr_at, cidr_text, name_at};
use crate::fault::BodyFault;
use crate::rules::{mode_in, put_mode, put_selector, selector_in};
use ipam_addr::Cidr;
use ipam_json::{items_at, json_of, number_at, truth_at};
use ipam_pool::{Pool, PoolRefusal, PoolTable};
use ipam_text::Text;
use serde_json::{Map, Value, json, put};
use std::alloc::{AllocError, Global};

/// The body of the table.
pub fn pools_text(alloc: Global, table: &PoolTable) -> Result<String, AllocError>
    ensures { IfOk result (λ s. string_bytes s ≡ pools_body table.now) }
{
    list_text(alloc, table.pools())
}

#[tactic(auto, unfolding(crate::specs::Pools::pools_body))]
fn list_text(alloc: Global, pools: &[Pool]) -> Result<String, AllocError>
    ensures { IfOk result (λ s. string_bytes s ≡ pools_body pools.now) }
{
    let json = pools_json(alloc, pools)?;
    json.to_string(alloc)
}

#[tactic(auto, unfolding(crate::specs::Pools::pools_data))]
fn pools_json(alloc: Global, pools: &[Pool]) -> Result<Value, AllocError>
    ensures { IfOk result (λ v. view v ≡ pools_data pools.now) }
{
    let list = pools_list(alloc, pools)?;
    let list = Value::Array(list);
    json!(in alloc; {"pools": list})
}

fn pools_list(alloc: Global, pools: &[Pool]) -> Result<Vec<Value>, AllocError>
    ensures { IfOk result (λ list. map view list.items ≡ map pool_data pools.now) }
{
    let mut list = Vec::new(alloc);
    for pool in pools {
        let json = pool_json(alloc, pool)?;
        list.push(json)?;
    }
    Ok(list)
}

fn pool_json(alloc: Global, pool: &Pool) -> Result<Value, AllocError>
    ensures { IfOk result (λ v. view v ≡ pool_data pool.now) }
{
    let mut members = plain_members(alloc, pool)?;
    put_mode(alloc, &mut members, pool.mode)?;
    put_selector(alloc, &mut members, &pool.selector)?;
    Ok(Value::Object(members))
}

/// What stands in each pool's object.
fn plain_members(alloc: Global, pool: &Pool) -> Result<Map<String, Value>, AllocError>
    ensures { IfOk result
        (λ m. members_view m.entries ≡ members_from (plain_fields pool.now)) }
{
    let mut members = Map::new(alloc);
    let cidr = cidr_text(alloc, pool.cidr)?;
    put(&mut members, alloc, "blockSize", Value::from(pool.size))?;
    put(&mut members, alloc, "cidr", Value::String(cidr))?;
    put(&mut members, alloc, "disabled", Value::from(pool.disabled))?;
    let name = Value::try_from_str(alloc, pool.name.as_str())?;
    put(&mut members, alloc, "name", name)?;
    Ok(members)
}

/// The table whose body this is.
pub fn pools_of(alloc: Global, body: &str) -> Result<PoolTable, BodyFault>
    ensures read { IfOk result (λ t. IsPoolsRecord t × (body.now ≡ pools_body t)) }
    ensures form { result ≡ Err BodyFault.Form
        → (pools : List OnePool) → AllByRecursion IsSoundPool pools → body.now ≢ pools_body pools }
    ensures table { result ≡ Err BodyFault.Table → HasRefusedPool body.now }
{
    match held_pools(alloc, body) {
        Ok(Some(pools)) => table_of(alloc, pools),
        Ok(None) => Err(BodyFault::Form),
        Err(_) => Err(BodyFault::Memory),
    }
}

/// The table of the pools, added one after the other.
fn table_of(alloc: Global, pools: Vec<Pool>) -> Result<PoolTable, BodyFault>
    ensures ok { IfOk result (λ t. table_of (Some pools.items) ≡ Ok t) }
    ensures err { IfErr result
        (λ e. e ≢ BodyFault.Memory → table_of (Some pools.items) ≡ Err e) }
{
    let mut table = PoolTable::new(alloc);
    for pool in pools {
        match table.add(pool) {
            Ok(()) => {}
            Err(refusal) => return Err(refusal_fault(refusal)),
        }
    }
    Ok(table)
}

fn refusal_fault(refusal: PoolRefusal) -> BodyFault
    ensures { result ≡ refusal_fault refusal }
{
    match refusal {
        PoolRefusal::Memory => BodyFault::Memory,
        _ => BodyFault::Table,
    }
}

#[tactic(auto, unfolding(ipam_json::specs::Held::held))]
fn held_pools(alloc: Global, body: &str) -> Result<Option<Vec<Pool>>, AllocError>
    ensures { IfOk result
        (λ found. option_map (λ v. v.items) found ≡ held pool_list_in pools_body body.now) }
{
    let Some(json) = json_of(alloc, body)? else {
        return Ok(None);
    };
    let Some(pools) = pools_in(alloc, &json)? else {
        return Ok(None);
    };
    let text = list_text(alloc, pools.as_slice())?;
    Ok((text.as_str() == body).then_some(pools))
}

#[tactic(auto, unfolding(crate::specs::Pools::pool_list_in))]
fn pools_in(alloc: Global, json: &Value) -> Result<Option<Vec<Pool>>, AllocError>
    ensures { IfOk result (λ found. option_map (λ v. v.items) found ≡ pool_list_in (view json.now)) }
{
    match items_at(json, "pools") {
        Some(items) => pools_of_items(alloc, items),
        None => Ok(None),
    }
}

fn pools_of_items(alloc: Global, items: &[Value]) -> Result<Option<Vec<Pool>>, AllocError>
    ensures { IfOk result
        (λ found. option_map (λ v. v.items) found ≡ pools_after [] (items_view items.now)) }
{
    let mut pools = Vec::new(alloc);
    for item in items {
        let Some(pool) = pool_in(alloc, item)? else {
            return Ok(None);
        };
        pools.push(pool)?;
    }
    Ok(Some(pools))
}

#[tactic(auto, unfolding(crate::specs::Pools::pool_in))]
fn pool_in(alloc: Global, json: &Value) -> Result<Option<Pool>, AllocError>
    ensures { IfOk result (λ found. found ≡ pool_in (view json.now)) }
{
    let Some((size, cidr, disabled, name)) = parts_in(json) else {
        return Ok(None);
    };
    let Some(selector) = selector_in(alloc, json)? else {
        return Ok(None);
    };
    let name = Text::copied(alloc, name)?;
    let mode = mode_in(json);
    Ok(Some(Pool {
        name,
        cidr,
        size,
        disabled,
        mode,
        selector,
    }))
}

#[tactic(auto, unfolding(crate::specs::Pools::plain_in))]
fn parts_in(json: &Value) -> Option<(u8, Cidr, bool, &str)>
    ensures { option_map
        (λ p. record { name = p.3.now; cidr = p.1; size = p.0; disabled = p.2; mode = mode_kept_in (view json.now); selector = every }) result
        ≡ plain_in (view json.now) }
{
    let size = size_at(json, "blockSize")?;
    let cidr = cidr_at(json, "cidr")?;
    let disabled = truth_at(json, "disabled")?;
    let name = name_at(json, "name")?;
    Some((size, cidr, disabled, name))
}

#[tactic(auto, unfolding(crate::specs::Pools::size_at))]
fn size_at(json: &Value, name: &str) -> Option<u8>
    ensures { result ≡ size_at name.now (view json.now) }
{
    let number = number_at(json, name)?;
    u8::try_from(number).ok()
}
