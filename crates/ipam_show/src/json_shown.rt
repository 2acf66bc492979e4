//! `show --json`: the pools are shown to a program.
ghost use Rattle.std.specs.Prelude.{◌≡◌, ◌<◌, ◌≤◌, ◌^◌, All, codes, decimal, length, map, IfOk, OnOk, string_bytes};
ghost use Rattle.serde_json.specs.Data.{no_members, put, string};
ghost use Rattle.serde_json.specs.View.{members_view, view};
ghost use Rattle.serde_json.specs.Written.{compact_text};
ghost use Rattle.ipam_addr.specs.Text.{cidr_text_of};
ghost use Rattle.ipam_addr.specs.Width.{cidr_size};
ghost use Rattle.ipam_json.specs.Built.{array_of, whole_data};
ghost use Rattle.ipam_records.specs.Datastore.{most_blocks};
ghost use Rattle.ipam_show.specs.Kept.{blocks_kept};
ghost use Rattle.ipam_show.specs.Scopes.{block_sum, free_sum, is_within, used_sum};
ghost use Rattle.ipam_show.specs.Left.{IsOfSlots};
ghost use Rattle.ipam_show.specs.Json.{json_text, pool_shown_data, pools_shown_data};

use crate::cells::{addresses_cell, cidr_cell};
use crate::counting::{BlockCount, counts_kept};
use crate::keeping::pools_kept;
use crate::left::{left_cell, use_word};
use crate::sums::{Amount, Scope, amount_sum, block_sum};
use ipam_pool::Pool;
use ipam_store::Store;
use ipam_text::Text;
use serde_json::{Map, Value, put};
use std::alloc::{AllocError, Global};

/// The pools and what they come to as one JSON object, on a line of its own.
#[tactic(auto, unfolding(crate::specs::Json::json_text))]
pub fn show_json(alloc: Global, store: &Store) -> Result<String, AllocError>
    requires few { length (blocks_kept store.now.store) ≤ most_blocks }
    ensures { IfOk result (λ text. string_bytes text ≡ json_text store.now.store) }
{
    let counts = counts_kept(alloc, store)?;
    let mut text = pools_string(alloc, &counts, pools_kept(store))?;
    text.push_str("\n")?;
    Ok(text)
}

fn pools_string(alloc: Global, counts: &[BlockCount], pools: &[Pool]) -> Result<String, AllocError>
    requires few { length counts.now < 2 ^ 32 }
    requires slots { All IsOfSlots pools.now }
    ensures { IfOk result (λ text. string_bytes text ≡ compact_text (pools_shown_data counts.now pools.now)) }
{
    let json = pools_value(alloc, counts, pools)?;
    json.to_string(alloc)
}

#[tactic(auto, unfolding(crate::specs::Json::pools_shown_data))]
fn pools_value(alloc: Global, counts: &[BlockCount], pools: &[Pool]) -> Result<Value, AllocError>
    requires few { length counts.now < 2 ^ 32 }
    requires slots { All IsOfSlots pools.now }
    ensures { IfOk result (λ json. view json ≡ pools_shown_data counts.now pools.now) }
{
    let mut members = Map::new(alloc);
    put_sums(alloc, &mut members, &Scope::All, counts)?;
    let list = list_value(alloc, counts, pools)?;
    put(&mut members, alloc, "pools", list)?;
    Ok(Value::Object(members))
}

fn list_value(alloc: Global, counts: &[BlockCount], pools: &[Pool]) -> Result<Value, AllocError>
    requires few { length counts.now < 2 ^ 32 }
    requires slots { All IsOfSlots pools.now }
    ensures { IfOk result (λ json. view json ≡ array_of (map (pool_shown_data counts.now) pools.now)) }
{
    let mut list = Vec::new(alloc);
    for pool in pools {
        list.push(pool_value(alloc, counts, pool)?)?;
    }
    Ok(Value::Array(list))
}

#[tactic(auto, unfolding(crate::specs::Json::pool_shown_data))]
fn pool_value(alloc: Global, counts: &[BlockCount], pool: &Pool) -> Result<Value, AllocError>
    requires few { length counts.now < 2 ^ 32 }
    requires slots { IsOfSlots pool.now }
    ensures { IfOk result (λ json. view json ≡ pool_shown_data counts.now pool.now) }
{
    let mut members = pool_members(alloc, pool)?;
    put_sums(alloc, &mut members, &Scope::Pool(pool.cidr), counts)?;
    put_text(alloc, &mut members, "use", use_word(pool))?;
    put_cell(
        alloc,
        &mut members,
        "blocksLeft",
        left_cell(alloc, counts, pool)?,
    )?;
    Ok(Value::Object(members))
}

/// The members that do not depend on the blocks.
fn pool_members(alloc: Global, pool: &Pool) -> Result<Map<String, Value>, AllocError>
    ensures { IfOk result (λ m. members_view m.entries
        ≡ put (codes "name") (string pool.now.name) (put (codes "cidr") (string (cidr_text_of pool.now.cidr))
        (put (codes "addresses") (string (decimal (cidr_size pool.now.cidr))) no_members))) }
{
    let mut members = Map::new(alloc);
    put_cell(
        alloc,
        &mut members,
        "addresses",
        addresses_cell(alloc, pool.cidr)?,
    )?;
    put_cell(alloc, &mut members, "cidr", cidr_cell(alloc, pool.cidr)?)?;
    put_text(alloc, &mut members, "name", pool.name.as_str())?;
    Ok(members)
}

/// Puts what the blocks come to.
fn put_sums(
    alloc: Global,
    members: &mut Map<String, Value>,
    scope: &Scope<'_>,
    counts: &[BlockCount],
) -> Result<(), AllocError>
    requires { length counts.now < 2 ^ 32 }
    ensures { OnOk result (members_view members.new.entries
        ≡ put (codes "used") (whole_data (used_sum (is_within scope.now) counts.now))
        (put (codes "freeInBlocks") (whole_data (free_sum (is_within scope.now) counts.now))
        (put (codes "blocks") (whole_data (block_sum (is_within scope.now) counts.now))
        (members_view members.old.entries)))) }
{
    let blocks = block_sum(scope, counts);
    let free = amount_sum(Amount::Free, scope, counts);
    let used = amount_sum(Amount::Used, scope, counts);
    put(members, alloc, "blocks", Value::from(blocks))?;
    put(members, alloc, "freeInBlocks", Value::from(free))?;
    put(members, alloc, "used", Value::from(used))
}

/// Puts a member whose value is a text.
pub fn put_text(
    alloc: Global,
    members: &mut Map<String, Value>,
    name: &str,
    text: &str,
) -> Result<(), AllocError>
    ensures { OnOk result (members_view members.new.entries
        ≡ put name.now (string text.now) (members_view members.old.entries)) }
{
    let value = Value::try_from_str(alloc, text)?;
    put(members, alloc, name, value)
}

/// Puts a member whose value is the text of a cell.
pub fn put_cell(
    alloc: Global,
    members: &mut Map<String, Value>,
    name: &str,
    cell: Text,
) -> Result<(), AllocError>
    ensures { OnOk result (members_view members.new.entries
        ≡ put name.now (string cell) (members_view members.old.entries)) }
{
    put_text(alloc, members, name, cell.as_str())
}
