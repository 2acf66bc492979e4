ghost use Rattle.std.specs.Prelude.{◌≡◌, ◌≢◌, true, false, IfOk};
ghost use Rattle.std.specs.List.{list_any};
ghost use Rattle.ipam_model.specs.Admin.{is_same_pool, pool_changed, pool_refused, pool_name_at, disable_changed};
ghost use Rattle.ipam_model.specs.Usable.{is_same_cidr};
ghost use Rattle.ipam_release.specs.Change.{changed_to};

use crate::change::Change;
use ipam_addr::Cidr;
use ipam_pool::{NoSuchPool, Pool, PoolRefusal, PoolTable};
use ipam_records::Record;
use ipam_text::Text;
use std::alloc::{AllocError, Global};

/// Sets the rules of the pool that is there with this name, CIDR and size, or appends it.
pub(crate) fn put_pool(alloc: Global, table: PoolTable, pool: &Pool) -> Result<Change, AllocError>
    ensures { IfOk result (λ change. changed_to change ≡ pool_changed table pool.now) }
{
    if is_there(table.pools(), pool) {
        return set_rules(table, pool);
    }
    append(alloc, table, pool)
}

/// Whether a pool of this name, CIDR and size is there.
fn is_there(pools: &[Pool], pool: &Pool) -> bool
    ensures { result ≡ list_any (is_same_pool pool.now) pools.now }
{
    pools.iter().any(|other| is_same_pool(pool, other))
}

fn is_same_pool(pool: &Pool, other: &Pool) -> bool
    ensures { result ≡ is_same_pool pool.now other.now }
{
    other.name.as_str() == pool.name.as_str()
        && is_same_cidr(other.cidr, pool.cidr)
        && other.size == pool.size
}

fn is_same_cidr(one: Cidr, other: Cidr) -> bool
    ensures { result ≡ is_same_cidr one other }
{
    one.cmp(&other).is_eq()
}

#[tactic(auto, using(crate::proofs::PoolLemmas::is_named_there))]
fn set_rules(table: PoolTable, pool: &Pool) -> Result<Change, AllocError>
    requires { list_any (is_same_pool pool.now) table ≡ true }
    ensures { IfOk result (λ change. changed_to change ≡ pool_changed table pool.now) }
{
    let mut table = table;
    let selector = pool.selector.clone()?;
    let Ok(()) = table.set(pool.name.as_str(), pool.disabled, pool.mode, selector) else {
        unreachable!()
    };
    Ok(Change::Becomes(Record::Pools(table)))
}

fn append(alloc: Global, table: PoolTable, pool: &Pool) -> Result<Change, AllocError>
    requires { list_any (is_same_pool pool.now) table ≡ false }
    ensures { IfOk result (λ change. changed_to change ≡ pool_changed table pool.now) }
{
    let mut table = table;
    match table.add(pool.clone()?) {
        Ok(()) => Ok(Change::Becomes(Record::Pools(table))),
        Err(refusal) => {
            let change = refused(alloc, table.pools(), pool, refusal)?;
            Ok(change)
        }
    }
}

/// How the pool is refused, for this reason. A want of memory is no refusal of a pool.
fn refused(
    alloc: Global,
    pools: &[Pool],
    pool: &Pool,
    refusal: PoolRefusal,
) -> Result<Change, AllocError>
    ensures change { IfOk result (λ change. changed_to change ≡ pool_refused pools.now pool.now refusal) }
    ensures told { IfOk result (λ _. refusal ≢ PoolRefusal.Memory) }
{
    match refusal {
        PoolRefusal::NameTaken => Ok(Change::Refuses(1, pool.name.clone()?)),
        PoolRefusal::Overlap(place) => Ok(Change::Refuses(2, name_at(alloc, pools, place)?)),
        PoolRefusal::Size => Ok(Change::Refuses(3, pool.name.clone()?)),
        PoolRefusal::Prefix => Ok(Change::Refuses(4, pool.name.clone()?)),
        PoolRefusal::TooMany => Ok(Change::Refuses(5, pool.name.clone()?)),
        PoolRefusal::Memory => Err(AllocError),
    }
}

/// The name of the pool at this place.
fn name_at(alloc: Global, pools: &[Pool], place: usize) -> Result<Text, AllocError>
    ensures { IfOk result (λ name. name ≡ pool_name_at pools.now place) }
{
    match pools.get(place) {
        Some(pool) => pool.name.clone(),
        None => Text::copied(alloc, ""),
    }
}

/// Disables the pool of this name, or enables it.
pub(crate) fn disable(table: PoolTable, name: &Text, disabled: bool) -> Result<Change, AllocError>
    ensures { IfOk result (λ change. changed_to change ≡ disable_changed table name.now disabled) }
{
    let mut table = table;
    match table.set_disabled(name.as_str(), disabled) {
        Ok(()) => Ok(Change::Becomes(Record::Pools(table))),
        Err(NoSuchPool) => Ok(Change::Refuses(6, name.clone()?)),
    }
}
