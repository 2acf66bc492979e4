//! What the pools are used for, for a program.
ghost use Rattle.std.specs.Prelude.{◌≡◌, ◌<◌, ◌≤◌, ◌^◌, length, map, IfOk};
ghost use Rattle.ipam_records.specs.Datastore.{most_blocks};
ghost use Rattle.ipam_show.specs.Kept.{blocks_kept};
ghost use Rattle.ipam_show.specs.Usage.{pool_usage, pools_usage};

use crate::cells::addresses_cell;
use crate::counting::{BlockCount, counts_kept};
use crate::keeping::pools_kept;
use crate::sums::{Amount, Scope, amount_sum, block_sum};
use ipam_addr::Cidr;
use ipam_pool::Pool;
use ipam_store::Store;
use ipam_text::Text;
use std::alloc::{AllocError, Global};

/// A pool, and what its blocks come to.
pub struct PoolUsage {
    /// The addresses of the pool.
    pub cidr: Cidr,
    /// The pool's name.
    pub name: Text,
    /// Whether no address of it is to be given any more.
    pub disabled: bool,
    /// How many addresses it has, in decimal.
    pub addresses: Text,
    /// How many blocks it has.
    pub blocks: u64,
    /// How many addresses of its blocks are assigned.
    pub used: u64,
    /// How many addresses of its blocks could still be given.
    pub free: u64,
    /// How many addresses of its blocks are reserved and not assigned.
    pub reserved: u64,
}

impl Drop for PoolUsage {
    fn drop(self) {
        let PoolUsage {
            cidr: _,
            name: _,
            disabled: _,
            addresses: _,
            blocks: _,
            used: _,
            free: _,
            reserved: _,
        } = self;
    }
}

/// The pools in the order in which they were added, and what their blocks come to.
pub fn pools_usage(alloc: Global, store: &Store) -> Result<Vec<PoolUsage>, AllocError>
    requires few { length (blocks_kept store.now.store) ≤ most_blocks }
    ensures { IfOk result (λ usage. usage.items ≡ pools_usage store.now.store) }
{
    let counts = counts_kept(alloc, store)?;
    usage_of(alloc, &counts, pools_kept(store))
}

fn usage_of(
    alloc: Global,
    counts: &[BlockCount],
    pools: &[Pool],
) -> Result<Vec<PoolUsage>, AllocError>
    requires { length counts.now < 2 ^ 32 }
    ensures { IfOk result (λ usage. usage.items ≡ map (pool_usage counts.now) pools.now) }
{
    let mut usage = Vec::new(alloc);
    for pool in pools {
        usage.push(pool_usage(alloc, counts, pool)?)?;
    }
    Ok(usage)
}

#[tactic(auto, unfolding(crate::specs::Usage::pool_usage))]
fn pool_usage(alloc: Global, counts: &[BlockCount], pool: &Pool) -> Result<PoolUsage, AllocError>
    requires { length counts.now < 2 ^ 32 }
    ensures { IfOk result (λ usage. usage ≡ pool_usage counts.now pool.now) }
{
    let scope = Scope::Pool(pool.cidr);
    let name = pool.name.clone()?;
    let addresses = addresses_cell(alloc, pool.cidr)?;
    Ok(PoolUsage {
        cidr: pool.cidr,
        name,
        disabled: pool.disabled,
        addresses,
        blocks: block_sum(&scope, counts),
        used: amount_sum(Amount::Used, &scope, counts),
        free: amount_sum(Amount::Free, &scope, counts),
        reserved: amount_sum(Amount::Reserved, &scope, counts),
    })
}
