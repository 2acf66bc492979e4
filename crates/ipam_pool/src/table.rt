ghost use Rattle.std.specs.Prelude.{◌≡◌, ℕ, ◌≤◌, ◌↔◌, [], ◌∷◌, ◌++◌, Any, All, IsTrue, IsNone, IsOkUnless, IfSome, OnOk, OnErr, is_err, not, position};
ghost use Rattle.std.specs.List.{list_any};
ghost use Rattle.ipam_addr.specs.Width.{IsCidr};
ghost use Rattle.ipam_addr.specs.Holding.{Holds};
ghost use Rattle.ipam_pool.specs.Changes.{refusal_of, has_name, overlap_place, is_size_allowed, with_disabled, with_rules};
ghost use Rattle.ipam_pool.specs.Slots.{is_slot_of, IsSlotOf, LiesInSlot, AtMostOneSlot};

use crate::pools::{Mode, NoSuchPool, Pool, PoolRefusal};
use ipam_addr::{Addr, Cidr, allows_size, slot_number};
use ipam_select::NodeSelector;
use std::alloc::{AllocError, Global};
use std::marker::Model;

/// The most pools of a table.
pub const MOST_POOLS: usize = 64;

/// Pools with names of their own that share no address, in the order in which they were added.
pub struct PoolTable {
    pools: Vec<Pool>,
}

impl Drop for PoolTable {
    fn drop(self) {
        let PoolTable { pools: _ } = self;
    }
}

impl Model for PoolTable {
    ghost use Rattle.std.specs.Prelude.{List};
    ghost use Rattle.ipam_pool.specs.declared.pools.Pool.{Pool};

    ghost Value = { List Pool };

    ghost use Rattle.std.specs.Coded.{codes};
    ghost use Rattle.ipam_select.specs.contracts.node_selector.NodeSelector as selector;

    ghost coded = { Prim.hlevel (codes, selector.the_row.coded) };

    ghost use Rattle.ipam_pool.specs.Sound.{IsPoolTable};

    ghost view = { λ t. t.pools.items };

    ghost invariant = { λ t. IsPoolTable t.pools.items };
}

impl PoolTable {
    ghost use Rattle.ipam_pool.specs.Sound.{IsPoolTable};

    /// A table with no pools, which takes no memory.
    pub fn new(alloc: Global) -> PoolTable
        ensures { result ≡ [] }
    {
        PoolTable {
            pools: Vec::new(alloc),
        }
    }

    /// The pools, in the order in which they were added.
    pub fn pools(&self) -> &[Pool]
        ensures value { result.now ≡ self.now }
        ensures sound { IsPoolTable self.now }
    {
        self.pools.as_slice()
    }

    /// Adds the pool after the others, unless it is refused.
    pub fn add(&mut self, pool: Pool) -> Result<(), PoolRefusal>
        ensures refused { IfSome (refusal_of self.old pool) (λ refusal. result ≡ Err refusal) }
        ensures accepted { IsNone (refusal_of self.old pool) → IsOkUnless result PoolRefusal.Memory }
        ensures ok { OnOk result (self.new ≡ self.old ++ pool ∷ []) }
        ensures err { OnErr result (self.new ≡ self.old) }
    {
        if let Some(refusal) = refusal_of(self.pools.as_slice(), &pool) {
            return Err(refusal);
        }
        match self.pools.push(pool) {
            Ok(()) => Ok(()),
            Err(_) => Err(PoolRefusal::Memory),
        }
    }

    /// Disables the pool of this name, or enables it. Takes no memory.
    pub fn set_disabled(&mut self, name: &str, disabled: bool) -> Result<(), NoSuchPool>
        ensures missing { is_err result ≡ not (list_any (has_name name.now) self.old) }
        ensures ok { OnOk result (self.new ≡ with_disabled name.now disabled self.old) }
        ensures err { OnErr result (self.new ≡ self.old) }
    {
        match named_place(self.pools.as_slice(), name) {
            Some(place) => {
                self.pools[place].disabled = disabled;
                Ok(())
            }
            None => Err(NoSuchPool),
        }
    }

    /// Sets whether the pool of this name is disabled, its mode and its selector. Takes no memory.
    pub fn set(
        &mut self,
        name: &str,
        disabled: bool,
        mode: Mode,
        selector: NodeSelector,
    ) -> Result<(), NoSuchPool>
        ensures missing { is_err result ≡ not (list_any (has_name name.now) self.old) }
        ensures ok { OnOk result (self.new ≡ with_rules name.now disabled mode selector self.old) }
        ensures err { OnErr result (self.new ≡ self.old) }
    {
        match named_place(self.pools.as_slice(), name) {
            Some(place) => {
                self.pools[place].set_rules(disabled, mode, selector);
                Ok(())
            }
            None => Err(NoSuchPool),
        }
    }

    /// The place of the pool that holds the address, and the number of its slot that does.
    pub fn slot_of(&self, addr: Addr) -> Option<(usize, u128)>
        ensures slot { IfSome result (LiesInSlot self.now addr) }
        ensures outside { IsNone result ↔ All (λ p. ¬ (Holds p.cidr addr)) self.now }
        ensures only { AtMostOneSlot self.now addr }
    {
        for (place, pool) in self.pools.iter().enumerate() {
            if let Some(number) = slot_number(pool.cidr, pool.size, addr) {
                return Some((place, number));
            }
        }
        None
    }

    /// Whether the CIDR is a slot of one of the pools.
    pub fn is_slot(&self, cidr: Cidr) -> bool
        ensures { IsTrue result ↔ Any (λ p. IsSlotOf p cidr) self.now }
    {
        is_slot_of_any(self.pools.as_slice(), cidr)
    }
}

impl Clone for PoolTable {
    ghost is_clone = { λ old new. new ≡ old };

    fn clone(&self) -> Result<PoolTable, AllocError> {
        let pools = self.pools.clone()?;
        Ok(PoolTable { pools })
    }
}

// Why the pool cannot stand after the others, if it cannot.
fn refusal_of(pools: &[Pool], pool: &Pool) -> Option<PoolRefusal>
    ensures value { result ≡ refusal_of pools.now pool.now }
    ensures sound { IsNone result → IsCidr pool.now.cidr }
{
    if is_name_taken(pools, pool.name.as_str()) {
        return Some(PoolRefusal::NameTaken);
    }
    if let Some(place) = overlap_place(pools, pool.cidr) {
        return Some(PoolRefusal::Overlap(place));
    }
    if !is_size_allowed(pool.cidr, pool.size) {
        return Some(PoolRefusal::Size);
    }
    if pool.size < pool.cidr.prefix() {
        return Some(PoolRefusal::Prefix);
    }
    if pools.len() >= MOST_POOLS {
        return Some(PoolRefusal::TooMany);
    }
    None
}

fn is_name_taken(pools: &[Pool], name: &str) -> bool
    ensures { result ≡ list_any (has_name name.now) pools.now }
{
    pools.iter().any(|pool| pool.name.as_str() == name)
}

// The place of the pool of this name.
fn named_place(pools: &[Pool], name: &str) -> Option<usize>
    ensures value { result ≡ position (has_name name.now) pools.now }
{
    pools.iter().position(|pool| pool.name.as_str() == name)
}

// The place of the first pool that shares addresses with the CIDR.
fn overlap_place(pools: &[Pool], cidr: Cidr) -> Option<usize>
    ensures { result ≡ overlap_place pools.now cidr }
{
    pools.iter().position(|pool| pool.cidr.overlaps(&cidr))
}

fn is_size_allowed(cidr: Cidr, size: u8) -> bool
    ensures { result ≡ is_size_allowed cidr.family size }
{
    allows_size(cidr.family(), size)
}

fn is_slot_of_any(pools: &[Pool], cidr: Cidr) -> bool
    ensures value { result ≡ list_any (λ p. is_slot_of p cidr) pools.now }
    ensures sound { IsCidr cidr }
{
    let base = cidr.base();
    pools.iter().any(|pool| pool.size == cidr.prefix() && pool.cidr.contains(base))
}
