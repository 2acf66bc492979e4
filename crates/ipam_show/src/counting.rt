//! The addresses of each block, counted.
ghost use Rattle.std.specs.Prelude.{◌≡◌, ◌<◌, ◌≤◌, ◌^◌, ◌++◌, length, IfOk, OnOk};
ghost use Rattle.std.specs.Option.{option_copied};
ghost use Rattle.ipam_pool.specs.Spans.{is_reserved_by};
ghost use Rattle.ipam_records.specs.Datastore.{most_blocks};
ghost use Rattle.ipam_records.specs.Pages.{rows_of_pages};
ghost use Rattle.ipam_model.specs.Pairs.{value_of};
ghost use Rattle.ipam_show.specs.Counts.{borrowed_in, borrows, block_count, block_count_in, counts_in, counts_kept, free_in, told_in};
ghost use Rattle.ipam_show.specs.Kept.{blocks_kept};

use crate::keeping::{block_pages, reservations_kept};
use ipam_addr::{Cidr, Spared};
use ipam_block::{Allocation, Attributes, Block};
use ipam_pool::Reserved;
use ipam_records::Record;
use ipam_store::Store;
use ipam_text::Text;
use std::alloc::{AllocError, Global};

/// One block: where it is, and how many of its addresses are used, free and borrowed.
pub struct BlockCount {
    /// The addresses of the block.
    pub cidr: Cidr,
    /// The node that it is affine to, if any.
    pub node: Option<Text>,
    /// How many addresses it has, at most 4,096.
    pub size: u16,
    /// How many of them are assigned.
    pub used: u16,
    /// How many of them could still be given: neither assigned nor reserved.
    pub free: u16,
    /// How many of those assigned are recorded with a node.
    pub told: u16,
    /// How many of those assigned are recorded with a node that is not the block's.
    pub borrowed: u16,
}

impl Drop for BlockCount {
    fn drop(self) {
        let BlockCount {
            cidr: _,
            node: _,
            size: _,
            used: _,
            free: _,
            told: _,
            borrowed: _,
        } = self;
    }
}

/// Each block, counted, by family, base and prefix.
pub fn counts_kept(alloc: Global, store: &Store) -> Result<Vec<BlockCount>, AllocError>
    requires few { length (blocks_kept store.now.store) ≤ most_blocks }
    ensures counts { IfOk result (λ counts. counts.items ≡ counts_kept store.now.store) }
    ensures few { IfOk result (λ counts. length counts.items < 2 ^ 32) }
{
    let reserved = Reserved::of(alloc, reservations_kept(store))?;
    counts_in_pages(alloc, &reserved, block_pages(store))
}

fn counts_in_pages(
    alloc: Global,
    reserved: &Reserved,
    pages: &[Vec<(u64, Record)>],
) -> Result<Vec<BlockCount>, AllocError>
    ensures { IfOk result (λ counts. counts.items ≡ counts_in (is_reserved_by reserved.now) (rows_of_pages pages.now)) }
{
    let mut counts = Vec::new(alloc);
    for page in pages {
        add_counts(alloc, &mut counts, reserved, page)?;
    }
    Ok(counts)
}

fn add_counts(
    alloc: Global,
    counts: &mut Vec<BlockCount>,
    reserved: &Reserved,
    rows: &[(u64, Record)],
) -> Result<(), AllocError>
    ensures { OnOk result (counts.new.items ≡ counts.old.items ++ counts_in (is_reserved_by reserved.now) rows.now) }
{
    for row in rows {
        if let Some(count) = count_of(alloc, reserved, &row.1)? {
            counts.push(count)?;
        }
    }
    Ok(())
}

fn count_of(
    alloc: Global,
    reserved: &Reserved,
    kept: &Record,
) -> Result<Option<BlockCount>, AllocError>
    ensures { IfOk result (λ count. count ≡ block_count_in (is_reserved_by reserved.now) kept.now) }
{
    match kept {
        Record::Block(block) => Ok(Some(block_count(alloc, reserved, block)?)),
        _ => Ok(None),
    }
}

fn block_count(alloc: Global, reserved: &Reserved, block: &Block) -> Result<BlockCount, AllocError>
    ensures { IfOk result (λ count. count ≡ block_count (is_reserved_by reserved.now) block.now) }
{
    let node = copied_node(alloc, block)?;
    Ok(BlockCount {
        cidr: block.cidr(),
        node,
        size: block.count(),
        used: used_in(block),
        free: free_in(reserved, block),
        told: told_in(block),
        borrowed: borrowed_in(block),
    })
}

/// The block's node as a text of its own.
pub(crate) fn copied_node(alloc: Global, block: &Block) -> Result<Option<Text>, AllocError>
    ensures { IfOk result (λ node. node ≡ block.now.node) }
{
    match block.node() {
        Some(name) => Ok(Some(Text::copied(alloc, name)?)),
        None => Ok(None),
    }
}

/// How many addresses are assigned.
fn used_in(block: &Block) -> u16
    ensures { result ≡ length block.now.allocations }
{
    // A block whose CIDR is read is known to be sound.
    let _cidr = block.cidr();
    block.allocations().len() as u16
}

/// How many addresses are neither assigned nor reserved.
fn free_in(reserved: &Reserved, block: &Block) -> u16
    ensures { result ≡ free_in (is_reserved_by reserved.now) block.now }
{
    let _cidr = block.cidr();
    let queue = block.queue();
    let mut count = 0u16;
    for place in 0..queue.len() {
        if !reserved.is_reserved(block.address(queue[place])) {
            count += 1;
        }
    }
    count
}

/// How many assigned addresses are recorded with a node.
fn told_in(block: &Block) -> u16
    ensures { result ≡ told_in block.now }
{
    let _cidr = block.cidr();
    let mut count = 0u16;
    for allocation in block.allocations() {
        if recorded(allocation.attributes.get(), "node").is_some() {
            count += 1;
        }
    }
    count
}

/// How many assigned addresses are recorded with a node that is not the block's.
fn borrowed_in(block: &Block) -> u16
    ensures { result ≡ borrowed_in block.now }
{
    let _cidr = block.cidr();
    let mut count = 0u16;
    for allocation in block.allocations() {
        if borrows(block, allocation) {
            count += 1;
        }
    }
    count
}

/// Whether the assignment is recorded with a node that is not the block's.
pub(crate) fn borrows(block: &Block, allocation: &Allocation) -> bool
    ensures { result ≡ borrows block.now.node allocation.now }
{
    match recorded(allocation.attributes.get(), "node") {
        Some(node) => block.node() != Some(node),
        None => false,
    }
}

/// What an assignment is recorded with under the key, if anything.
pub(crate) fn recorded<'a>(attributes: &'a Attributes, key: &str) -> Option<&'a str>
    ensures { option_copied result ≡ value_of key.now attributes.now.secondary }
{
    for pair in attributes.secondary.as_slice() {
        if pair.0.as_str() == key {
            return Some(pair.1.as_str());
        }
    }
    None
}
