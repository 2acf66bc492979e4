//! The counts of a handle that are higher than the addresses that it holds.
ghost use Rattle.std.specs.Prelude.{◌≡◌, IfOk};
ghost use Rattle.std.specs.List.{count_by};
ghost use Rattle.ipam_block.specs.Operations.{is_owned};
ghost use Rattle.ipam_model.specs.CountLaw.{held_count};
ghost use Rattle.ipam_views.specs.HighCounts.{high_among, high_at, high_counts};

use ipam_addr::Cidr;
use ipam_block::Block;
use ipam_records::{Call, Key, Record, Reply};
use ipam_store::Store;
use ipam_text::Text;
use std::alloc::{AllocError, Global};

/// A handle's count of a block that is higher than the addresses which the handle holds there.
#[derive(Clone, Copy)]
pub(crate) struct HighCount {
    /// The addresses of the block.
    pub(crate) block: Cidr,
    /// The count.
    pub(crate) count: u32,
    /// How many addresses of the block the handle holds.
    pub(crate) in_use: u32,
}

/// The counts of the handle that are too high, by the family, base and prefix of their blocks.
pub(crate) fn high_counts(
    alloc: Global,
    store: &Store,
    handle: &str,
) -> Result<Vec<HighCount>, AllocError>
    ensures { IfOk result (λ counts. counts.items ≡ high_counts handle.now store.now.store) }
{
    let call = Call::Get(Key::Handle(Text::copied(alloc, handle)?));
    match store.reply(&call) {
        Reply::Found(_, Record::Handle(found)) => high_among(alloc, store, handle, found.blocks()),
        _ => Ok(Vec::new(alloc)),
    }
}

fn high_among(
    alloc: Global,
    store: &Store,
    handle: &str,
    counts: &[(Cidr, u32)],
) -> Result<Vec<HighCount>, AllocError>
    ensures { IfOk result (λ found. found.items ≡ high_among store.now.store handle.now counts.now) }
{
    let mut found = Vec::new(alloc);
    for entry in counts {
        if let Some(high) = high_at(store, handle, entry.0, entry.1) {
            found.push(high)?;
        }
    }
    Ok(found)
}

/// The count, if it is too high.
fn high_at(store: &Store, handle: &str, block: Cidr, count: u32) -> Option<HighCount>
    ensures { result ≡ high_at store.now.store handle.now (block, count) }
{
    let in_use = held_count(store, handle, block);
    if in_use < count as usize {
        Some(HighCount {
            block,
            count,
            in_use: in_use as u32,
        })
    } else {
        None
    }
}

/// How many addresses of the block the handle holds.
fn held_count(store: &Store, handle: &str, cidr: Cidr) -> usize
    ensures { result ≡ held_count store.now.store handle.now cidr }
{
    match store.reply(&Call::Get(Key::Block(cidr))) {
        Reply::Found(_, Record::Block(block)) => held(block, handle),
        _ => 0,
    }
}

fn held(block: &Block, handle: &str) -> usize
    ensures { result ≡ count_by (is_owned handle.now) block.now.allocations }
{
    block
        .allocations()
        .iter()
        .filter(|allocation| allocation.attributes.get().handle.as_str() == handle)
        .count()
}
