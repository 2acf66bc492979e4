//! The addresses in use.
ghost use Rattle.std.specs.Prelude.{◌≡◌, ◌++◌, IfOk, OnOk};
ghost use Rattle.ipam_records.specs.Pages.{rows_of_pages};
ghost use Rattle.ipam_words.specs.Views.{chosen_by};
ghost use Rattle.ipam_show.specs.InUse.{is_chosen, is_recorded_with, use_at, uses_in, uses_kept, uses_of_block, uses_of_record};

use crate::counting::{borrows, copied_node, recorded};
use crate::keeping::block_pages;
use ipam_addr::{Addr, Cidr};
use ipam_block::{Allocation, Block, SharedAttributes};
use ipam_records::Record;
use ipam_store::Store;
use ipam_text::Text;
use ipam_words::Choice;
use std::alloc::{AllocError, Global};

/// An address in use: its block, the block's node, and what it is recorded to.
pub(crate) struct InUse {
    pub(crate) address: Addr,
    /// The addresses of the block.
    pub(crate) block: Cidr,
    /// The node that the block is affine to, if any.
    pub(crate) block_node: Option<Text>,
    pub(crate) attributes: SharedAttributes,
}

impl Drop for InUse {
    fn drop(self) {
        let InUse {
            address: _,
            block: _,
            block_node: _,
            attributes: _,
        } = self;
    }
}

/// The addresses in use that are chosen, in their order.
pub(crate) fn uses_kept(
    alloc: Global,
    store: &Store,
    chosen: &Choice<'_>,
) -> Result<Vec<InUse>, AllocError>
    ensures { IfOk result (λ uses. uses.items ≡ uses_kept (chosen_by chosen.now) store.now.store) }
{
    uses_in_pages(alloc, block_pages(store), chosen)
}

fn uses_in_pages(
    alloc: Global,
    pages: &[Vec<(u64, Record)>],
    chosen: &Choice<'_>,
) -> Result<Vec<InUse>, AllocError>
    ensures { IfOk result (λ uses. uses.items ≡ uses_in (chosen_by chosen.now) (rows_of_pages pages.now)) }
{
    let mut uses = Vec::new(alloc);
    for page in pages {
        add_of_rows(alloc, &mut uses, page, chosen)?;
    }
    Ok(uses)
}

fn add_of_rows(
    alloc: Global,
    uses: &mut Vec<InUse>,
    rows: &[(u64, Record)],
    chosen: &Choice<'_>,
) -> Result<(), AllocError>
    ensures { OnOk result (uses.new.items ≡ uses.old.items ++ uses_in (chosen_by chosen.now) rows.now) }
{
    for row in rows {
        add_of_record(alloc, uses, &row.1, chosen)?;
    }
    Ok(())
}

fn add_of_record(
    alloc: Global,
    uses: &mut Vec<InUse>,
    kept: &Record,
    chosen: &Choice<'_>,
) -> Result<(), AllocError>
    ensures { OnOk result (uses.new.items ≡ uses.old.items ++ uses_of_record (chosen_by chosen.now) kept.now) }
{
    match kept {
        Record::Block(block) => add_of_block(alloc, uses, block, chosen),
        _ => Ok(()),
    }
}

fn add_of_block(
    alloc: Global,
    uses: &mut Vec<InUse>,
    block: &Block,
    chosen: &Choice<'_>,
) -> Result<(), AllocError>
    ensures { OnOk result (uses.new.items ≡ uses.old.items ++ uses_of_block (chosen_by chosen.now) block.now) }
{
    // A block whose CIDR is read is known to be sound.
    let _cidr = block.cidr();
    for allocation in block.allocations() {
        let address = block.address(allocation.ordinal);
        if let Some(used) = use_at(alloc, address, block, allocation, chosen)? {
            uses.push(used)?;
        }
    }
    Ok(())
}

/// The address of the allocation, where it is one of those that are shown.
fn use_at(
    alloc: Global,
    address: Addr,
    block: &Block,
    allocation: &Allocation,
    chosen: &Choice<'_>,
) -> Result<Option<InUse>, AllocError>
    ensures { IfOk result (λ used. used ≡ use_at (chosen_by chosen.now) address block.now allocation.now) }
{
    if !is_chosen(address, block, allocation, chosen) {
        return Ok(None);
    }
    let block_node = copied_node(alloc, block)?;
    let attributes = allocation.attributes.clone()?;
    Ok(Some(InUse {
        address,
        block: block.cidr(),
        block_node,
        attributes,
    }))
}

fn is_chosen(address: Addr, block: &Block, allocation: &Allocation, chosen: &Choice<'_>) -> bool
    ensures { result ≡ is_chosen (chosen_by chosen.now) address block.now allocation.now }
{
    match chosen {
        Choice::All => true,
        Choice::Within(cidr) => cidr.contains(address),
        Choice::OfNode(node) => is_recorded_with(node, allocation),
        Choice::OfHandle(handle) => allocation.attributes.get().handle.as_str() == *handle,
        Choice::Borrowed => borrows(block, allocation),
        Choice::BorrowedBy(node) => {
            is_recorded_with(node, allocation) && borrows(block, allocation)
        }
    }
}

fn is_recorded_with(node: &str, allocation: &Allocation) -> bool
    ensures { result ≡ is_recorded_with node.now allocation.now }
{
    recorded(allocation.attributes.get(), "node") == Some(node)
}
