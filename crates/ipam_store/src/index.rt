ghost use Rattle.std.specs.Prelude.{◌≡◌, ℕ, ◌+◌, ◌≤◌, List, [], length, is_none, bytes_eq, OnOk, if◌then◌else◌};
ghost use Rattle.std.specs.Option.{ForSome};
ghost use Rattle.ipam_records.specs.BlockLists.{is_node, has_queue, named_lists, list_under, AreNamedLists};
ghost use Rattle.ipam_store.specs.CidrLists.{with_cidr, without_cidr};

use crate::cidrs;
use crate::nodes::NodeLists;
use ipam_addr::{Cidr, MOST_NAME_BYTES};
use ipam_block::Block;
use std::alloc::{AllocError, Global};
use std::marker::Model;

/// The lists of blocks that are kept beside their rows, each by family, base and prefix.
pub(crate) struct BlockIndex {
    owned: NodeLists,
    unowned: Vec<Cidr>,
    roomy: Vec<Cidr>,
}

impl Drop for BlockIndex {
    fn drop(self) {
        let BlockIndex {
            owned: _,
            unowned: _,
            roomy: _,
        } = self;
    }
}

impl Model for BlockIndex {
    ghost use Rattle.ipam_store.specs.Indexed.{Indexed};

    ghost Value = { Indexed };

    ghost use Rattle.ipam_store.specs.Index.{indexed_in, AreAscending};

    ghost view = { indexed_in };

    ghost invariant = { AreAscending };
}

impl BlockIndex {
    pub(crate) fn new(alloc: Global) -> BlockIndex
        ensures owned { result.owned ≡ [] }
        ensures unowned { result.unowned ≡ [] }
        ensures roomy { result.roomy ≡ [] }
        ensures spare { result.spare ≡ 0 }
    {
        BlockIndex {
            owned: NodeLists::new(alloc),
            unowned: Vec::new(alloc),
            roomy: Vec::new(alloc),
        }
    }

    /// The blocks of each node that has one, under the bytes of its name.
    pub(crate) fn owned(&self) -> &[(Vec<u8>, Vec<Cidr>)]
        ensures lists { named_lists result.now ≡ self.now.owned }
        ensures named { AreNamedLists (named_lists result.now) }
    {
        self.owned.lists()
    }

    /// The blocks without a node.
    pub(crate) fn unowned(&self) -> &[Cidr]
        ensures { result.now ≡ self.now.unowned }
    {
        &self.unowned
    }

    /// The blocks with a free address.
    pub(crate) fn roomy(&self) -> &[Cidr]
        ensures { result.now ≡ self.now.roomy }
    {
        &self.roomy
    }

    /// Makes sure that one more block takes no memory. On `Err` the lists are as they were.
    pub(crate) fn reserve(&mut self) -> Result<(), AllocError>
        ensures owned { self.new.owned ≡ self.old.owned }
        ensures unowned { self.new.unowned ≡ self.old.unowned }
        ensures roomy { self.new.roomy ≡ self.old.roomy }
        ensures spare { OnOk result (1 ≤ self.new.spare) }
        ensures kept { self.old.spare ≤ self.new.spare }
    {
        self.owned.reserve()?;
        self.unowned.reserve(1)?;
        self.roomy.reserve(1)
    }

    /// Puts a block into its lists. Takes no memory.
    pub(crate) fn insert(&mut self, block: &Block)
        requires short { ForSome block.now.node (λ node. length node ≤ MOST_NAME_BYTES) }
        requires spare { 1 ≤ self.old.spare }
        ensures owned { (node : List ℕ) → list_under node self.new.owned ≡ (if is_node node block.now.node then with_cidr block.now.cidr (list_under node self.old.owned) else list_under node self.old.owned) }
        ensures unowned { self.new.unowned ≡ (if is_none block.now.node then with_cidr block.now.cidr self.old.unowned else self.old.unowned) }
        ensures roomy { self.new.roomy ≡ (if has_queue block.now.queue then with_cidr block.now.cidr self.old.roomy else self.old.roomy) }
        ensures spare { self.old.spare ≤ self.new.spare + 1 }
    {
        let cidr = block.cidr();
        match block.node() {
            Some(node) => self.owned.insert(node, cidr),
            None => cidrs::insert(&mut self.unowned, cidr),
        }
        if !block.queue().is_empty() {
            cidrs::insert(&mut self.roomy, cidr);
        }
    }

    /// Takes a block out of its lists.
    pub(crate) fn remove(&mut self, block: &Block)
        ensures owned { (node : List ℕ) → list_under node self.new.owned ≡ (if is_node node block.now.node then without_cidr block.now.cidr (list_under node self.old.owned) else list_under node self.old.owned) }
        ensures unowned { self.new.unowned ≡ (if is_none block.now.node then without_cidr block.now.cidr self.old.unowned else self.old.unowned) }
        ensures roomy { self.new.roomy ≡ (if has_queue block.now.queue then without_cidr block.now.cidr self.old.roomy else self.old.roomy) }
        ensures spare { self.old.spare ≤ self.new.spare }
    {
        let cidr = block.cidr();
        match block.node() {
            Some(node) => self.owned.remove(node, cidr),
            None => cidrs::remove(&mut self.unowned, cidr),
        }
        if !block.queue().is_empty() {
            cidrs::remove(&mut self.roomy, cidr);
        }
    }
}
