ghost use Rattle.std.specs.Prelude.{◌≡◌, ◌⊎◌, ℕ, ◌+◌, ◌<◌, ◌≤◌, ◌^◌, ◌↔◌, [], length, All, List, OnOk, OnErr, IsSome, IsTrue, Err, Some, None};
ghost use Rattle.std.specs.Option.{option_copied};
ghost use Rattle.ipam_records.specs.Key.{key_of};
ghost use Rattle.ipam_records.specs.Datastore.{row_key, row_of, with_row, without_row};
ghost use Rattle.ipam_records.specs.KeyRef.{owned_key};
ghost use Rattle.ipam_records.specs.BlockLists.{AreBlocks};
ghost use Rattle.ipam_records.specs.Listing.{rows_of};
ghost use Rattle.ipam_records.specs.Pages.{rows_of_pages};
ghost use Rattle.ipam_records.specs.declared.record.Record.{Record};
ghost use Rattle.ipam_store.specs.Page.{IsPage};
ghost use Rattle.ipam_store.specs.Indexed.{IsIndexOf};
ghost use Rattle.ipam_store.specs.BlockRow.{IsBlockToPut};

use crate::index::BlockIndex;
use crate::pages::Pages;
use crate::store::LoadFault;
use ipam_records::{KeyRef, Listing, Record};
use std::alloc::{AllocError, Global};
use std::marker::Model;

/// The rows of blocks in the order of their keys, and the lists of blocks, which each write brings
/// up to date.
pub(crate) struct Blocks {
    rows: Pages,
    index: BlockIndex,
}

impl Drop for Blocks {
    fn drop(self) {
        let Blocks { rows: _, index: _ } = self;
    }
}

impl Model for Blocks {
    ghost use Rattle.ipam_store.specs.Shelved.{Shelved};

    ghost Value = { Shelved };

    ghost use Rattle.std.specs.Coded.{codes};
    ghost use Rattle.ipam_records.specs.contracts.record.Record as kept;

    ghost coded = { Prim.hlevel (codes, kept.the_row.coded) };

    ghost use Rattle.ipam_store.specs.BlockShelf.{block_rows_in, are_indexed_in};

    ghost view = { block_rows_in };

    ghost invariant = { are_indexed_in };
}

impl Blocks {
    pub(crate) fn new(alloc: Global) -> Blocks
        ensures rows { result.rows ≡ [] }
        ensures spare { result.spare ≡ 0 }
    {
        Blocks {
            rows: Pages::new(alloc),
            index: BlockIndex::new(alloc),
        }
    }

    pub(crate) fn len(&self) -> usize
        ensures { result ≡ length self.now.rows }
    {
        self.rows.len()
    }

    pub(crate) fn pages(&self) -> &[Vec<(u64, Record)>]
        ensures rows { rows_of_pages result.now ≡ self.now.rows }
        ensures filled { All IsPage result.now }
    {
        self.rows.pages()
    }

    /// The rows, with the lists of blocks.
    pub(crate) fn listing(&self) -> Listing<'_>
        requires { length self.now.rows < 2 ^ 32 }
        ensures { rows_of result ≡ self.now.rows }
    {
        let index = &self.index;
        Listing::indexed(
            self.rows.pages(),
            index.owned(),
            index.unowned(),
            index.roomy(),
        )
    }

    /// The row of the key, if there is one.
    pub(crate) fn find(&self, key: &KeyRef<'_>) -> Option<&(u64, Record)>
        ensures { option_copied result ≡ row_of (owned_key key.now) self.now.rows }
    {
        let _ = &self.index;
        self.rows.find(key)
    }

    /// Makes sure that one more row takes no memory. On `Err` the rows are as they were.
    pub(crate) fn reserve(&mut self) -> Result<(), AllocError>
        ensures rows { self.new.rows ≡ self.old.rows }
        ensures spare { OnOk result (1 ≤ self.new.spare) }
        ensures kept { self.old.spare ≤ self.new.spare }
    {
        self.rows.reserve()?;
        self.index.reserve()
    }

    /// Puts in a row whose key is not there. On `Err` the rows are as they were.
    pub(crate) fn add(&mut self, row: (u64, Record)) -> Result<(), LoadFault>
        requires block { IsBlockToPut row.1 }
        requires few { length self.old.rows < 2 ^ 32 }
        ensures ok { OnOk result (self.new.rows ≡ with_row row self.old.rows) }
        ensures grown { OnOk result (length self.new.rows ≡ length self.old.rows + 1) }
        ensures err { OnErr result (self.new.rows ≡ self.old.rows) }
        ensures there { (result ≡ Err LoadFault.There) ↔ IsSome (row_of (row_key row) self.old.rows) }
        ensures spare { self.old.spare ≤ self.new.spare + 1 }
        ensures kept { OnErr result (self.old.spare ≤ self.new.spare) }
    {
        if self.find(&KeyRef::of_record(&row.1)).is_some() {
            return Err(LoadFault::There);
        }
        if self.reserve().is_err() {
            return Err(LoadFault::Memory);
        }
        self.put(row);
        Ok(())
    }

    /// Puts in a row, in place of the one of its key if there is one. Takes no memory.
    pub(crate) fn put(&mut self, row: (u64, Record))
        requires block { IsBlockToPut row.1 }
        requires few { length self.old.rows < 2 ^ 32 }
        requires spare { 1 ≤ self.old.spare }
        ensures rows { self.new.rows ≡ with_row row self.old.rows }
        ensures replaced { IsSome (row_of (row_key row) self.old.rows) → length self.new.rows ≡ length self.old.rows }
        ensures added { row_of (row_key row) self.old.rows ≡ None → length self.new.rows ≡ length self.old.rows + 1 }
        ensures spare { self.old.spare ≤ self.new.spare + 1 }
    {
        forget(&mut self.index, &self.rows, &KeyRef::of_record(&row.1));
        enter(&mut self.index, &row.1);
        self.rows.put(row);
    }

    /// Takes out the row of the key, if there is one.
    pub(crate) fn remove(&mut self, key: &KeyRef<'_>)
        ensures rows { self.new.rows ≡ without_row (owned_key key.now) self.old.rows }
        ensures fewer { length self.new.rows ≤ length self.old.rows }
        ensures spare { self.old.spare ≤ self.new.spare }
    {
        forget(&mut self.index, &self.rows, key);
        self.rows.remove(key);
    }
}

/// Takes the block of the key out of its lists, if it has a row.
fn forget(index: &mut BlockIndex, rows: &Pages, key: &KeyRef<'_>)
    requires blocks { AreBlocks rows.now.rows }
    requires index { IsIndexOf index.old rows.now.rows }
    ensures index { IsIndexOf index.new (without_row (owned_key key.now) rows.now.rows) }
    ensures spare { index.old.spare ≤ index.new.spare }
{
    let Some(row) = rows.find(key) else {
        return;
    };
    if let Record::Block(block) = &row.1 {
        index.remove(block);
    }
}

/// Puts a block that has no row into its lists. Takes no memory.
fn enter(index: &mut BlockIndex, new: &Record)
    requires block { IsBlockToPut new.now }
    requires spare { 1 ≤ index.old.spare }
    ensures index { (revision : ℕ) (rows : List (ℕ × Record)) → AreBlocks rows → row_of (key_of new.now) rows ≡ None → IsIndexOf index.old rows → IsIndexOf index.new (with_row (revision, new.now) rows) }
    ensures spare { index.old.spare ≤ index.new.spare + 1 }
{
    if let Record::Block(block) = new {
        index.insert(block);
    }
}
