ghost use Rattle.std.specs.Prelude.{◌≡◌, ◌⊎◌, ℕ, ◌+◌, ◌<◌, ◌≤◌, ◌^◌, ◌↔◌, ◌++◌, [], length, take, drop, slice_index_or, All, OnOk, OnErr, IsSome, Err, Some, None};
ghost use Rattle.std.specs.Global.{Vec};
ghost use Rattle.std.specs.Option.{option_copied};
ghost use Rattle.std.specs.Vec.{vec_len, vec_capacity};
ghost use Rattle.ipam_records.specs.Datastore.{row_key, row_of, with_row, without_row};
ghost use Rattle.ipam_records.specs.KeyRef.{owned_key};
ghost use Rattle.ipam_records.specs.Pages.{rows_of_pages};
ghost use Rattle.ipam_records.specs.declared.record.Record.{Record};
ghost use Rattle.ipam_store.specs.Places.{Ascend, AllBefore, AllBehind, begins_by};
ghost use Rattle.ipam_store.specs.Page.{IsPage, IsRoomy, IsReady, IsPageFor, AreFilledBut};

use crate::rows;
use crate::store::LoadFault;
use ipam_records::{KeyRef, Record};
use std::alloc::{AllocError, Global};
use std::marker::Model;

/// How many rows a page has at most.
pub const PAGE_ROWS: usize = 128;

/// Where a full page is split.
const HALF: usize = 64;

/// Rows in the order of their keys. They stand in pages, so that few of them move when one is put
/// in.
pub(crate) struct Pages {
    pages: Vec<Vec<(u64, Record)>>,
    /// An empty page for the next split.
    ready: Option<Vec<(u64, Record)>>,
    count: usize,
}

impl Drop for Pages {
    fn drop(self) {
        let Pages {
            pages: _,
            ready: _,
            count: _,
        } = self;
    }
}

impl Model for Pages {
    ghost use Rattle.ipam_store.specs.Shelved.{Shelved};

    ghost Value = { Shelved };

    ghost use Rattle.std.specs.Coded.{codes};
    ghost use Rattle.ipam_records.specs.contracts.record.Record as kept;

    ghost coded = { Prim.hlevel (codes, kept.the_row.coded) };

    ghost use Rattle.ipam_store.specs.Paged.{shelved_in, is_paged_in};

    ghost view = { shelved_in };

    ghost invariant = { is_paged_in };
}

impl Pages {
    pub(crate) fn new(alloc: Global) -> Pages
        ensures rows { result.rows ≡ [] }
        ensures spare { result.spare ≡ 0 }
    {
        Pages {
            pages: Vec::new(alloc),
            ready: None,
            count: 0,
        }
    }

    pub(crate) fn len(&self) -> usize
        ensures { result ≡ length self.now.rows }
    {
        self.count
    }

    pub(crate) fn pages(&self) -> &[Vec<(u64, Record)>]
        ensures rows { rows_of_pages result.now ≡ self.now.rows }
        ensures filled { All IsPage result.now }
    {
        &self.pages
    }

    /// The row of the key, if there is one.
    pub(crate) fn find(&self, key: &KeyRef<'_>) -> Option<&(u64, Record)>
        requires { Ascend self.now.rows }
        ensures { option_copied result ≡ row_of (owned_key key.now) self.now.rows }
    {
        if self.pages.is_empty() {
            return None;
        }
        let page = &self.pages[page_for(&self.pages, key)];
        rows::find(page, key)
    }

    /// Makes sure that one more row takes no memory. On `Err` the rows are as they were.
    pub(crate) fn reserve(&mut self) -> Result<(), AllocError>
        ensures rows { self.new.rows ≡ self.old.rows }
        ensures spare { OnOk result (1 ≤ self.new.spare) }
        ensures kept { self.old.spare ≤ self.new.spare }
    {
        self.pages.reserve(1)?;
        if self.ready.is_none() {
            self.ready = Some(Vec::with_capacity(*self.pages.allocator(), PAGE_ROWS)?);
        }
        Ok(())
    }

    /// Puts in a row whose key is not there. On `Err` the rows are as they were.
    pub(crate) fn add(&mut self, row: (u64, Record)) -> Result<(), LoadFault>
        requires ascend { Ascend self.old.rows }
        requires few { length self.old.rows < 2 ^ 32 }
        ensures ok { OnOk result (self.new.rows ≡ with_row row self.old.rows) }
        ensures grown { OnOk result (length self.new.rows ≡ length self.old.rows + 1) }
        ensures err { OnErr result (self.new.rows ≡ self.old.rows) }
        ensures there { (result ≡ Err LoadFault.There) ↔ IsSome (row_of (row_key row) self.old.rows) }
        ensures spare { self.old.spare ≤ self.new.spare + 1 }
        ensures kept { OnErr result (self.old.spare ≤ self.new.spare) }
    {
        if self.find(&KeyRef::of_record(&row.1)).is_some() {
            return Err(LoadFault::There);
        }
        if self.reserve().is_err() {
            return Err(LoadFault::Memory);
        }
        self.put(row);
        Ok(())
    }

    /// Puts in a row, in place of the one of its key if there is one. Takes no memory.
    pub(crate) fn put(&mut self, row: (u64, Record))
        requires ascend { Ascend self.old.rows }
        requires few { length self.old.rows < 2 ^ 32 }
        requires spare { 1 ≤ self.old.spare }
        ensures rows { self.new.rows ≡ with_row row self.old.rows }
        ensures replaced { IsSome (row_of (row_key row) self.old.rows) → length self.new.rows ≡ length self.old.rows }
        ensures added { row_of (row_key row) self.old.rows ≡ None → length self.new.rows ≡ length self.old.rows + 1 }
        ensures spare { self.old.spare ≤ self.new.spare + 1 }
    {
        let at = page_to_put(&mut self.pages, &mut self.ready, &KeyRef::of_record(&row.1));
        let page = &mut self.pages[at];
        let before = page.len();
        rows::put(page, row);
        let after = page.len();
        self.count += after - before;
    }

    /// Takes out the row of the key, if there is one.
    pub(crate) fn remove(&mut self, key: &KeyRef<'_>)
        requires { Ascend self.old.rows }
        ensures rows { self.new.rows ≡ without_row (owned_key key.now) self.old.rows }
        ensures fewer { length self.new.rows ≤ length self.old.rows }
        ensures spare { self.old.spare ≤ self.new.spare }
    {
        if self.pages.is_empty() {
            return;
        }
        let at = page_for(&self.pages, key);
        let page = &mut self.pages[at];
        let before = page.len();
        rows::remove(page, key);
        let after = page.len();
        self.count -= before - after;
        drop_if_empty(&mut self.pages, at);
    }
}

/// The page in which the row of the key is, or would go.
fn page_for(pages: &[Vec<(u64, Record)>], key: &KeyRef<'_>) -> usize
    requires some { 0 < length pages.now }
    requires ascend { Ascend (rows_of_pages pages.now) }
    requires filled { All IsPage pages.now }
    ensures { IsPageFor pages.now (owned_key key.now) result }
{
    let after = pages.partition_point(|page| begins_by_key(page, key));
    if after == 0 {
        return 0;
    }
    after - 1
}

/// Whether the first row stands before the key or has it.
fn begins_by_key(page: &Vec<(u64, Record)>, key: &KeyRef<'_>) -> bool
    ensures { result ≡ begins_by (owned_key key.now) page.now.items }
{
    match page.first() {
        Some(row) => KeyRef::of_record(&row.1).compare(key).is_le(),
        None => true,
    }
}

/// The page in which the row of the key is, or else one with room for it, which is made where
/// there is none. Takes no memory.
fn page_to_put(
    pages: &mut Vec<Vec<(u64, Record)>>,
    ready: &mut Option<Vec<(u64, Record)>>,
    key: &KeyRef<'_>,
) -> usize
    requires ascend { Ascend (rows_of_pages pages.old.items) }
    requires filled { All IsPage pages.old.items }
    requires roomy { All IsRoomy pages.old.items }
    requires ready { IsReady ready.old }
    requires some { IsSome ready.old }
    requires room { vec_len pages.old < vec_capacity pages.old }
    ensures rows { rows_of_pages pages.new.items ≡ rows_of_pages pages.old.items }
    ensures filled { AreFilledBut pages.new.items result }
    ensures roomy { All IsRoomy pages.new.items }
    ensures ready { IsReady ready.new }
    ensures page { IsPageFor pages.new.items (owned_key key.now) result }
    ensures has_room { (page : Vec (ℕ × Record)) → row_of (owned_key key.now) (slice_index_or pages.new.items result page).items ≡ None → length (slice_index_or pages.new.items result page).items < PAGE_ROWS }
    ensures few { (page : Vec (ℕ × Record)) → length (slice_index_or pages.new.items result page).items ≤ PAGE_ROWS }
{
    if pages.is_empty() {
        open_page(pages, ready);
        return 0;
    }
    let at = page_for(pages, key);
    if pages[at].len() < PAGE_ROWS || rows::find(&pages[at], key).is_some() {
        return at;
    }
    split(pages, ready, at);
    half_for(pages, at, key)
}

/// The one of two neighbouring pages, of which the first is at this place, that the key is for.
fn half_for(pages: &[Vec<(u64, Record)>], at: usize, key: &KeyRef<'_>) -> usize
    requires within { at + 1 < length pages.now }
    requires ascend { Ascend (rows_of_pages pages.now) }
    requires filled { All IsPage pages.now }
    requires before { AllBefore (owned_key key.now) (rows_of_pages (take at pages.now)) }
    requires behind { AllBehind (owned_key key.now) (rows_of_pages (drop (at + 2) pages.now)) }
    ensures page { IsPageFor pages.now (owned_key key.now) result }
    ensures one { (result ≡ at) ⊎ (result ≡ at + 1) }
{
    if begins_by_key(&pages[at + 1], key) {
        at + 1
    } else {
        at
    }
}

/// Takes the page out where it has no row.
fn drop_if_empty(pages: &mut Vec<Vec<(u64, Record)>>, at: usize)
    requires within { at < vec_len pages.old }
    requires filled { AreFilledBut pages.old.items at }
    requires few { (d : Vec (ℕ × Record)) → length (slice_index_or pages.old.items at d).items ≤ PAGE_ROWS }
    requires roomy { All IsRoomy pages.old.items }
    ensures rows { rows_of_pages pages.new.items ≡ rows_of_pages pages.old.items }
    ensures filled { All IsPage pages.new.items }
    ensures roomy { All IsRoomy pages.new.items }
    ensures fewer { vec_len pages.new ≤ vec_len pages.old }
    ensures capacity { vec_capacity pages.new ≡ vec_capacity pages.old }
{
    if pages[at].is_empty() {
        pages.remove(at);
    }
}

/// Makes the page that is held ready the last one.
fn open_page(pages: &mut Vec<Vec<(u64, Record)>>, ready: &mut Option<Vec<(u64, Record)>>)
    requires ready { IsReady ready.old }
    requires some { IsSome ready.old }
    requires none { vec_len pages.old ≡ 0 }
    requires room { vec_len pages.old < vec_capacity pages.old }
    ensures one { length pages.new.items ≡ 1 }
    ensures empty { (d : Vec (ℕ × Record)) → (slice_index_or pages.new.items 0 d).items ≡ [] }
    ensures roomy { All IsRoomy pages.new.items }
    ensures ready { ready.new ≡ None }
{
    if let Some(page) = ready.take() {
        pages.push_reserved(page);
    }
}

/// Splits a full page into halves, the second of which is the page that is held ready.
fn split(pages: &mut Vec<Vec<(u64, Record)>>, ready: &mut Option<Vec<(u64, Record)>>, at: usize)
    requires within { at < vec_len pages.old }
    requires full { (d : Vec (ℕ × Record)) → length (slice_index_or pages.old.items at d).items ≡ PAGE_ROWS }
    requires filled { All IsPage pages.old.items }
    requires roomy { All IsRoomy pages.old.items }
    requires ready { IsReady ready.old }
    requires some { IsSome ready.old }
    requires room { vec_len pages.old < vec_capacity pages.old }
    ensures rows { rows_of_pages pages.new.items ≡ rows_of_pages pages.old.items }
    ensures filled { All IsPage pages.new.items }
    ensures one_more { length pages.new.items ≡ length pages.old.items + 1 }
    ensures before { rows_of_pages (take at pages.new.items) ≡ rows_of_pages (take at pages.old.items) }
    ensures behind { rows_of_pages (drop (at + 2) pages.new.items) ≡ rows_of_pages (drop (at + 1) pages.old.items) }
    ensures first { (d : Vec (ℕ × Record)) → length (slice_index_or pages.new.items at d).items < PAGE_ROWS }
    ensures second { (d : Vec (ℕ × Record)) → length (slice_index_or pages.new.items (at + 1) d).items < PAGE_ROWS }
    ensures roomy { All IsRoomy pages.new.items }
    ensures ready { ready.new ≡ None }
{
    if let Some(mut half) = ready.take() {
        move_half(&mut pages[at], &mut half);
        if pages.insert(at + 1, half).is_err() {
            unreachable!()
        }
    }
}

/// Moves the rows of a full page from its middle on into an empty one.
fn move_half(page: &mut Vec<(u64, Record)>, half: &mut Vec<(u64, Record)>)
    requires full { length page.old.items ≡ PAGE_ROWS }
    requires empty { IsReady (Some half.old) }
    requires roomy { IsRoomy page.old }
    ensures rows { page.new.items ++ half.new.items ≡ page.old.items }
    ensures first { length page.new.items ≡ HALF }
    ensures second { length half.new.items ≡ HALF }
    ensures roomy { IsRoomy page.new × IsRoomy half.new }
{
    while page.len() > HALF {
        half.push_reserved(page.take_last());
    }
    half.reverse();
}
