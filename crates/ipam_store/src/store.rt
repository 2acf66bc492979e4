ghost use Rattle.std.specs.Prelude.{◌≡◌, ℕ, ◌+◌, ◌≤◌, ◌<◌, ◌^◌, ◌↔◌, [], length, All, IsTrue, IsSome, OnOk, OnErr, Ok, Err, Some, slice_get};
ghost use Rattle.std.specs.Option.{option_copied};

use crate::blocks::Blocks;
use crate::pages::Pages;
use crate::shelf::{Shelf, is_block};
use ipam_records::{
    Call, KeyRef, Kind, LAST_REVISION, Listing, MOST_BLOCKS, MOST_ROWS, Record, Reply, Write,
};
use std::alloc::{AllocError, Global};
use std::marker::Model;

/// Why a row was not loaded.
#[derive(Clone, Copy, Debug, PartialEq, Eq)]
pub enum LoadFault {
    /// Its key has a row already.
    There,
    /// There was no memory for one more row.
    Memory,
}

impl From<AllocError> for LoadFault {
    ghost use Rattle.ipam_store.specs.declared.store.LoadFault.{LoadFault};

    ghost from_gives = { λ _ fault. fault ≡ LoadFault.Memory };

    fn from(_: AllocError) -> LoadFault {
        LoadFault::Memory
    }
}

/// The datastore in memory: rows in the order of their keys, and the revision of the last write.
pub struct Store {
    singles: Pages,
    blocks: Blocks,
    affinities: Pages,
    handles: Pages,
    counter: u64,
}

impl Drop for Store {
    fn drop(self) {
        let Store {
            singles: _,
            blocks: _,
            affinities: _,
            handles: _,
            counter: _,
        } = self;
    }
}

impl Model for Store {
    ghost use Rattle.ipam_store.specs.Shape.{StoreValue};

    ghost Value = { StoreValue };

    ghost use Rattle.std.specs.Coded.{codes};
    ghost use Rattle.ipam_records.specs.contracts.record.Record as kept;

    ghost coded = { Prim.hlevel (codes, kept.the_row.coded) };

    ghost use Rattle.ipam_store.specs.Keeping.{content_in, is_kept_in};

    ghost view = { content_in };

    ghost invariant = { is_kept_in };
}

impl Store {
    ghost use Rattle.ipam_records.specs.Key.{key_of};
    ghost use Rattle.ipam_records.specs.Listing.{rows_of};
    ghost use Rattle.ipam_records.specs.Pages.{rows_of_pages};
    ghost use Rattle.ipam_records.specs.declared.key.Key.{Key};
    ghost use Rattle.ipam_store.specs.Page.{IsPage};
    ghost use Rattle.ipam_records.specs.Said.{said};
    ghost use Rattle.ipam_records.specs.Sound.{IsDatastore, IsRow};
    ghost use Rattle.ipam_records.specs.Datastore.{reply_of, reply_to_get, reply_to_create, reply_to_change, granted, has_room, row_of, rows_of_kind, with_row, without_row, written};
    ghost use Rattle.ipam_records.specs.KeyRef.{owned_key};
    ghost use Rattle.ipam_records.specs.declared.call.Write.TheVariants.{Put, Remove};
    ghost use Rattle.ipam_store.specs.Granted.{IsGranted, IsSoundWrite, HasRoomFor};

    /// A store with no rows, whose last write had this revision. Takes no memory.
    pub fn new(alloc: Global, counter: u64) -> Store
        requires { counter ≤ 2 ^ 62 }
        ensures rows { result.store ≡ record { rows = []; counter = counter } }
        ensures spare { result.spare ≡ 0 }
    {
        Store {
            singles: Pages::new(alloc),
            blocks: Blocks::new(alloc),
            affinities: Pages::new(alloc),
            handles: Pages::new(alloc),
            counter,
        }
    }

    /// The revision of the last write.
    pub fn counter(&self) -> u64
        ensures value { result ≡ self.now.store.counter }
        ensures small { result ≤ 2 ^ 62 }
    {
        self.counter
    }

    /// How many rows there are.
    pub fn rows(&self) -> usize
        ensures { result ≡ length self.now.store.rows }
    {
        self.singles.len() + self.blocks.len() + self.affinities.len() + self.handles.len()
    }

    /// The row of the key, if there is one.
    fn find(&self, key: &KeyRef<'_>) -> Option<&(u64, Record)>
        ensures { option_copied result ≡ row_of (owned_key key.now) self.now.store.rows }
    {
        match Shelf::of(key) {
            Shelf::Singles => self.singles.find(key),
            Shelf::Blocks => self.blocks.find(key),
            Shelf::Affinities => self.affinities.find(key),
            Shelf::Handles => self.handles.find(key),
        }
    }

    /// What the datastore answers to the call. Takes no memory.
    pub fn reply(&self, call: &Call) -> Reply<'_>
        ensures reply { said result ≡ reply_of self.now.store call.now }
        ensures sound { IsDatastore self.now.store }
    {
        let _ = &self.counter;
        match call {
            Call::Get(key) => self.reply_to_get(&KeyRef::of(key)),
            Call::List(kind) => Reply::Listed(self.listed(*kind)),
            Call::Create(new) => self.reply_to_create(&KeyRef::of_record(new)),
            Call::Update(new, revision) => {
                self.reply_to_change(&KeyRef::of_record(new), *revision)
            }
            Call::Delete(key, revision) => self.reply_to_change(&KeyRef::of(key), *revision),
        }
    }

    fn reply_to_get(&self, key: &KeyRef<'_>) -> Reply<'_>
        ensures { said result ≡ reply_to_get (row_of (owned_key key.now) self.now.store.rows) }
    {
        match self.find(key) {
            Some(row) => Reply::Found(row.0, &row.1),
            None => Reply::Missing,
        }
    }

    fn reply_to_create(&self, key: &KeyRef<'_>) -> Reply<'_>
        ensures { said result ≡ reply_to_create self.now.store (owned_key key.now) (row_of (owned_key key.now) self.now.store.rows) }
    {
        match self.find(key) {
            Some(row) => Reply::Exists(row.0),
            None => {
                if self.has_room(key) {
                    self.granted()
                } else {
                    Reply::Full
                }
            }
        }
    }

    fn reply_to_change(&self, key: &KeyRef<'_>, revision: u64) -> Reply<'_>
        ensures { said result ≡ reply_to_change self.now.store revision (row_of (owned_key key.now) self.now.store.rows) }
    {
        match self.find(key) {
            Some(row) => {
                if row.0 == revision {
                    self.granted()
                } else {
                    Reply::Conflict(row.0)
                }
            }
            None => Reply::Missing,
        }
    }

    /// The answer to a write that nothing but the revisions can refuse.
    fn granted(&self) -> Reply<'_>
        ensures { said result ≡ granted self.now.store }
    {
        if self.counter < LAST_REVISION {
            Reply::Can(self.counter + 1)
        } else {
            Reply::Spent
        }
    }

    /// Whether one more row with this key is allowed.
    fn has_room(&self, key: &KeyRef<'_>) -> bool
        ensures { result ≡ has_room self.now.store (owned_key key.now) }
    {
        self.rows() < MOST_ROWS && (!is_block(key) || self.blocks.len() < MOST_BLOCKS)
    }

    /// The rows of the kind in the order of their keys, as they are kept: page after page, each of
    /// them with 1 to `PAGE_ROWS` rows.
    pub fn pages(&self, kind: Kind) -> &[Vec<(u64, Record)>]
        ensures rows { rows_of_pages result.now ≡ rows_of_kind kind self.now.store }
        ensures filled { All IsPage result.now }
    {
        match kind {
            Kind::Block => self.blocks.pages(),
            Kind::Affinity => self.affinities.pages(),
            Kind::Handle => self.handles.pages(),
        }
    }

    /// The rows of the kind, in the order of their keys.
    fn listed(&self, kind: Kind) -> Listing<'_>
        ensures { rows_of result ≡ rows_of_kind kind self.now.store }
    {
        match kind {
            Kind::Block => self.blocks.listing(),
            Kind::Affinity => Listing::over(self.affinities.pages()),
            Kind::Handle => Listing::over(self.handles.pages()),
        }
    }

    /// Takes a row that was kept elsewhere. On `Err` nothing has changed.
    pub fn load(&mut self, revision: u64, value: Record) -> Result<(), LoadFault>
        requires sound { IsRow self.old.store.counter (revision, value) }
        requires room { HasRoomFor self.old.store value }
        ensures ok { OnOk result (self.new.store ≡ record self.old.store { rows = with_row (revision, value) self.old.store.rows }) }
        ensures err { OnErr result (self.new.store ≡ self.old.store) }
        ensures there { (result ≡ Err LoadFault.There) ↔ IsSome (row_of (key_of value) self.old.store.rows) }
        ensures spare { self.old.spare ≤ self.new.spare + 1 }
        ensures kept { OnErr result (self.old.spare ≤ self.new.spare) }
    {
        let shelf = Shelf::of(&KeyRef::of_record(&value));
        match shelf {
            Shelf::Singles => self.singles.add((revision, value)),
            Shelf::Blocks => self.blocks.add((revision, value)),
            Shelf::Affinities => self.affinities.add((revision, value)),
            Shelf::Handles => self.handles.add((revision, value)),
        }
    }

    /// Makes sure that one more write takes no memory. On `Err` the rows are as they were.
    pub fn reserve(&mut self) -> Result<(), AllocError>
        ensures store { self.new.store ≡ self.old.store }
        ensures spare { OnOk result (1 ≤ self.new.spare) }
        ensures kept { self.old.spare ≤ self.new.spare }
    {
        self.singles.reserve()?;
        self.blocks.reserve()?;
        self.affinities.reserve()?;
        self.handles.reserve()
    }

    /// Applies a write that the store has just granted. Takes no memory.
    pub fn apply(&mut self, write: Write)
        requires granted { IsGranted self.old.store write }
        requires sound { IsSoundWrite write }
        requires spare { 1 ≤ self.old.spare }
        ensures store { self.new.store ≡ written self.old.store write }
        ensures spare { self.old.spare ≤ self.new.spare + 1 }
        ensures kept { (revision : ℕ) (key : Key) → write ≡ Remove revision key → self.old.spare ≤ self.new.spare }
    {
        match write {
            Write::Put(revision, value) => self.put(revision, value),
            Write::Remove(revision, key) => self.remove(revision, &KeyRef::of(&key)),
        }
    }

    fn put(&mut self, revision: u64, value: Record)
        requires granted { IsGranted self.old.store (Put revision value) }
        requires sound { IsSoundWrite (Put revision value) }
        requires spare { 1 ≤ self.old.spare }
        ensures store { self.new.store ≡ written self.old.store (Put revision value) }
        ensures spare { self.old.spare ≤ self.new.spare + 1 }
    {
        self.counter = revision;
        let shelf = Shelf::of(&KeyRef::of_record(&value));
        match shelf {
            Shelf::Singles => self.singles.put((revision, value)),
            Shelf::Blocks => self.blocks.put((revision, value)),
            Shelf::Affinities => self.affinities.put((revision, value)),
            Shelf::Handles => self.handles.put((revision, value)),
        }
    }

    fn remove(&mut self, revision: u64, key: &KeyRef<'_>)
        requires granted { IsGranted self.old.store (Remove revision (owned_key key.now)) }
        ensures store { self.new.store ≡ written self.old.store (Remove revision (owned_key key.now)) }
        ensures spare { self.old.spare ≤ self.new.spare }
    {
        self.counter = revision;
        match Shelf::of(key) {
            Shelf::Singles => self.singles.remove(key),
            Shelf::Blocks => self.blocks.remove(key),
            Shelf::Affinities => self.affinities.remove(key),
            Shelf::Handles => self.handles.remove(key),
        }
    }

    /// The revision and the record of the row at this place, where the configuration, the pools
    /// and the reservations come first, then the blocks, the affinities and the handles.
    pub fn row(&self, place: usize) -> (u64, &Record)
        requires { place < length self.now.store.rows }
        ensures { slice_get self.now.store.rows place ≡ Some (result.0, result.1.now) }
    {
        let singles = self.singles.len();
        if place < singles {
            return Listing::over(self.singles.pages()).at(place);
        }
        let blocks = singles + self.blocks.len();
        if place < blocks {
            return self.blocks.listing().at(place - singles);
        }
        let affinities = blocks + self.affinities.len();
        if place < affinities {
            return Listing::over(self.affinities.pages()).at(place - blocks);
        }
        Listing::over(self.handles.pages()).at(place - affinities)
    }
}
