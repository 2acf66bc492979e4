ghost use Rattle.std.specs.Prelude.{◌≡◌, ◌+◌, ◌<◌, ◌≤◌, ◌↔◌, ℕ, List, [], ◌∷◌, IfOk, OnOk, Err, map};
ghost use Rattle.std.specs.List.Sorted.{IsStrictlySortedBy};
ghost use Rattle.ipam_records.specs.Listing.{rows_of};
ghost use Rattle.ipam_store.specs.Route.{routes_of};

use crate::change::{Change, write_revision};
use crate::feed_fault::SinceFault;
use crate::feed_kept::{MOST_CHANGES, keep, newest};
use crate::feed_next::{NextChange, next_change};
use crate::route::{Route, add_routes, turn};
use ipam_records::{Listing, Write};
use std::alloc::{AllocError, Global};
use std::collections::VecDeque;
use std::marker::Model;

/// The routes of a datastore, and the last changes of them.
pub struct Ring {
    routes: Vec<Route>,
    /// The newest first.
    changes: VecDeque<Change>,
    /// The lowest revision since which all changes are kept.
    floor: u64,
    /// The revision of the last write.
    counter: u64,
    /// Where a write was prepared, what it changes, if it changes anything.
    ready: Option<Option<NextChange>>,
}

impl Drop for Ring {
    fn drop(self) {
        let Ring {
            routes: _,
            changes: _,
            floor: _,
            counter: _,
            ready: _,
        } = self;
    }
}

impl Model for Ring {
    ghost use Rattle.ipam_store.specs.FeedShape.{RingValue};

    ghost Value = { RingValue };

    ghost use Rattle.ipam_store.specs.FeedKeeping.{ring_in, is_kept_in};

    ghost view = { ring_in };

    ghost invariant = { is_kept_in };
}

impl Ring {
    ghost use Rattle.ipam_records.specs.declared.call.Write.{Write};
    ghost use Rattle.ipam_records.specs.declared.key.Kind.TheVariants as kind;
    ghost use Rattle.ipam_records.specs.Datastore.{Datastore, rows_of_kind, row_key};
    ghost use Rattle.ipam_records.specs.KeyOrder.{key_cmp};
    ghost use Rattle.ipam_records.specs.Sound.{IsDatastore};
    ghost use Rattle.ipam_store.specs.Route.{routes_in, route_cmp};
    ghost use Rattle.ipam_store.specs.Change.{Leads};
    ghost use Rattle.ipam_store.specs.Feed.{store_after_writes, routes_at, changes_since, write_revision};
    ghost use Rattle.ipam_store.specs.Turned.{IsPreparedFor};
    ghost use Rattle.ipam_store.specs.Follows.{Follows};

    /// The ring of a datastore with these affinities, whose last write had this revision.
    pub fn open(alloc: Global, affinities: &Listing, counter: u64) -> Result<Ring, AllocError>
        requires { IsStrictlySortedBy key_cmp (map row_key (rows_of affinities.now)) }
        ensures follows { IfOk result (λ ring. (base : Datastore) → IsDatastore base
            → rows_of affinities.now ≡ rows_of_kind kind.Affinity base → counter ≡ base.counter → Follows ring base []) }
        ensures counter { IfOk result (λ ring. ring.counter ≡ counter) }
    {
        Ok(Ring {
            routes: routes_listed(alloc, affinities)?,
            changes: VecDeque::with_capacity(alloc, MOST_CHANGES)?,
            floor: counter,
            counter,
            ready: None,
        })
    }

    /// Makes ready for the write, so that pushing it takes no memory. The routes and the changes
    /// stay.
    pub fn prepare(&mut self, write: &Write) -> Result<(), AllocError>
        requires { write_revision write.now ≡ self.old.counter + 1 }
        ensures same { self.new ≡ record self.old { ready = self.new.ready } }
        ensures follows { (base : Datastore) (writes : List Write)
            → Follows self.old base writes → Follows self.new base writes }
        ensures prepared { OnOk result (IsPreparedFor self.new write.now) }
    {
        self.ready = None;
        let next = next_change(&self.routes, write)?;
        self.routes.reserve(1)?;
        self.ready = Some(next);
        Ok(())
    }

    /// Takes a write that was just prepared. Takes no memory.
    pub fn push(&mut self, write: &Write)
        requires { IsPreparedFor self.old write.now }
        ensures follows { (base : Datastore) (writes : List Write)
            → Follows self.old base writes → Follows self.new base (write.now ∷ writes) }
        ensures counter { self.new.counter ≡ write_revision write.now }
    {
        self.counter = write_revision(write);
        if let Some(next) = self.ready.take().flatten() {
            let (change, route) = next.into_parts();
            turn(&mut self.routes, change.up, route);
            self.floor = keep(&mut self.changes, change, self.floor);
        }
    }

    /// The routes now, by node, then by family, base and prefix.
    pub fn snapshot(&self) -> Result<Vec<Route>, AllocError>
        ensures routes { IfOk result (λ found. (base : Datastore) (writes : List Write)
            → Follows self.now base writes → found.items ≡ routes_in (store_after_writes base writes)) }
        ensures ascending { IfOk result (λ found. IsStrictlySortedBy route_cmp found.items) }
    {
        self.routes.clone()
    }

    /// The changes with a revision above this one, in the order in which they came.
    pub fn since(&self, revision: u64) -> Result<Vec<Change>, SinceFault>
        ensures exact { IfOk result (λ found. (base : Datastore) (writes : List Write)
            → Follows self.now base writes → found.items ≡ changes_since base writes revision) }
        ensures leads { IfOk result (λ found. (base : Datastore) (writes : List Write)
            → Follows self.now base writes
            → Leads (routes_at base writes revision) found.items (routes_in (store_after_writes base writes))) }
        ensures compacted { (floor : ℕ) → (result ≡ Err (SinceFault.Compacted floor))
            ↔ ((revision < self.now.floor) × (floor ≡ self.now.floor)) }
        ensures ahead { (counter : ℕ) → (result ≡ Err (SinceFault.Ahead counter))
            ↔ ((self.now.counter < revision) × (counter ≡ self.now.counter)) }
    {
        if revision < self.floor {
            return Err(SinceFault::Compacted(self.floor));
        }
        if self.counter < revision {
            return Err(SinceFault::Ahead(self.counter));
        }
        match self.kept_since(revision) {
            Ok(changes) => Ok(changes),
            Err(_) => Err(SinceFault::Memory),
        }
    }

    // The kept changes with a revision above this one, the oldest first.
    fn kept_since(&self, revision: u64) -> Result<Vec<Change>, AllocError>
        requires { self.now.floor ≤ revision }
        ensures exact { IfOk result (λ found. (base : Datastore) (writes : List Write)
            → Follows self.now base writes → found.items ≡ changes_since base writes revision) }
        ensures leads { IfOk result (λ found. (base : Datastore) (writes : List Write)
            → Follows self.now base writes
            → Leads (routes_at base writes revision) found.items (routes_in (store_after_writes base writes))) }
    {
        let mut found = newest(*self.routes.allocator(), &self.changes, revision)?;
        found.reverse();
        Ok(found)
    }
}

/// The routes of the rows.
fn routes_listed(alloc: Global, affinities: &Listing) -> Result<Vec<Route>, AllocError>
    ensures { IfOk result (λ routes. routes.items ≡ routes_of (rows_of affinities.now)) }
{
    let mut routes = Vec::new(alloc);
    for page in affinities.pages() {
        add_routes(&mut routes, page)?;
    }
    Ok(routes)
}
