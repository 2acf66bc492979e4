use crate::store::created;
use crate::work::{Work, timed};
use ipam_addr::{Cidr, Family};
use ipam_choice::{Candidate, Choice, Confirmed, Known, Picked, View, Wanted, pick_known};
use ipam_parts::{listing_in, reservations_in};
use ipam_pool::Reserved;
use ipam_records::{Call, Key, Kind, Record, Reply};
use ipam_store::Store;
use std::io;

/// The node that asks.
const NODE: &str = "node-0";

/// Chooses an address of the family 4 or 6 this often over the rows: by all that is listed, and then with the
/// node's confirmed affinities gathered before.
pub fn choose_and_pick(rt: &HostRuntime, rows: &[&str], count: u32, family: u32) -> io::Result<()> {
    let store = created(rt.alloc(), rows)?;
    choose_over(rt, &store, &wanted(family), count)
}

fn choose_over(rt: &HostRuntime, store: &Store, wanted: &Wanted<'_>, count: u32) -> io::Result<()> {
    let reservations = reply(store, Call::Get(Key::Reservations));
    let reserved = Reserved::of(rt.alloc(), reservations_in(&reservations))?;
    match view_of(store, &reserved) {
        Some(view) => choose(rt, wanted, &view, count),
        None => Ok(()),
    }
}

/// An address of whichever pool.
fn wanted(family: u32) -> Wanted<'static> {
    Wanted {
        node: NODE,
        family: if family == 6 { Family::V6 } else { Family::V4 },
        names: &[],
        labels: &[],
        one_address: false,
    }
}

fn choose(rt: &HostRuntime, wanted: &Wanted<'_>, view: &View<'_>, count: u32) -> io::Result<()> {
    timed(rt, Work::Choose(wanted, view), count)?;
    let confirmed = Confirmed::of(rt.alloc(), NODE, &view.affinities)?;
    let known = Known {
        config: view.config,
        pools: view.pools,
        reserved: view.reserved,
        confirmed: &confirmed,
        blocks: view.blocks,
    };
    timed(rt, Work::Pick(wanted, &known), count)
}

/// What the node has read, where there are a configuration and pools.
fn view_of<'a>(store: &'a Store, reserved: &'a Reserved) -> Option<View<'a>> {
    let Reply::Found(_, Record::Config(config)) = reply(store, Call::Get(Key::Config)) else {
        return None;
    };
    let Reply::Found(_, Record::Pools(pools)) = reply(store, Call::Get(Key::Pools)) else {
        return None;
    };
    Some(View {
        config: *config,
        pools,
        reserved,
        affinities: listing_in(&reply(store, Call::List(Kind::Affinity))),
        blocks: listing_in(&reply(store, Call::List(Kind::Block))),
    })
}

fn reply(store: &Store, call: Call) -> Reply<'_> {
    store.reply(&call)
}

/// What is chosen with the node's confirmed affinities.
pub fn picked(wanted: &Wanted<'_>, known: &Known<'_, '_>) -> Choice {
    match pick_known(wanted, known) {
        Picked::NoPool(place) => Choice::NoPool(place),
        Picked::Nothing => Choice::Nothing,
        Picked::Slot(candidate) => choice_at(&candidate),
    }
}

fn choice_at(candidate: &Candidate) -> Choice {
    candidate.choice()
}

/// What is done, in the high half, with the number of the address or of the slot's first one in the low half.
pub fn number_of(choice: Choice) -> u64 {
    match choice {
        Choice::Use(slot, ordinal) => numbered(1, slot, ordinal),
        Choice::Claim(slot) => numbered(2, slot, 0),
        Choice::Borrow(slot, ordinal) => numbered(3, slot, ordinal),
        Choice::Nothing | Choice::NoPool(_) => 0,
    }
}

fn numbered(what: u64, slot: Cidr, ordinal: u16) -> u64 {
    let base = (slot.base().number & 0xffff_ffff) as u64;
    (what << 32)
        .wrapping_add(base)
        .wrapping_add(u64::from(ordinal))
}
