ghost use Rattle.std.specs.Prelude.{◌≡◌, ℕ, IsTrue, Some};
ghost use Rattle.ipam_records.specs.Datastore.{reply_of};
ghost use Rattle.ipam_records.specs.Said.{Can};
ghost use Rattle.ipam_records.specs.Sound.{IsRecord};
ghost use Rattle.ipam_bench.specs.Counted.{IsCountedWrite};

use crate::texts::{key_of, record_of};
use crate::work::{Work, timed};
use ipam_parts::revision_in;
use ipam_records::{Call, Record, Reply, Write};
use ipam_store::Store;
use std::alloc::{AllocError, Global};
use std::io;

/// A counter above all sequence numbers of blocks.
const COUNTER: u64 = 1 << 32;

/// From one row that is asked for to the next, so that most stand far apart. A prime, so that all are asked for.
const STRIDE: usize = 61_813;

/// Asks for each of the rows, this often.
pub fn get(rt: &HostRuntime, rows: &[&str], count: u32) -> io::Result<()> {
    let calls = calls_of(rt.alloc(), rows)?;
    let store = created(rt.alloc(), rows)?;
    timed(rt, Work::Get(&store, &calls), count)
}

/// A call for each of the rows.
fn calls_of(alloc: Global, rows: &[&str]) -> Result<Vec<Call>, AllocError> {
    let mut calls = Vec::new(alloc);
    for row in rows {
        calls.push(Call::Get(key_of(alloc, row)?))?;
    }
    Ok(calls)
}

/// Asks so many calls, most far from the one before, and adds the revisions that were found.
pub fn sum_of_revisions(store: &Store, calls: &[Call]) -> u64 {
    let mut sum = 0u64;
    for place in 0..calls.len() {
        if let Some(call) = calls.get(place.wrapping_mul(STRIDE) % calls.len()) {
            sum = sum.wrapping_add(revision_in(&store.reply(call)).unwrap_or(0));
        }
    }
    sum
}

/// A new store with these rows. In a box, since a store that a function drops itself is dear to check.
pub fn created(alloc: Global, rows: &[&str]) -> Result<Box<Store>, AllocError> {
    let mut store = new_store(alloc)?;
    match create_all(alloc, &mut store, rows) {
        Ok(()) => Ok(store),
        Err(AllocError) => Err(AllocError),
    }
}

fn new_store(alloc: Global) -> Result<Box<Store>, AllocError> {
    match Box::new(alloc, Store::new(alloc, COUNTER)) {
        Ok(store) => Ok(store),
        Err(_) => Err(AllocError),
    }
}

fn create_all(alloc: Global, store: &mut Store, rows: &[&str]) -> Result<(), AllocError> {
    for row in rows {
        create(store, record_of(alloc, row)?)?;
    }
    Ok(())
}

/// Asks the store for the row, and applies the write that it grants.
fn create(store: &mut Store, new: Record) -> Result<(), AllocError>
    requires { IsRecord new }
{
    let call = Call::Create(new);
    store.reserve()?;
    if let Some(revision) = granted(store, &call) {
        if let Some(write) = call.into_write(revision) {
            if is_counted(&write) {
                store.apply(write);
            }
        }
    }
    Ok(())
}

/// The revision of the write that the store grants.
fn granted(store: &Store, call: &Call) -> Option<u64>
    ensures { (revision : ℕ) → result ≡ Some revision → reply_of store.now.store call.now ≡ Can revision }
{
    match store.reply(call) {
        Reply::Can(revision) => Some(revision),
        _ => None,
    }
}

/// Whether a block that is written was written less often than its revision says.
fn is_counted(write: &Write) -> bool
    ensures { IsTrue result → IsCountedWrite write.now }
{
    match write {
        Write::Put(revision, Record::Block(block)) => block.sequence() < *revision,
        _ => true,
    }
}
