// What is done between two looks at the clock.

use crate::{addresses, choices, store, texts};
use ipam_addr::Addr;
use ipam_choice::{Known, View, Wanted, choose};
use ipam_records::{Call, Record};
use ipam_store::Store;
use std::alloc::{AllocError, Global};
use std::io;
use std::time::Instant;

/// What is measured.
#[derive(Clone, Copy)]
pub enum Work<'a> {
    /// Reads each address.
    ReadAddresses(&'a [&'a str]),
    /// Prints each address.
    PrintAddresses(&'a [Addr]),
    /// Reads the record of each row.
    Read(&'a [&'a str]),
    /// Prints each record.
    Print(&'a [Record]),
    /// Reads the record of each row, and creates it in a new datastore.
    Create(&'a [&'a str]),
    /// Asks each call.
    Get(&'a Store, &'a [Call]),
    /// Chooses an address by all that is listed.
    Choose(&'a Wanted<'a>, &'a View<'a>),
    /// Chooses an address, with the node's confirmed affinities gathered before.
    Pick(&'a Wanted<'a>, &'a Known<'a, 'a>),
}

impl Work<'_> {
    /// Does it this often, and adds what is computed.
    fn sum_of(&self, alloc: Global, count: u32) -> Result<u64, AllocError> {
        let mut sum = 0u64;
        for _ in 0..count {
            sum = sum.wrapping_add(self.once(alloc)?);
        }
        Ok(sum)
    }

    fn once(&self, alloc: Global) -> Result<u64, AllocError> {
        match *self {
            Work::ReadAddresses(texts) => addresses::sum_of_read(texts),
            Work::PrintAddresses(all) => addresses::bytes_printed(alloc, all),
            Work::Read(rows) => texts::count_read(alloc, rows),
            Work::Print(records) => texts::bytes_printed(alloc, records),
            Work::Create(rows) => Ok(store::created(alloc, rows)?.rows() as u64),
            Work::Get(store, calls) => Ok(store::sum_of_revisions(store, calls)),
            Work::Choose(wanted, view) => Ok(choices::number_of(choose(alloc, wanted, view)?)),
            Work::Pick(wanted, known) => Ok(choices::number_of(choices::picked(wanted, known))),
        }
    }
}

/// Does the work this often, and tells how long it took and what was computed.
pub fn timed(rt: &HostRuntime, work: Work<'_>, count: u32) -> io::Result<()> {
    let start = Instant::now(rt)?;
    let sum = work.sum_of(rt.alloc(), count)?;
    tell(rt, &start, sum)
}

/// Writes the time since the start to standard error, and what was computed to standard output.
pub fn tell(rt: &HostRuntime, start: &Instant, computed: u64) -> io::Result<()> {
    let nanoseconds = start.elapsed(rt)?.as_nanos();
    eprintln!(rt; "{nanoseconds} ns")?;
    println!(rt; "{computed}")
}
