//! What reservations, pools and a block answer, each read of its text.
use crate::calls::record;
use ipam_addr::{Addr, push_addr, read_addr, read_cidr};
use ipam_block::Block;
use ipam_pool::Reserved;
use ipam_records::Record;
use std::alloc::{AllocError, Global};

const RESERVATIONS: &str =
    r#"{"reservations":[{"name":"r","reservedCIDRs":["10.0.0.64/26","10.0.0.0/26","10.0.0.0/28","10.0.0.132/31","255.255.255.254/31","2001:db8::/64"]}]}"#;

/// The first address of a CIDR that is not reserved.
pub(crate) fn free_text(alloc: Global, cidr: &str) -> Result<String, AllocError> {
    let Ok(cidr) = read_cidr(cidr.as_bytes()) else {
        return Err(AllocError);
    };
    let read = record(alloc, "reservations", RESERVATIONS)?;
    match &read {
        Record::Reservations(list) => {
            addr_text(
                alloc,
                Reserved::of(alloc, list.as_slice())?.first_free_in(cidr),
            )
        }
        _ => Err(AllocError),
    }
}

fn addr_text(alloc: Global, addr: Option<Addr>) -> Result<String, AllocError> {
    let mut out = String::new(alloc);
    match addr {
        Some(addr) => push_addr(alloc, &mut out, addr)?,
        None => out.push_str("none")?,
    }
    Ok(out)
}

const POOLS: &str =
    r#"{"pools":[{"blockSize":26,"cidr":"10.0.0.0/24","disabled":false,"name":"a"},{"blockSize":26,"cidr":"10.0.2.0/24","disabled":false,"name":"b"},{"blockSize":122,"cidr":"2001:db8::/48","disabled":false,"name":"c"}]}"#;

/// The pool and the slot in it that an address lies in.
pub(crate) fn of_text(alloc: Global, addr: &str) -> Result<String, AllocError> {
    let read = record(alloc, "pools", POOLS)?;
    match (&read, read_addr(addr.as_bytes())) {
        (Record::Pools(table), Ok(addr)) => format!(in alloc; "{:?}", table.slot_of(addr)),
        _ => Err(AllocError),
    }
}

const BLOCK: &str =
    r#"{"affinity":"host:a","allocations":[0,null,1,null],"attributes":[{"handle_id":"n.c2","secondary":{}},{"handle_id":"n.c1","secondary":{}}],"cidr":"10.0.0.4/30","sequenceNumber":4,"sequenceNumberForAllocation":{"0":2,"2":1},"unallocated":[1,3]}"#;

/// Frees `ORDINAL HANDLE STAMP` or all of a `HANDLE`, and tells how many ordinals that were.
fn freed(block: &mut Block, text: &str) -> u16 {
    let Some((ordinal, rest)) = text.split_once(' ') else {
        return block.free_handle(text);
    };
    let (handle, stamp) = rest.split_once(' ').unwrap_or((rest, ""));
    let ordinal = ordinal.parse().unwrap_or(0);
    u16::from(block.free_stamped(ordinal, handle, stamp.parse().unwrap_or(0)))
}

/// How many ordinals are freed of a block that holds 0 for n.c2 and 2 for n.c1, and its queue then.
pub(crate) fn freed_text(alloc: Global, text: &str) -> Result<String, AllocError> {
    let mut read = record(alloc, "block/10.0.0.4/30", BLOCK)?;
    match &mut read {
        Record::Block(block) => {
            let count = freed(block, text);
            format!(in alloc; "{count} {:?}", block.queue())
        }
        _ => Err(AllocError),
    }
}
