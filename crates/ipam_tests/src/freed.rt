//! The freeing of one assignment.
use ipam_addr::{Addr, Cidr, read_addr, read_cidr};
use ipam_records::{Call, Procedure, key_text};
use ipam_release::FreeProc;
use std::alloc::{AllocError, Global};

/// The first call of the freeing of `CIDR ADDRESS` that a handle holds with the stamp 7.
pub(crate) fn free_text(alloc: Global, text: &str) -> Result<String, AllocError> {
    let (cidr, address) = text.split_once(' ').unwrap_or((text, ""));
    match (read_cidr(cidr.as_bytes()), read_addr(address.as_bytes())) {
        (Ok(cidr), Ok(address)) => first_call(alloc, cidr, address),
        _ => Err(AllocError),
    }
}

fn first_call(alloc: Global, cidr: Cidr, address: Addr) -> Result<String, AllocError> {
    if !cidr.contains(address) || cidr.last().number - cidr.base().number >= 4096 {
        return String::from_str(alloc, "not in a block");
    }
    let freeing = FreeProc::new(alloc, address, cidr, "n.c1", 7)?;
    let call = freeing.call(alloc)?;
    call_text(alloc, &call)
}

fn call_text(alloc: Global, call: &Call) -> Result<String, AllocError> {
    match call {
        Call::Get(key) => key_text(alloc, key),
        _ => String::from_str(alloc, "another call"),
    }
}
