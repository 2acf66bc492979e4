use crate::work::{Work, timed};
use ipam_addr::{Addr, push_addr, read_addr};
use std::alloc::{AllocError, Global};
use std::io;

/// Prints the addresses of the texts, this often.
pub fn print(rt: &HostRuntime, texts: &[&str], count: u32) -> io::Result<()> {
    let all = all_of(rt.alloc(), texts)?;
    timed(rt, Work::PrintAddresses(&all), count)
}

fn all_of(alloc: Global, texts: &[&str]) -> Result<Vec<Addr>, AllocError> {
    let mut all = Vec::new(alloc);
    for text in texts {
        all.push(addr_of(text)?)?;
    }
    Ok(all)
}

/// The address that the text reads as. One that is no address fails with
/// `AllocError`.
fn addr_of(text: &str) -> Result<Addr, AllocError> {
    match read_addr(text.as_bytes()) {
        Ok(addr) => Ok(addr),
        Err(_) => Err(AllocError),
    }
}

/// Reads each text, and adds what the addresses end in.
pub fn sum_of_read(texts: &[&str]) -> Result<u64, AllocError> {
    let mut sum = 0u64;
    for text in texts {
        let end = addr_of(text)?.number & 0xffff_ffff;
        sum = sum.wrapping_add(end as u64);
    }
    Ok(sum)
}

/// Prints each address, and counts the bytes.
pub fn bytes_printed(alloc: Global, all: &[Addr]) -> Result<u64, AllocError> {
    let mut text = String::with_capacity(alloc, 64)?;
    let mut bytes = 0u64;
    for addr in all {
        text.clear();
        push_addr(alloc, &mut text, *addr)?;
        bytes = bytes.wrapping_add(text.len() as u64);
    }
    Ok(bytes)
}
