//! How many addresses stay in use in a block that was released.
use ipam_addr::{Cidr, push_cidr};
use std::alloc::{AllocError, Global};

/// The line of how many addresses of the released block are in use, by the table `shown` that `show blocks` writes. None
/// where no address is: the block's row is gone, or all of it is free. Fails where there is no memory.
pub fn released_hint(
    alloc: Global,
    shown: &str,
    block: Cidr,
) -> Result<Option<String>, AllocError> {
    let mut text = String::new(alloc);
    push_cidr(alloc, &mut text, block)?;
    let block = text.as_str();
    match in_use_of(shown, block) {
        None | Some(0) => Ok(None),
        Some(1) => Ok(Some(format!(in alloc; "released; 1 address of {block} is in use")?)),
        Some(count) => Ok(Some(format!(in alloc;
            "released; {count} addresses of {block} are in use"
        )?)),
    }
}

/// How many addresses of the block are in use: 3 of one with `3/64`.
fn in_use_of(shown: &str, block: &str) -> Option<u64> {
    for line in shown.lines() {
        if let Some(used) = used_in_line(line, block) {
            return Some(used);
        }
    }
    None
}

/// How many are in use by the line of the block. None by that of another.
fn used_in_line(line: &str, block: &str) -> Option<u64> {
    let mut words = line.split_ascii_whitespace();
    if words.next() != Some(block) {
        return None;
    }
    let (used, _) = words.nth(2)?.split_once('/')?;
    used.parse().ok()
}
