//! A node that no row names.
use std::alloc::{AllocError, Global};

/// The most bytes of what `show node` writes of a node that has no block and no address.
pub const SHOWN_MAX: usize = 512;

/// Whether `show node` wrote this of a node that has no block, and no address in a block of another.
pub fn shows_nothing(shown: &str) -> bool {
    if shown.starts_with('{') {
        shown.starts_with("{\"blocks\":[],\"borrowed\":[],")
    } else {
        has_empty_tables(shown)
    }
}

/// Whether two tables have no line but their heads and the total.
fn has_empty_tables(shown: &str) -> bool {
    let mut lines = shown.lines().skip(1);
    match lines.next() {
        Some(total) if total.starts_with("total ") => lines.count() == 2,
        _ => false,
    }
}

/// The line that no row names the node, which has no block and no address, by the lines that `get affinity` writes. None
/// where an affinity names it. Fails where there is no memory.
pub fn unnamed_hint(
    alloc: Global,
    node: &str,
    affinities: &str,
) -> Result<Option<String>, AllocError> {
    let key = format!(in alloc; "affinity/{node}/")?;
    if affinities
        .lines()
        .any(|line| line.starts_with(key.as_str()))
    {
        return Ok(None);
    }
    Ok(Some(format!(in alloc; "no row names the node {node}")?))
}
