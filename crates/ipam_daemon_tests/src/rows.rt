//! Rows, keepers of them in memory, and numbers of steps.
use ipam_keeper::{Keeper, MemoryKeeper};
use std::alloc::{AllocError, Global};

/// Rows in which the block of the node `a` has no address given out, as `REVISION KEY BODY`.
pub(crate) const FREE: &str =
    r#"1 pools {"pools":[{"blockSize":30,"cidr":"10.0.0.0/29","disabled":false,"name":"p"}]}
2 affinity/a/10.0.0.0/30 {"cidr":"10.0.0.0/30","node":"a","state":"confirmed"}
3 block/10.0.0.0/30 {"affinity":"host:a","allocations":[null,null,null,null],"attributes":[],"cidr":"10.0.0.0/30","sequenceNumber":0,"sequenceNumberForAllocation":{},"unallocated":[0,1,2,3]}"#;

/// What is on the first line that begins so, after that.
pub(crate) fn rest_of<'a>(lines: &'a str, start: &str) -> Option<&'a str> {
    for line in lines.lines() {
        if let Some(rest) = line.strip_prefix(start) {
            return Some(rest);
        }
    }
    None
}

/// The number on the first line that begins so, or 0.
pub(crate) fn number_of(lines: &str, start: &str) -> u64 {
    match rest_of(lines, start) {
        Some(rest) => rest.parse().unwrap_or(0),
        None => 0,
    }
}

/// The numbers on the first line that begins so, or none.
pub(crate) fn numbers(alloc: Global, lines: &str, start: &str) -> Result<Vec<u64>, AllocError> {
    let mut numbers = Vec::new(alloc);
    for word in rest_of(lines, start).unwrap_or("").split(' ') {
        if let Ok(number) = word.parse() {
            numbers.push(number)?;
        }
    }
    Ok(numbers)
}

/// The keeper of these rows, each a line `REVISION KEY BODY`. Of its writes, those of the rows first,
/// counted from 1, those fail that a line `fail N..` of the steps says, and each load with the number 0. Of its
/// settlings, the opening's first, those fail that a line `unsettled N..` says.
pub(crate) fn keeper_of(
    alloc: Global,
    rows: &str,
    steps: &str,
) -> Result<MemoryKeeper, AllocError> {
    let failing = failing_of(alloc, steps)?;
    let unsettled = numbers(alloc, steps, "unsettled ")?;
    let mut keeper = MemoryKeeper::new(Vec::new(alloc), failing).failing_to_settle(unsettled);
    for row in rows.lines() {
        let (revision, rest) = row.split_once(' ').unwrap_or((row, ""));
        let (key, body) = rest.split_once(' ').unwrap_or((rest, ""));
        if keeper
            .put(key, revision.parse().unwrap_or(0), body)
            .is_err()
        {
            return Err(AllocError);
        }
    }
    Ok(keeper)
}

fn failing_of(alloc: Global, steps: &str) -> Result<Vec<(u64, bool)>, AllocError> {
    let mut failing = Vec::new(alloc);
    for number in &numbers(alloc, steps, "fail ")? {
        failing.push((*number, false))?;
    }
    Ok(failing)
}
