// Rows of the datastore as texts, each a key, a space and a body.
ghost use Rattle.std.specs.Prelude.{IfOk};
ghost use Rattle.ipam_records.specs.Sound.{IsRecord};

use crate::work::{Work, timed};
use ipam_records::{Key, Record, from_text, key_of_text, to_text};
use std::alloc::{AllocError, Global};
use std::io;

/// Prints the records of the rows, this often.
pub fn print(rt: &HostRuntime, rows: &[&str], count: u32) -> io::Result<()> {
    let records = records_of(rt.alloc(), rows)?;
    timed(rt, Work::Print(&records), count)
}

fn records_of(alloc: Global, rows: &[&str]) -> Result<Vec<Record>, AllocError> {
    let mut records = Vec::new(alloc);
    for row in rows {
        records.push(record_of(alloc, row)?)?;
    }
    Ok(records)
}

/// The record of the row. A row that can't be read fails with `AllocError`.
pub fn record_of(alloc: Global, row: &str) -> Result<Record, AllocError>
    ensures { IfOk result IsRecord }
{
    let (key, body) = parts_of(row);
    match from_text(alloc, key, body) {
        Ok(found) => Ok(found),
        Err(_) => Err(AllocError),
    }
}

fn parts_of(row: &str) -> (&str, &str) {
    row.split_once(' ').unwrap_or((row, ""))
}

/// The key of the row, likewise.
pub fn key_of(alloc: Global, row: &str) -> Result<Key, AllocError> {
    match key_of_text(alloc, parts_of(row).0.as_bytes())? {
        Some(key) => Ok(key),
        None => Err(AllocError),
    }
}

/// Reads each record, and counts them.
pub fn count_read(alloc: Global, rows: &[&str]) -> Result<u64, AllocError> {
    for row in rows {
        drop(record_of(alloc, row)?);
    }
    Ok(rows.len() as u64)
}

/// Prints each record, and counts the bytes.
pub fn bytes_printed(alloc: Global, records: &[Record]) -> Result<u64, AllocError> {
    let mut bytes = 0u64;
    for record in records {
        let text = to_text(alloc, record)?;
        bytes = bytes.wrapping_add(text.len() as u64);
    }
    Ok(bytes)
}
