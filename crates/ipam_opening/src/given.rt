ghost use Rattle.std.specs.Prelude.{◌≡◌, ◌≢◌, ◌<◌, length, slice_get, Contains, IfOk, map, Some, None, if◌then◌else◌, IfSome, IfNone};
ghost use Rattle.std.specs.Option.{option_copied};
ghost use Rattle.ipam_records.specs.declared.call.Row.{Row as RowText};
ghost use Rattle.ipam_model.specs.Opened.{AreByKey, reading_of, readable};
ghost use Rattle.ipam_records.specs.KeyText.{key_bytes};
ghost use Rattle.ipam_opening.specs.Given.{IsRead};
ghost use Rattle.ipam_opening.specs.Rules.{found_in, if_key};
ghost use Rattle.ipam_records.specs.Key.{key_of};
ghost use Rattle.ipam_records.specs.KeyOrder.{keys_equal};

use ipam_records::{Key, KeyRef, Record, Row, TextFault, from_text, key_text};
use std::alloc::{AllocError, Global};

/// What was read of a row.
pub(crate) type Reading = Result<Record, TextFault>;

/// The rows that are opened, what was read of each, and the revision of the last write.
#[derive(Clone, Copy)]
pub(crate) struct Given<'a> {
    pub(crate) rows: &'a [Row],
    pub(crate) readings: &'a [Reading],
    pub(crate) counter: u64,
}

/// What is read of each of the rows.
pub(crate) fn read_rows(alloc: Global, rows: &[Row]) -> Result<Vec<Reading>, AllocError>
    ensures { IfOk result (λ readings. readings.items ≡ map reading_of rows.now) }
{
    let mut readings = Vec::with_capacity(alloc, rows.len())?;
    for row in rows {
        readings.push(read_row(alloc, row)?)?;
    }
    Ok(readings)
}

fn read_row(alloc: Global, row: &Row) -> Result<Reading, AllocError>
    ensures { IfOk result (λ reading. reading ≡ reading_of row.now) }
{
    match from_text(alloc, row.key.as_str(), row.body.as_str()) {
        Err(TextFault::Memory) => Err(AllocError),
        reading => Ok(reading),
    }
}

impl<'a> Given<'a> {
    /// The record of the key, if one was read.
    pub(crate) fn find(&self, alloc: Global, key: &Key) -> Result<Option<&'a Record>, AllocError>
        requires { IsRead self.now }
        ensures { IfOk result (λ found. option_copied found
            ≡ found_in key.now (readable self.now.rows.now)) }
    {
        let text = key_text(alloc, key)?;
        Ok(self.read_at(key, text.as_str()))
    }

    /// The row at the place, and what was read of it.
    pub(crate) fn at(&self, place: usize) -> (&'a Row, &'a Reading)
        requires read { IsRead self.now }
        requires within { place < length self.now.rows.now }
        ensures row { slice_get self.now.rows.now place ≡ Some result.0.now }
        ensures reading { result.1.now ≡ reading_of result.0.now }
    {
        (&self.rows[place], &self.readings[place])
    }

    // The record of the key with this text.
    fn read_at(&self, key: &Key, text: &str) -> Option<&'a Record>
        requires read { IsRead self.now }
        requires text { text.now ≡ key_bytes key.now }
        ensures { option_copied result ≡ found_in key.now (readable self.now.rows.now) }
    {
        match self.place_of(text) {
            Some(place) => if_key(key, self.at(place).1),
            None => None,
        }
    }

    // Where the row stands whose key has this text.
    fn place_of(&self, text: &str) -> Option<usize>
        requires { AreByKey self.now.rows.now }
        ensures within { IfSome result (λ place. place < length self.now.rows.now) }
        ensures found { IfSome result (λ place. (row : RowText)
            → slice_get self.now.rows.now place ≡ Some row → row.key ≡ text.now) }
        ensures none { IfNone result ((row : RowText)
            → Contains self.now.rows.now row → row.key ≢ text.now) }
    {
        match self
            .rows
            .binary_search_by(|row| row.key.as_str().cmp(&text))
        {
            Ok(place) => Some(place),
            Err(_) => None,
        }
    }
}

/// The record that was read, if it has the key.
fn if_key<'a>(key: &Key, reading: &'a Reading) -> Option<&'a Record>
    ensures { option_copied result ≡ if_key key.now reading.now }
{
    match reading {
        Ok(found) => if_same(key, found),
        Err(_) => None,
    }
}

fn if_same<'a>(key: &Key, found: &'a Record) -> Option<&'a Record>
    ensures { option_copied result ≡ (if keys_equal (key_of found.now) key.now then Some found.now else None) }
{
    if KeyRef::of_record(found).compare(&KeyRef::of(key)).is_eq() {
        Some(found)
    } else {
        None
    }
}
