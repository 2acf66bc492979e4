//! A datastore with one list of rows for each kind: plain, and slow. The store of pages is compared
//! with it.
use ipam_records::{KeyRef, Kind, Record, Write};
use std::alloc::{AllocError, Global};

/// Each list has revisions and records, in the order of their keys.
#[derive(Drop)]
pub struct PlainStore {
    singles: Vec<(u64, Record)>,
    blocks: Vec<(u64, Record)>,
    affinities: Vec<(u64, Record)>,
    handles: Vec<(u64, Record)>,
}

impl PlainStore {
    pub fn new(alloc: Global) -> PlainStore {
        PlainStore {
            singles: Vec::new(alloc),
            blocks: Vec::new(alloc),
            affinities: Vec::new(alloc),
            handles: Vec::new(alloc),
        }
    }

    fn list_for(&mut self, key: &KeyRef<'_>) -> &mut Vec<(u64, Record)> {
        match key {
            KeyRef::Config | KeyRef::Pools | KeyRef::Reservations => &mut self.singles,
            KeyRef::Block(_) => &mut self.blocks,
            KeyRef::Affinity(..) => &mut self.affinities,
            KeyRef::Handle(_) => &mut self.handles,
        }
    }

    pub fn apply(&mut self, write: Write) -> Result<(), AllocError> {
        match write {
            Write::Put(revision, new) => {
                let list = self.list_for(&KeyRef::of_record(&new));
                put(list, (revision, new))
            }
            Write::Remove(_, key) => {
                let key = KeyRef::of(&key);
                remove(self.list_for(&key), &key);
                Ok(())
            }
        }
    }

    /// The rows of the kind.
    pub fn list(&self, kind: Kind) -> &[(u64, Record)] {
        match kind {
            Kind::Block => &self.blocks,
            Kind::Affinity => &self.affinities,
            Kind::Handle => &self.handles,
        }
    }

    /// The row at this place, where the lists stand one after the other.
    pub fn row(&self, place: usize) -> Option<&(u64, Record)> {
        let mut left = place;
        for list in [&self.singles, &self.blocks, &self.affinities, &self.handles] {
            if left < list.len() {
                return list.get(left);
            }
            left -= list.len();
        }
        None
    }
}

/// How many of the rows stand before the key.
fn place_of(rows: &[(u64, Record)], key: &KeyRef<'_>) -> usize {
    for (place, row) in rows.iter().enumerate() {
        if !KeyRef::of_record(&row.1).compare(key).is_lt() {
            return place;
        }
    }
    rows.len()
}

/// Whether the row at this place has the key.
fn is_at(rows: &[(u64, Record)], place: usize, key: &KeyRef<'_>) -> bool {
    match rows.get(place) {
        Some(row) => KeyRef::of_record(&row.1).is_same(key),
        None => false,
    }
}

fn put(rows: &mut Vec<(u64, Record)>, row: (u64, Record)) -> Result<(), AllocError> {
    let key = KeyRef::of_record(&row.1);
    let place = place_of(rows, &key);
    if place < rows.len() && is_at(rows, place, &key) {
        rows[place] = row;
        return Ok(());
    }
    rows.insert(place.min(rows.len()), row)?;
    Ok(())
}

fn remove(rows: &mut Vec<(u64, Record)>, key: &KeyRef<'_>) {
    let place = place_of(rows, key);
    if place < rows.len() && is_at(rows, place, key) {
        rows.remove(place);
    }
}
