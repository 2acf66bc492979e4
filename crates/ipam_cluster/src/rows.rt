//! The rows of a cluster as texts, as they are opened again.
ghost use Rattle.std.specs.Prelude.{◌≡◌, IfOk};
ghost use Rattle.std.specs.Cmp.Lexicographic.{slice_cmp};
ghost use Rattle.std.specs.List.Sorted.{IsPermutation};
ghost use Rattle.std.specs.Ordering.{nat_cmp};
ghost use Rattle.ipam_records.specs.Sound.{IsDatastore};
ghost use Rattle.ipam_model.specs.Opened.{AreByKey, text_of, texts_of};

use ipam_records::{Call, Kind, Record, Row, key_text, to_text};
use ipam_store::Store;
use ipam_text::Text;
use std::alloc::{AllocError, Global};

/// The store's rows as texts, by the ascending bytes of their keys.
pub(crate) fn rows_by_key(alloc: Global, store: &Store) -> Result<Vec<Row>, AllocError>
    ensures sound { IsDatastore store.now.store }
    ensures same { IfOk result (λ rows. IsPermutation (texts_of store.now.store) rows.items) }
    ensures by_key { IfOk result (λ rows. AreByKey rows.items) }
{
    rely_on_soundness(store);
    let mut rows = row_texts(alloc, store)?;
    rows.sort_unstable_by(|one, other| one.key.cmp(&other.key));
    Ok(rows)
}

/// The store is sound, so that no two keys have one text: each of its replies says so.
fn rely_on_soundness(store: &Store)
    ensures { IsDatastore store.now.store }
{
    let _reply = store.reply(&Call::List(Kind::Block));
}

/// The store's rows as texts, in its own order.
fn row_texts(alloc: Global, store: &Store) -> Result<Vec<Row>, AllocError>
    ensures { IfOk result (λ rows. rows.items ≡ texts_of store.now.store) }
{
    let mut rows = Vec::new(alloc);
    for place in 0..store.rows() {
        let (revision, value) = store.row(place);
        rows.push(row_text(alloc, revision, value)?)?;
    }
    Ok(rows)
}

fn row_text(alloc: Global, revision: u64, value: &Record) -> Result<Row, AllocError>
    ensures { IfOk result (λ row. row ≡ text_of (revision, value.now)) }
{
    let key = key_text(alloc, &value.key(alloc)?)?;
    let body = to_text(alloc, value)?;
    Ok(Row {
        key: Text::of(key),
        revision,
        body: Text::of(body),
    })
}
