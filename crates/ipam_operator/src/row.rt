//! A row of a page is read.
ghost use Rattle.std.specs.Prelude.{◌≡◌, IfOk};
ghost use Rattle.serde_json.specs.View.{view};
ghost use Rattle.ipam_operator.specs.Page.{is_key, is_next, rises, row_of, row_with, stands_behind};

use ipam_json::{text_at, whole_at};
use ipam_records::{Key, KeyRef, Row, key_of_text};
use ipam_text::Text;
use ipam_words::RowKind;
use serde_json::Value;
use std::alloc::{AllocError, Global};

/// The row that the item is. None where it is none of the kind, or one that does not stand behind these.
#[tactic(auto, unfolding(crate::specs::Page::row_of))]
pub(crate) fn row_of(
    alloc: Global,
    kind: RowKind,
    before: &[Row],
    item: &Value,
) -> Result<Option<Row>, AllocError>
    ensures { IfOk result (λ found. found ≡ row_of kind before.now (view item.now)) }
{
    let Some(body) = text_at(item, "body") else {
        return Ok(None);
    };
    let Some(key) = text_at(item, "key") else {
        return Ok(None);
    };
    let Some(revision) = whole_at(item, "revision") else {
        return Ok(None);
    };
    if !is_next(alloc, kind, before, key)? {
        return Ok(None);
    }
    let row = row_with(alloc, key, revision, body)?;
    Ok(Some(row))
}

fn row_with(alloc: Global, key: &str, revision: u64, body: &str) -> Result<Row, AllocError>
    ensures { IfOk result (λ row. row ≡ row_with key.now revision body.now) }
{
    let key = Text::copied(alloc, key)?;
    let body = Text::copied(alloc, body)?;
    Ok(Row {
        key,
        revision,
        body,
    })
}

/// Whether the text is a key of the kind, and stands behind the keys of these rows.
fn is_next(alloc: Global, kind: RowKind, before: &[Row], text: &str) -> Result<bool, AllocError>
    ensures { IfOk result (λ so. so ≡ is_next kind before.now text.now) }
{
    if !kind.has(text) {
        return Ok(false);
    }
    match before.last() {
        Some(row) => stands_behind(alloc, row.key.as_str(), text),
        None => is_key(alloc, text),
    }
}

fn is_key(alloc: Global, text: &str) -> Result<bool, AllocError>
    ensures { IfOk result (λ so. so ≡ is_key text.now) }
{
    let key = key_of_text(alloc, text.as_bytes())?;
    Ok(key.is_some())
}

/// Whether the text is a key that stands behind the key of the other text.
fn stands_behind(alloc: Global, last: &str, text: &str) -> Result<bool, AllocError>
    ensures { IfOk result (λ so. so ≡ stands_behind last.now text.now) }
{
    let last = key_of_text(alloc, last.as_bytes())?;
    let key = key_of_text(alloc, text.as_bytes())?;
    Ok(rises(&last, &key))
}

fn rises(last: &Option<Key>, key: &Option<Key>) -> bool
    ensures { result ≡ rises last.now key.now }
{
    match last {
        Some(last) => match key {
            Some(key) => KeyRef::of(last).compare(&KeyRef::of(key)).is_lt(),
            None => false,
        },
        None => false,
    }
}
