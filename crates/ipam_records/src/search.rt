ghost use Rattle.std.specs.Prelude.{◌≡◌, length, map};
ghost use Rattle.std.specs.Option.{option_copied};
ghost use Rattle.std.specs.List.Sorted.{IsStrictlySortedBy};
ghost use Rattle.ipam_records.specs.Pages.{rows_of_pages};
ghost use Rattle.ipam_records.specs.Places.{begins_by};
ghost use Rattle.ipam_records.specs.KeyOrder.{key_cmp};
ghost use Rattle.ipam_records.specs.KeyRef.{owned_key};
ghost use Rattle.ipam_records.specs.Datastore.{row_key, row_of};
ghost use Rattle.ipam_records.specs.BlockLists.{list_under, named_lists, AreNamedLists};

use crate::key_ref::KeyRef;
use crate::record::Record;
use ipam_addr::Cidr;

/// The list under this name.
pub(crate) fn list_of<'a>(owned: &'a [(Vec<u8>, Vec<Cidr>)], node: &str) -> &'a [Cidr]
    requires { AreNamedLists (named_lists owned.now) }
    ensures { result.now ≡ list_under node.now (named_lists owned.now) }
{
    match owned.binary_search_by(|entry| entry.0.as_slice().cmp(&node.as_bytes())) {
        Ok(place) => owned[place].1.as_slice(),
        Err(_) => &[],
    }
}

/// The row of the key. Pages without rows may stand among the others.
pub(crate) fn row_in<'a>(
    pages: &'a [Vec<(u64, Record)>],
    key: &KeyRef<'_>,
) -> Option<&'a (u64, Record)>
    requires { IsStrictlySortedBy key_cmp (map row_key (rows_of_pages pages.now)) }
    ensures { option_copied result ≡ row_of (owned_key key.now) (rows_of_pages pages.now) }
{
    let mut left = pages;
    while left.len() > 1 {
        let (front, back) = left.split_at(left.len() / 2);
        left = if begin_by(back, key) { back } else { front };
    }
    row_of_page(left.first()?, key)
}

/// Whether the first row stands before the key or has it.
fn begin_by(pages: &[Vec<(u64, Record)>], key: &KeyRef<'_>) -> bool
    ensures { result ≡ begins_by (owned_key key.now) (rows_of_pages pages.now) }
{
    for page in pages {
        if let Some(row) = page.first() {
            return KeyRef::of_record(&row.1).compare(key).is_le();
        }
    }
    false
}

/// The row of the key in this page.
fn row_of_page<'a>(page: &'a [(u64, Record)], key: &KeyRef<'_>) -> Option<&'a (u64, Record)>
    requires { IsStrictlySortedBy key_cmp (map row_key page.now) }
    ensures { option_copied result ≡ row_of (owned_key key.now) page.now }
{
    match page.binary_search_by(|row| KeyRef::of_record(&row.1).compare(key)) {
        Ok(place) => Some(&page[place]),
        Err(_) => None,
    }
}
