//! Where the rows after a key begin.
ghost use Rattle.std.specs.Prelude.{◌≡◌, ◌≤◌, All, Some, length, take};
ghost use Rattle.ipam_records.specs.KeyRef.{owned_key};
ghost use Rattle.ipam_records.specs.Pages.{rows_of_pages};
ghost use Rattle.ipam_store.specs.Page.{IsPage};
ghost use Rattle.ipam_store.specs.Places.{AllBefore, Ascend, begins_by};
ghost use Rattle.ipam_session.specs.Page.{SoFar, taken_from};

use ipam_records::{Key, KeyRef, Record};

/// The pages from which on rows come after the key.
pub(crate) fn pages_from<'a>(
    pages: &'a [Vec<(u64, Record)>],
    after: &Option<Key>,
) -> &'a [Vec<(u64, Record)>]
    requires ascend { Ascend (rows_of_pages pages.now) }
    requires filled { All IsPage pages.now }
    ensures { (taken : SoFar) → taken_from after.now taken (rows_of_pages result.now) ≡ taken_from after.now taken (rows_of_pages pages.now) }
{
    match after {
        Some(key) => &pages[page_for(pages, &KeyRef::of(key))..],
        None => pages,
    }
}

/// How many of the first pages have no row after the key, but for one.
fn page_for(pages: &[Vec<(u64, Record)>], key: &KeyRef<'_>) -> usize
    requires ascend { Ascend (rows_of_pages pages.now) }
    requires filled { All IsPage pages.now }
    ensures within { result ≤ length pages.now }
    ensures before { AllBefore (owned_key key.now) (rows_of_pages (take result pages.now)) }
{
    let after = pages.partition_point(|page| begins_by_key(page, key));
    if after == 0 {
        return 0;
    }
    after - 1
}

/// Whether the first row stands before the key or has it.
fn begins_by_key(page: &Vec<(u64, Record)>, key: &KeyRef<'_>) -> bool
    ensures { result ≡ begins_by (owned_key key.now) page.now.items }
{
    match page.first() {
        Some(row) => KeyRef::of_record(&row.1).compare(key).is_le(),
        None => true,
    }
}
