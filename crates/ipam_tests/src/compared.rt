//! The store against a plain one.
use crate::calls::{apply, read_call};
use crate::plain::PlainStore;
use ipam_records::{Call, KeyRef, Kind, Listing, Record, Reply};
use ipam_store::Store;
use std::alloc::{AllocError, Global};

/// A store and a plain one, which were asked the same.
#[derive(Drop)]
struct Both {
    store: Store,
    plain: PlainStore,
    /// The most rows that a page of handles had so far.
    most_in_page: usize,
}

/// Applies the write of the call at this revision.
fn apply_plain(plain: &mut PlainStore, call: Call, revision: u64) -> Result<(), AllocError> {
    match call.into_write(revision) {
        Some(write) => plain.apply(write),
        None => Ok(()),
    }
}

/// Asks the store the call of the text, and applies to both what it grants.
fn ask_both(both: &mut Both, alloc: Global, text: &str) -> Result<(), AllocError> {
    match apply(&mut both.store, read_call(alloc, text)?)? {
        Some(revision) => apply_plain(&mut both.plain, read_call(alloc, text)?, revision),
        None => Ok(()),
    }
}

/// Whether the rows have one revision and one key, or there is none in both.
fn is_same(found: Option<(u64, &Record)>, plain: Option<&(u64, Record)>) -> bool {
    match (found, plain) {
        (Some((revision, record)), Some(row)) => {
            revision == row.0 && KeyRef::of_record(record).is_same(&KeyRef::of_record(&row.1))
        }
        (None, None) => true,
        _ => false,
    }
}

/// Whether there are as many rows as in the plain store, and at each place the same one.
fn has_rows(store: &Store, plain: &PlainStore) -> bool {
    for place in 0..store.rows() {
        if !is_same(Some(store.row(place)), plain.row(place)) {
            return false;
        }
    }
    plain.row(store.rows()).is_none()
}

/// Whether the list has the plain rows.
fn is_list(listing: &Listing, plain: &[(u64, Record)]) -> bool {
    for place in 0..listing.len() {
        if !is_same(Some(listing.at(place)), plain.get(place)) {
            return false;
        }
    }
    listing.len() == plain.len()
}

/// Whether both have the same rows, and the same list of the kind.
fn are_same(both: &Both, kind: Kind) -> bool {
    match both.store.reply(&Call::List(kind)) {
        Reply::Listed(listing) => {
            is_list(&listing, both.plain.list(kind)) && has_rows(&both.store, &both.plain)
        }
        _ => false,
    }
}

/// Takes notice of the pages of handles.
fn note_pages(both: &mut Both) {
    for page in both.store.pages(Kind::Handle) {
        both.most_in_page = both.most_in_page.max(page.len());
    }
}

/// Rows of each list, so that rows at later places are reached.
const FIRST_CALLS: &str = r#"create reservations {"reservations":[]}
create config {"autoAllocateBlocks":true,"maxBlocksPerHost":0,"strictAffinity":false}
create block/10.0.0.0/31 {"affinity":null,"allocations":[null,null],"attributes":[],"cidr":"10.0.0.0/31","sequenceNumber":1,"sequenceNumberForAllocation":{},"unallocated":[0,1]}
create affinity/a/10.0.0.0/31 {"cidr":"10.0.0.0/31","node":"a","state":"pending"}
create affinity/a/9.0.0.0/31 {"cidr":"9.0.0.0/31","node":"a","state":"pending"}
create handle/n.c1 {"block":{"10.0.0.0/31":1},"handleID":"n.c1"}
"#;

/// The counter after the first calls.
const FIRST: u32 = 6;

const HANDLES: u32 = 1024;

/// Creates the handles from the last to the first, and deletes every second one.
fn handle_call(alloc: Global, step: u32) -> Result<String, AllocError> {
    if step < HANDLES {
        let number = HANDLES - 1 - step;
        return format!(in alloc;
            r#"create handle/{number:06} {{"block":{{"10.0.0.0/31":1}},"handleID":"{number:06}"}}"#
        );
    }
    let number = (step - HANDLES).wrapping_mul(2).wrapping_add(1) % HANDLES;
    let revision = FIRST + HANDLES - number;
    format!(in alloc; "delete {revision} handle/{number:06}")
}

/// Asks both the first calls, and those of the steps. The first of the latter after which they are not the same.
fn first_difference(alloc: Global, both: &mut Both) -> Result<Option<String>, AllocError> {
    for text in FIRST_CALLS.lines() {
        ask_both(both, alloc, text)?;
    }
    for step in 0..HANDLES + HANDLES / 2 {
        let text = handle_call(alloc, step)?;
        ask_both(both, alloc, text.as_str())?;
        if !are_same(both, Kind::Handle) {
            return Ok(Some(text));
        }
        note_pages(both);
    }
    Ok(None)
}

/// How many rows there are after the steps, and the counter, and how many rows a page had at most; or the call after
/// which the store is not as the plain one.
pub(crate) fn handles_text(alloc: Global) -> Result<String, AllocError> {
    let mut both = Both {
        store: Store::new(alloc, 0),
        plain: PlainStore::new(alloc),
        most_in_page: 0,
    };
    match first_difference(alloc, &mut both)? {
        Some(text) => format!(in alloc; "not the same after {text}"),
        None => {
            let (rows, counter) = (both.store.rows(), both.store.counter());
            format!(in alloc;
                "{rows} rows at {counter}, at most {} in a page",
                both.most_in_page
            )
        }
    }
}
