use ipam_store::Store;

/// What a history starts with: the datastore, and how many entries there were before. It stands in
/// proofs alone, and no value of it is made.
pub(crate) struct Opened {
    pub(crate) store: Store,
    pub(crate) first: u64,
}
