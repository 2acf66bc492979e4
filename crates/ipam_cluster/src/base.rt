use ipam_records::Row;

/// The rows from which a cluster is opened.
#[derive(Drop)]
pub struct Base {
    /// By the ascending bytes of their keys, each key once.
    pub rows: Vec<Row>,
    /// The revision of the last write.
    pub counter: u64,
    /// How many entries there were before.
    pub first: u64,
}
