/// How many rows the datastore has at most.
pub const MOST_ROWS: usize = 262_144;

/// How many of its rows are blocks at most.
pub const MOST_BLOCKS: usize = 16_384;

/// The revision after which there is no other.
pub const LAST_REVISION: u64 = 1 << 62;
