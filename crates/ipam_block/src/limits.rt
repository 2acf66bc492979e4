/// The most addresses of a block.
pub const ADDRESSES_MAX: u16 = 4096;

/// The most pairs that are kept beside the handle of one assignment.
pub const PAIRS_MAX: usize = 8;

/// The most bytes of a pair's key, which has one at least.
pub const KEY_BYTES_MAX: usize = 63;

/// The most bytes of a pair's value.
pub const VALUE_BYTES_MAX: usize = 253;

/// The most addresses that one CHECK names, which stand in an earlier result.
pub const CHECKED_MAX: usize = 64;
