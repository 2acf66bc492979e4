/// The most labels of a node.
pub const LABELS_MAX: usize = 64;

/// The most bytes of a label's key, which has one at least.
pub const LABEL_KEY_BYTES_MAX: usize = 317;

/// The most bytes of a label's value, and of a value in a selector.
pub const LABEL_VALUE_BYTES_MAX: usize = 253;
