/// The most bytes of a line of a script, before its line end.
pub const MOST_LINE_BYTES: usize = 1_048_576;

/// The most bytes of a script, before the end of its last line.
pub const MOST_SCRIPT_BYTES: u64 = 67_108_864;
