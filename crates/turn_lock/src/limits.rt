/// The most passes of a lock, whose numbers are all below it.
pub const MOST_PASSES: u8 = 64;

/// The turns of a lock's first pass.
pub const FIRST_TURNS: u64 = 1 << 62;

/// The turns of each pass that is split off.
pub const SPLIT_TURNS: u64 = 1 << 50;

// The word with the next number of a pass.
pub(crate) const NEXT: usize = 3;

// The first of the bells of a lock's table, which stand behind its other words.
pub(crate) const BELLS: usize = 4;

// The words of a lock's table, with a bell for each pass.
pub(crate) const WORDS: usize = BELLS + 64;
