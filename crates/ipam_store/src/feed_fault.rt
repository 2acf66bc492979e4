/// Why the changes since a revision can't be given.
#[derive(Clone, Copy, Debug, PartialEq, Eq)]
pub enum SinceFault {
    /// Not all of them are kept: they are from this revision on.
    Compacted(u64),
    /// No write has the revision yet: the last one has this.
    Ahead(u64),
    /// There was no memory.
    Memory,
}
