//! Why a call of a table failed.

/// Why a table did not do what it was asked, or a keeper over it.
#[derive(Clone, Copy, Debug, PartialEq, Eq)]
pub enum TableFault<C> {
    /// There was no memory.
    Memory,
    /// It failed for this cause.
    Failed(C),
}
