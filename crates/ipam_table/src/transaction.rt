//! How far a transaction is.

/// How far the transaction of a table is.
#[derive(Clone, Copy, Debug, PartialEq, Eq)]
pub enum Transaction {
    /// None is under way: each change stands for itself.
    Absent,
    /// It changed nothing yet.
    Begun,
    /// It has changes.
    Changed,
    /// The table took back one that had changes.
    TakenBack,
}
