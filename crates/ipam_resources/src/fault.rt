use crate::member::Place;

/// The most bytes of a document.
pub const DOCUMENT_MAX: usize = 67_108_864;

/// Why a document is not read.
#[derive(Clone, Copy, Debug, PartialEq, Eq)]
pub enum DocumentFault {
    /// It has more than 67,108,864 bytes.
    Long,
    /// It is no JSON object.
    NotJson,
    /// The first member that is missing and has no default, or is not of its form.
    Member(Place),
    /// There was no memory.
    Memory,
}
