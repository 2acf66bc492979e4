//! Hints for a person who applies a document, releases a block or looks at a node: why it is refused, what is not read,
//! what stays, and that nothing is there.
//! They go to standard error, so no program reads them.
#![tactic(auto)]

mod document;
mod kind;
mod pools;
mod reason;
mod released;
mod unnamed;
mod unread;

pub use document::{HINTED_MAX, document_hints};
pub use pools::{names_pools, pool_hints};
pub use released::released_hint;
pub use unnamed::{SHOWN_MAX, shows_nothing, unnamed_hint};
