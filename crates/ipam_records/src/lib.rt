//! The datastore as its users see it: what it keeps, what it is asked and what it answers. Beside
//! the types stands what each call means, and what it is to be a procedure that makes calls.
#![tactic(auto)]

mod call;
mod fault;
mod key;
mod key_ref;
pub mod laws;
mod limits;
mod listing;
mod procedure;
mod record;
mod search;
mod spelling;
mod texts;

pub use call::{Call, Heard, Reply, Row, Write};
pub use fault::TextFault;
pub use ipam_record_text::Config;
pub use key::{Key, Kind};
pub use key_ref::KeyRef;
pub use limits::{LAST_REVISION, MOST_BLOCKS, MOST_ROWS};
pub use listing::Listing;
pub use procedure::Procedure;
pub use record::Record;
pub use spelling::{key_of_text, key_text};
pub use std::alloc::AllocError as Memory;
pub use texts::{from_text, to_text};
