//! The record of one block: which of its ordinals are held, by whom, and which are free. The record of a
//! node's affinity to a block. And the record of one handle: how many addresses of each block are held under it.
//!
//! After the resources IPAMBlock, BlockAffinity and IPAMHandle of Calico's datastore.
#![tactic(auto)]

mod allocation;
mod block_record;
mod handles;
pub mod laws;
mod limits;
mod record;
mod sound;
mod state;

pub use allocation::{Allocation, Attributes, Held, PartsFault, SharedAttributes};
pub use block_record::{Block, Which};
pub use handles::{Handle, RaiseFault};
pub use limits::{ADDRESSES_MAX, CHECKED_MAX, KEY_BYTES_MAX, PAIRS_MAX, VALUE_BYTES_MAX};
pub use record::Affinity;
pub use state::State;
pub use std::alloc::AllocError as Memory;
