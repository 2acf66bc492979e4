//! Which address an ADD takes, or which slot it claims first, by what it has read.
//!
//! After the order in which Calico's IPAM looks at blocks: the node's own ones, those that nobody
//! has, and then those of other nodes.
#![tactic(auto)]

mod ahead;
mod choosing;
mod confirmed;
mod level;
mod part;
mod picked;
mod scan;
mod slots;
mod view;

pub use choosing::{choose, pick, pick_known};
pub use confirmed::Confirmed;
pub use ipam_model::Choice;
pub use picked::{Candidate, Listed, Picked, Rank};
pub use std::alloc::AllocError as Memory;
pub use view::{Known, View, Wanted};
