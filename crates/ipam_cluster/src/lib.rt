//! The cluster: the datastore, and the requests that run in its slots, call by call. And what runs in a slot: one
//! type for the procedure of any request, with one type for the answers of all.
#![tactic(auto)]

mod absent;
mod arms;
mod base;
mod begun;
mod cluster;
mod copies;
mod faults;
mod rows;
mod running;
mod slots;
mod turns;

pub use base::Base;
pub use cluster::{Cluster, MOST_ENTRIES};
pub use faults::{BeginFault, FeedFault, PrepareFault};
pub use ipam_collect::Grace;
pub use ipam_opening::OpenFault;
pub use running::{Running, RunningTurned};
pub use std::alloc::AllocError as Memory;
pub use turns::Prepared;
