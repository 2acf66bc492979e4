//! A cluster whose rows a keeper has: each write goes to the keeper before it is done. It has the routes
//! that follow from them. And one request by itself, in a kept cluster in which nothing runs, whose answer
//! may wait until all rows are sure.
//!
//! And a kept cluster under a lock. Whoever has a pass takes turns at it, in a slot of its own, and knows
//! the history up to its last turn.
//!
//! Each call that is made for a request is one turn, so that others may come between two of them. The
//! keeper is given a write in the turn that makes it, so rows are kept in the order of the history.
//!
//! A value may be handed to another thread where each of its parts may. That is shown here once, type by
//! type from the rows up, for the crates that start threads over a cluster.
#![tactic(auto)]

mod broken;
mod crossing;
mod deed;
mod deeds;
mod durable;
mod faults;
mod feed;
mod giving;
mod going;
mod kept;
mod laws;
mod loaded;
mod locked;
mod look;
mod opened;
mod opener;
mod pass;
mod shared;
mod solo;
mod steps;
mod write;

pub use broken::broken_line;
pub use crossing::{may_be_shared, memory_may_cross};
pub use durable::run_durable;
pub use faults::{SharedFault, SpentPass};
pub use ipam_cluster::{BeginFault, Cluster, FeedFault, PrepareFault};
pub use ipam_keeper::{KeepFault, Keeper};
pub use ipam_store::{Change, Route, SinceFault};
pub use kept::{Kept, KeptFault};
pub use laws::{what_is_kept_may_be_opened, what_is_sure_may_be_opened};
pub use loaded::{OpensKept, greatest_revision};
pub use look::Look;
pub use opener::{Opens, open_loaded};
pub use pass::Pass;
pub use shared::Shared;
pub use solo::run_alone;
pub use std::alloc::AllocError as Memory;
pub use steps::MakesSteps;
pub use write::RowWrite;
