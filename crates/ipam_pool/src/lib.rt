//! The pools that addresses are given out from: CIDRs that stay apart, each cut into slots of one
//! size. And addresses that are never given out by themselves: reservations, and the set of all addresses
//! that they hold.
#![tactic(auto)]

mod pools;
mod reservations;
mod reserved_set;
mod spans;
mod table;

pub use pools::{Mode, NoSuchPool, Pool, PoolRefusal};
pub use reservations::{MOST_CIDRS, MOST_RESERVATIONS, Reservation, TooManyCidrs};
pub use reserved_set::Reserved;
pub use std::alloc::AllocError as Memory;
pub use table::{MOST_POOLS, PoolTable};
