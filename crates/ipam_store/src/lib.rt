//! The datastore: its rows in memory, in the order of their keys, and the counter of its writes.
//!
//! A store is asked by a call and answers without changing. A write that it grants is applied
//! apart, so that what was answered can be kept elsewhere before it holds here.
//!
//! And the feed of routes: which blocks are which node's now, and the last changes of that.
#![tactic(auto)]

mod blocks;
mod change;
mod cidrs;
mod feed_fault;
mod feed_kept;
mod feed_next;
mod index;
pub mod laws;
mod nodes;
mod pages;
mod ring;
mod route;
mod rows;
mod shelf;
mod store;

pub use change::Change;
pub use feed_fault::SinceFault;
pub use feed_kept::MOST_CHANGES;
pub use pages::PAGE_ROWS;
pub use ring::Ring;
pub use route::Route;
pub use std::alloc::AllocError as Memory;
pub use store::{LoadFault, Store};
