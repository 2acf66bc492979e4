//! What a CNI call begins, and how an answer of the allocator is replied.
#![tactic(auto)]

mod asking;
mod asks;
mod collecting;
pub mod laws;
mod probing;
mod replies;
mod replying;

pub use asking::ask;
pub use asks::Ask;
pub use collecting::{gc, gc_reply};
pub use probing::{status, status_reply};
pub use replies::CniReply;
pub use replying::reply;
pub use std::alloc::AllocError as Memory;
