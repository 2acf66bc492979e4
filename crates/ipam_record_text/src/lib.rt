//! The bodies of records, as JSON texts: each record has one, and each text is read as one record
//! or refused.
#![tactic(auto)]

mod affinity;
mod blocks;
mod config;
mod fault;
mod handle;
pub mod laws;
mod pools;
mod reservations;
mod rules;

pub use affinity::{affinity_of, affinity_text};
pub use blocks::{cidr_of, id_of, name_of};
pub use config::{Config, config_of, config_text};
pub use fault::BodyFault;
pub use handle::{handle_of, handle_text};
pub use pools::{pools_of, pools_text};
pub use reservations::{cidr_in, reservations_of, reservations_text};
pub use rules::selector_of;
pub use std::alloc::AllocError as Memory;
