//! Addresses of both families, CIDRs and their slots (RFC 4291, RFC 4632, RFC 5952).
#![tactic(auto)]

mod address;
mod buffer;
mod cidrs;
mod names;
mod prefix;
mod slots;
mod spared;
mod text;

pub use address::{Addr, Family};
pub use cidrs::{AddrFault, Cidr};
pub use names::{MOST_HANDLE_BYTES, MOST_NAME_BYTES, is_handle_id, is_name};
pub use prefix::cidr;
pub use slots::{allows_size, last_slot, slot, slot_number};
pub use spared::Spared;
pub use std::alloc::AllocError as Memory;
pub use text::{push_addr, push_cidr, read_addr, read_cidr};
