//! What a CNI call asks, and the texts of its answers.
//!
//! After the CNI specification, versions 0.3.0 to 1.1.0, for a plugin of addresses.
#![tactic(auto)]

mod arguments;
mod asked;
mod calls;
mod code;
mod command;
mod configuration;
mod environment;
mod error;
mod labels;
mod limits;
mod looking;
mod members;
mod refusal;
mod texts;
mod version;

pub use calls::{CniAdd, CniCheck, CniDel, CniGc, CniStatus, Look};
pub use code::Code;
pub use command::Command;
pub use error::{CniError, LookFault};
pub use limits::{INTERFACE_BYTES_MAX, MOST_INPUT_BYTES};
pub use looking::{input_text, look};
pub use std::alloc::AllocError as Memory;
pub use texts::{push_error, push_result, push_versions};
pub use version::Version;
