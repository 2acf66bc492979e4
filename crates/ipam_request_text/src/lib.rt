//! The texts of requests and of lists of live handles, as JSON.
#![tactic(auto)]

mod fault;
mod fields;
pub mod laws;
mod live;
mod members;
mod objects;
mod parts;
mod reading;
mod request;
mod shape;
mod sound;

pub use fault::AskFault;
pub use fields::pairs_in;
pub use live::{live_in_json, read_live};
pub use reading::{read_request, read_request_text, request_in_json};
pub use request::{push_live, push_request};
pub use sound::{are_ids, is_sound};
