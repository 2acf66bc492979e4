//! The one text of a block's record, which is canonical JSON.
#![tactic(auto)]

mod decimals;
mod fault;
mod form;
mod held;
mod key;
pub mod laws;
mod parts;
mod print;
mod reading;
mod stamps;
mod writing;

pub use fault::BodyFault;
pub use print::block_text;
pub use reading::block_of;
