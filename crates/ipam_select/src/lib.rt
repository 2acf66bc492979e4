//! Pool selectors: formulas over the labels of a node, after Calico's.
#![tactic(auto)]

mod admitting;
mod comparing;
mod copying;
mod counting;
mod front;
mod labels;
mod laws;
mod lexing;
mod limits;
mod node_selector;
mod printing;
mod read;
mod reading;
mod selector;
mod sound;
mod token;
mod values;

pub use laws::readings;
pub use limits::{LABEL_KEY_BYTES_MAX, LABEL_VALUE_BYTES_MAX, LABELS_MAX};
pub use node_selector::NodeSelector;
pub use printing::push_selector;
pub use read::SelectFault;
pub use selector::Selector;
pub use std::alloc::AllocError as Memory;
