//! The texts of answers, as JSON, and of the entries of a history, as the lines of a journal. And the lines of a
//! script: what each asks, and how a script is cut into them.
#![tactic(auto)]

mod answer;
mod entry;
mod fault;
pub mod laws;
mod limits;
mod line;
mod parts;
mod reading;
mod words;

pub use answer::{answer_value, push_answer};
pub use entry::push_entry;
pub use fault::LineFault;
pub use limits::{MOST_LINE_BYTES, MOST_SCRIPT_BYTES};
pub use line::Line;
pub use parts::cidr_string;
pub use reading::read_line;
