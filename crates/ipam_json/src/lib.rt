//! Typed readers of the members of a JSON value, by a name or by a path, and the laws of JSON texts in
//! their canonical form.
#![tactic(auto)]

mod fault;
pub mod laws;
mod members;
mod path;
mod read;
mod written;

pub use fault::{FieldFault, ReadFault, Want};
pub use members::{
    in_8_bits, in_32_bits, items_at, json_of, members_at, members_in, number_at, only_member,
    text_at, truth_at, whole_at,
};
pub use path::is_index;
pub use read::{array, object, text, truth, whole};
pub use written::{canonical_text, tagged, two_members};
