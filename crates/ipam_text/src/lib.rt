//! Texts and sequences that contracts see as plain lists.
//!
//! `≡` on a `String` or a `Vec` compares more than their contents, such as their capacity. A
//! `Text` is its bytes and a `Seq` is its items, so records of them compare by meaning alone.
#![tactic(auto)]

mod sequence;
mod text;

pub use sequence::Seq;
pub use text::Text;
