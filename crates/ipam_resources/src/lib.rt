//! The resources of an operator's document: pools, reservations and configurations, as JSON of
//! the cluster's API gives them, and the lines that tell what became of them.
#![tactic(auto)]

mod config;
mod document;
mod fault;
mod kind;
mod list;
mod member;
mod members;
mod pool;
mod printed;
mod ranges;
mod refusal;
mod reservation;
mod resource;
mod values;

pub use document::read_resources;
pub use fault::{DOCUMENT_MAX, DocumentFault};
pub use kind::ResourceKind;
pub use member::{Member, Place};
pub use printed::{push_applied, push_document_fault, push_refused};
pub use refusal::Refusal;
pub use resource::Resource;
