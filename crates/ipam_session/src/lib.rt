//! The lines of a session: what each asks, and what it is replied. And the rows of a datastore, a page at a time.
#![tactic(auto)]

mod call;
pub mod laws;
mod page;
mod places;
mod reading;
mod refusal;
mod replies;
mod route;
mod taken;
mod wish;

pub use call::{CallBegun, begin_call, tell_call};
pub use ipam_request_text::AskFault;
pub use ipam_show::PoolUsage;
pub use ipam_store::{Change, Route};
pub use ipam_words::RowKind;
pub use page::{Page, page_of};
pub use reading::read_wish;
pub use refusal::Refusal;
pub use replies::{Reply, push_cni_reply, push_reply};
pub use route::Since;
pub use std::alloc::AllocError as Memory;
pub use taken::PAGE_PARTS;
pub use wish::Wish;
