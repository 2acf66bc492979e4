//! What is true of the allocator: the requests, their answers and the entries of a history, and in
//! `specs/` what each request does call by call, which histories there are, and what holds of them.
//! Every promise of the crates above stands on these definitions.
#![tactic(auto)]

mod answer;
mod choice;
mod entry;
pub mod laws;
mod limits;
mod outcome;
mod part;
mod request;

pub use answer::{Answer, Collected, Given, GivenThis, Item, Scan};
pub use choice::Choice;
pub use entry::{CallName, Called, Entry, Fate, SlotState, Told};
pub use limits::{CLAIMS_MAX, LOST_RACES_MAX, SLOTS};
pub use outcome::{
    AddAnswer, AddThisAnswer, AdminAnswer, CheckAnswer, ClaimAnswer, CollectAnswer, DelAnswer,
    FreeAnswer, Gift, ProbeAnswer, ReleaseAnswer, Served,
};
pub use part::{Assigned, Left, Outcome, Stop};
pub use request::{AddRequest, Admin, CollectRequest, ProbeRequest, Request};
