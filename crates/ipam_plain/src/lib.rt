//! Laws above those of `ipam_laws`: what a request comes to that runs alone, as a function of the records. And runs of
//! the model whose every entry is known, and choices in small cases. Each function does nothing: its contract is the
//! law, or the course of some events, and the proof is of the model alone.
#![tactic(auto)]

pub mod alone;
pub mod choices;
pub mod parts;
pub mod runs;
