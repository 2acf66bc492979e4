//! The commands of the program, over any source, sink and keeper. And the laws that what the program writes is right
//! in the whole sense of the model.
//!
//! One of them is a CNI call (`cni_*`): standard input is read, the call is looked at, and its request runs by itself
//! over the keeper's rows. Another is `gen` (`gen_*`): generated requests happen to a cluster, and a summary counts
//! what came of them.
#![tactic(auto)]

mod cni_asking;
mod cni_calling;
mod cni_end;
pub mod cni_laws;
mod cni_reading;
mod cni_run;
mod cni_telling;
mod cni_texts;
mod gen_base;
mod gen_collecting;
mod gen_counted;
mod gen_drawing;
mod gen_draws;
mod gen_end;
mod gen_requests;
mod gen_running;
mod gen_summary;
mod gen_telling;
mod gen_whole;
pub mod headline;
mod running;
mod statuses;

pub use cni_calling::make_call;
pub use cni_end::{CniEnd, CniFault};
pub use cni_run::cni;
pub use cni_telling::tell_end;
pub use gen_end::GenEnd;
pub use gen_whole::generate;
pub use ipam_commands::{
    BROKEN_ROWS, DONE, KEEPER_FAULT, LINE_REFUSED, NO_MEMORY, READ_FAULT, REFUSED, UNKNOWN_WORDS,
    WRITE_FAULT,
};
pub use running::run_command;
pub use std::alloc::AllocError as Memory;
