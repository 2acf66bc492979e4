//! The operator's commands over a keeper's rows, and `apply`: an operator's document of resources is applied over
//! them.
//!
//! And an audit of the rows of a datastore: which counts and affinities are left over, and how many records there
//! are.
#![tactic(auto)]

mod audit_affinities;
mod audit_counted;
mod audit_excess;
mod audit_look;
mod audit_parts;
mod audit_printed;
mod audit_report;
mod audit_run;
mod audit_words;
mod auditing;
mod changing;
mod document;
mod getting;
mod lines;
mod loading;
mod outcome;
mod reading;
mod releasing;
mod reporting;
mod resources;
mod routing;
mod showing;
mod status;
mod step;
mod telling;
mod told_apply;
mod unreserving;

pub use audit_printed::report_text;
pub use audit_report::{Excess, Report};
pub use audit_run::run_audit;
pub use auditing::{audit, report_on};
pub use document::apply;
pub use getting::get;
pub use ipam_cluster::Base;
pub use ipam_opening::OpenFault as AuditFault;
pub use outcome::ChangeOutcome;
pub use releasing::release;
pub use routing::routes;
pub use showing::show;
pub use status::{
    BROKEN_ROWS, DONE, KEEPER_FAULT, LINE_REFUSED, NO_MEMORY, READ_FAULT, REFUSED, Status,
    UNKNOWN_WORDS, WRITE_FAULT,
};
pub use telling::{MakesBroken, tell, tell_fault, tell_made};
pub use unreserving::unreserve;
