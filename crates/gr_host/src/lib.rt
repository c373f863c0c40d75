//! Members' threads: what a member does for itself, at its own pass and at those of others, and the mail
//! that comes between.
#![tactic(auto)]

mod duties;
mod ends;
mod host;
mod joining;
mod mail;
mod serving;

pub use duties::{Duty, DutyList};
pub use ends::Ends;
pub use gr_value::Memory;
pub use host::{Host, Hosted};
