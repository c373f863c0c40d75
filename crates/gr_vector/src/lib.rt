//! Which changes of which member have come, as a set of ids.
#![tactic(auto)]

mod block;
mod blocks;
mod gap;
mod numbers;
mod report;
mod united;
mod vector;

pub use report::{Report, ReportList};
pub use vector::Vector;
