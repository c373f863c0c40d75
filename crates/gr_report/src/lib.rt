//! The text of a record, and its summary.
#![tactic(auto)]

mod answers;
mod counts;
mod decimals;
mod deeds;
mod histories;
mod laws;
mod lists;
mod own;
mod put;
mod queries;
mod regions;
mod reporting;
mod rows;
mod same;
mod steps;
mod summing;
mod written;

pub use laws::steps_read_as_their_lines;
pub use put::{put_number, put_text};
pub use reporting::{report, report_in, report_open};
pub use summing::summary;
pub use written::{Written, put_all};
