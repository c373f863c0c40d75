//! What is wanted of a member of a record, and its text.
#![tactic(auto)]

mod row_texts;
mod telling;
mod told;
mod wanted;

pub use wanted::{Wanted, wanted_text};
