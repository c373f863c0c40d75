//! Keys by the scalar of a field, and answers to queries over what stands at all shards of a member.
#![tactic(auto)]

mod asking;
mod cell;
mod field_index;
mod marking;
mod words;

pub use asking::ask;
pub use field_index::FieldIndex;
