//! What a shard has heard of the other members, and which tombstones are stable.
#![tactic(auto)]

mod heard;

pub use heard::Heard;
