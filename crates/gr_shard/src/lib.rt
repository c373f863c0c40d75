//! One shard of one member: its history, and what stands after it.
#![tactic(auto)]

mod asking;
mod committing;
mod effect;
mod entering;
mod giving;
mod in_step;
mod making;
mod merging;
mod next;
mod opening;
mod prepared;
mod publisher;
mod regions;
mod served;
mod shard;
mod sweeping;
mod telling;
mod told;

pub use gr_history::{Done, Identity};
pub use in_step::queries_stay_in_step;
pub use next::{Came, Next};
pub use prepared::Prepared;
pub use publisher::Publisher;
pub use served::Served;
pub use shard::Shard;
