//! The continuous queries that are open at a shard, and their waiting events.
#![tactic(auto)]

mod coming;
mod concern;
mod foreseen;
mod laws;
mod open;
mod opens;
mod query_end;
mod registry;
mod waiting;

pub use coming::Coming;
pub use concern::can_concern;
pub use foreseen::Foreseen;
pub use gr_oql::Turned;
pub use laws::queries_stay_apart;
pub use query_end::QueryEnd;
pub use registry::Registry;
