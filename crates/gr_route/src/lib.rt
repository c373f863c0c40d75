//! Which queries a change can concern, and the events of all queries that a history opened.
#![tactic(auto)]

mod coming;
mod enrolled;
mod laws;
mod openings;
mod router;
mod turning;

pub use laws::unreached_queries_are_told_nothing;
pub use openings::{Opening, OpeningList, events};
pub use router::{IdList, Router};
