//! Stamped changes of a key, and which of them wins.
#![tactic(auto)]

mod change;
mod laws;
mod stamp;

pub use change::{Change, ChangeList, Kind};
pub use laws::{stamps_are_in_order, the_limit_has_48_bits, winner_is_unbeaten};
pub use stamp::{LIMIT, Stamp, decide};
