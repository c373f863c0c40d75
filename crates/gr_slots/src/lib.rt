//! What stands at the keys of a shard: at most one slot for each key.
#![tactic(auto)]

mod cell;
mod cells;
mod late;
mod merging;
mod packing;
mod places;
mod removals;
mod seats;
mod sifting;
mod slot;
mod slots;
mod walk;

pub use removals::TIMEOUT;
pub use slot::Slot;
pub use slots::Slots;
