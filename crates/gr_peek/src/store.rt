use crate::told::Told;
use gr_value::{Key, Value};
use std::alloc::Global;

mod absorbing;
mod looking;
mod parts;
mod steps;

use parts::Parts;

/// What each of the two copies holds: what is present, and what had been published then.
#[derive(Drop)]
pub(crate) struct Store {
    pub(crate) alloc: Global,
    pub(crate) entries: Parts<Value>,
    pub(crate) told: Told,
}

/// What is done to both copies.
#[derive(Drop)]
pub(crate) enum Step {
    /// The key has this value from now on, or none.
    Turn { key: Key, value: Option<Value> },
    /// A publication is whole, and this is told then.
    Close { told: Told },
}
