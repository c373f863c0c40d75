//! What stands under keys, as a finite map.
#![tactic(auto)]

mod by_key;

pub use by_key::ByKey;
