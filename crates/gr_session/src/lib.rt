//! Sessions: a client's steps at its pass, one by one, and the mail that they make.
#![tactic(auto)]

mod client;
mod desk;
mod ending;
mod gate;
mod laws;
mod serving;
mod session;

pub use client::{Attended, Client};
pub use gate::{FreeGate, Gate};
pub use gr_value::Memory;
pub use laws::peeks_look_at_the_history;
pub use session::Session;
