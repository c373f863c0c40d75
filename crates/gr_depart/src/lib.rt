//! Departure: a member leaves for good, and the others take each other's copies of its changes.
#![tactic(auto)]

mod closing;
mod copying;
mod departing;
mod playing;
mod replaying;

pub use playing::play_text;
pub use replaying::replay;
