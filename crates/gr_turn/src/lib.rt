//! Turns at one value that several threads share.
//!
//! The lock's word is twice the length of the value's list, and one more while a turn is out.
#![tactic(auto)]

mod kept;
mod lock;
mod making;
mod rule;
mod value;
mod view;

pub use gr_value::Memory;
pub use kept::Kept;
pub use lock::{Busy, Seat, Turn, TurnLock};
pub use making::SeatList;
pub use view::View;
