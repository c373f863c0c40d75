//! A run of a script: a thread for each client and one for each member.
#![tactic(auto)]

mod conducting;
mod dealing;
mod ending;
mod gathering;
mod kits;
mod laws;
mod mailing;
mod making;
mod meeting;
mod receipts;
mod rooms;
mod runner;
mod running;
mod slots;
mod sorting;
mod stepping;
mod taking;
mod undoing;

pub use conducting::{Conducted, conduct};
pub use dealing::{Dealt, deal};
pub use ending::{end_all, stop_members};
pub use gathering::{Left, News, gather};
pub use gr_value::Memory;
pub use kits::Kits;
pub use laws::{runs_are_lawful, what_is_left_is_lawful};
pub use mailing::Mailing;
pub use making::make;
pub use meeting::{meet_at, meet_each};
pub use receipts::meet_mail;
pub use rooms::Rooms;
pub use runner::run;
pub use running::play;
pub use slots::{ClientKit, MemberKit, Slot, Worker};
pub use sorting::Sorted;
