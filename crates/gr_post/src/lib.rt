//! Mail between threads: inboxes with any number of senders and one taker.
#![tactic(auto)]

mod calls;
mod courier;
mod fate;
mod inbox;
mod lane;
mod lanes;
mod laws;
mod mail;
mod passes;
mod postings;
mod rest;
mod rule;
mod stage;
mod view;

pub use courier::Courier;
pub use fate::{Fate, Held};
pub use gr_value::Memory;
pub use inbox::{Full, Inbox, InboxList};
pub use laws::each_mail_is_delivered;
pub use mail::{Mail, Posted, Posting};
pub use passes::{SendPass, SendPassList, TakePass};
pub use rest::Rest;
pub use stage::Stage;
pub use view::{Met, View};
