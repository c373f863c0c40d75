//! A member: its shards, each behind a turn, and passes with a seat and an eye at each of them.
#![tactic(auto)]

mod answers;
mod dealing;
mod ending;
mod laws;
mod lock;
mod making;
mod meeting;
mod member;
mod pass;
mod plan;
mod replica;
mod rounds;
mod serving;
mod tasks;
mod turns;
mod watch;

pub use gr_peek::{PeekEnd, Seen};
pub use gr_value::Memory;
pub use laws::earlier_peeks_are_of_the_history;
pub use member::Member;
pub use pass::{Pass, PassList};
pub use plan::Plan;
pub use replica::Origin;
