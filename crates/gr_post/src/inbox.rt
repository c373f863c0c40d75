use crate::mail::{Mail, Posted};
use crate::rule::Ordered;
use crate::view::View;
use crossbeam_queue::RuledArrayQueue;
use gr_value::ItemList;
use std::error::Error;
use std::fmt;
use std::marker::Model;

/// A ring of mails from any number of senders to one taker.
#[derive(Drop)]
pub struct Inbox {
    pub(crate) queue: RuledArrayQueue<Posted, View, Ordered>,
}

impl Model for Inbox {
    ghost use Rattle.crossbeam_queue.specs.Passes.{ruled_capacity};
    ghost use Rattle.gr_post.specs.Passes.{Ring};

    ghost Value = { Ring };

    ghost view = { λ inbox. record { table = inbox.queue.table.shared.table_id; capacity = ruled_capacity inbox.queue } };
}

/// The inboxes of all members, that of member 1 first.
pub type InboxList = ItemList<Inbox>;

/// The inbox was full at a step of the call. The mail comes back.
#[derive(Drop)]
pub struct Full {
    pub mail: Mail,
}

impl fmt::Debug for Full {
    fn fmt<W: fmt::Write>(&self, f: &mut fmt::Formatter<W>) -> fmt::Result {
        write!(f, "Full {{ .. }}")
    }
}

impl fmt::Display for Full {
    fn fmt<W: fmt::Write>(&self, f: &mut fmt::Formatter<W>) -> fmt::Result {
        write!(f, "the inbox is full")
    }
}

impl Error for Full {}
