use crate::mail::{Mail, Posted};
use std::collections::LinkedList;

/// A sender whose pass was met, with all that it sent.
pub struct Met {
    pub from: u32,
    pub sent: LinkedList<Mail>,
}

/// What a pass knows, which contracts speak of. No running code makes one.
pub struct View {
    /// Whether it is a sender's pass.
    pub sends: bool,
    /// The sender's number.
    pub from: u32,
    /// What it sent.
    pub sent: LinkedList<Mail>,
    /// Whether it is the taker's pass.
    pub takes: bool,
    /// How many senders were made.
    pub made: u32,
    /// What was taken.
    pub taken: LinkedList<Posted>,
    /// The senders whose passes were met.
    pub met: LinkedList<Met>,
}
