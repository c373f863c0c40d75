ghost use Rattle.std.specs.Prelude.{◌≡◌, IfOk};
ghost use Rattle.gr_script.specs.Steps.{step_of};

use gr_history::{Ask, QueryAsk};
use gr_value::{Copied, ItemList, Key, Memory};
use std::alloc::Global;

/// What a client does at one of its steps.
#[derive(Drop)]
pub enum Act {
    Call(Ask),
    Query(QueryAsk),
    /// Looks at a key without a deed.
    Peek(Key),
}

impl Copied for Act {
    fn copy(&self, alloc: Global) -> Result<Act, Memory> {
        match self {
            Act::Call(ask) => Ok(Act::Call(ask.copy(alloc)?)),
            Act::Query(ask) => Ok(Act::Query(ask.copy(alloc)?)),
            Act::Peek(key) => Ok(Act::Peek(key.copy(alloc)?)),
        }
    }
}

/// A step of a client, with its number among the client's steps.
#[derive(Drop)]
pub struct Step {
    pub seq: u32,
    pub act: Act,
}

pub type StepList = ItemList<Step>;

/// A line behind the heading of a script.
#[derive(Drop)]
pub enum Line {
    /// A client's step. Its steps are numbered from 1 in the order of its lines.
    Step { client: u8, seq: u32, act: Act },
    /// The member takes in what this step of a client made.
    Deliver { to: u8, client: u8, seq: u32 },
    /// The member's shards make a report.
    Report { member: u8 },
    /// The member hears a report of another, by its number among that member's, from 1.
    Hear { by: u8, of: u8, number: u32 },
    /// The member's shards are swept at this moment, in seconds.
    Sweep { member: u8, moment: u64 },
    /// The member joins, and is given an image by a founder.
    Join { member: u8, from: u8 },
    /// The member departs for good.
    Depart { member: u8 },
    /// The client leaves at this moment, in seconds.
    Leave { client: u8, moment: u32 },
    /// The client that left is back.
    Back { client: u8, moment: u32 },
}

pub type LineList = ItemList<Line>;

impl Copied for Line {
    fn copy(&self, alloc: Global) -> Result<Line, Memory> {
        match self {
            Line::Step { client, seq, act } => Ok(Line::Step {
                client: *client,
                seq: *seq,
                act: act.copy(alloc)?,
            }),
            Line::Deliver { to, client, seq } => Ok(Line::Deliver {
                to: *to,
                client: *client,
                seq: *seq,
            }),
            Line::Report { member } => Ok(Line::Report { member: *member }),
            Line::Hear { by, of, number } => Ok(Line::Hear {
                by: *by,
                of: *of,
                number: *number,
            }),
            Line::Sweep { member, moment } => Ok(Line::Sweep {
                member: *member,
                moment: *moment,
            }),
            Line::Join { member, from } => Ok(Line::Join {
                member: *member,
                from: *from,
            }),
            Line::Depart { member } => Ok(Line::Depart { member: *member }),
            Line::Leave { client, moment } => Ok(Line::Leave {
                client: *client,
                moment: *moment,
            }),
            Line::Back { client, moment } => Ok(Line::Back {
                client: *client,
                moment: *moment,
            }),
        }
    }
}

impl Line {
    /// The step, where the line is one of this client.
    pub fn step_of(&self, alloc: Global, client: u8) -> Result<Option<Step>, Memory>
        ensures { IfOk result (λ step. step ≡ step_of client self.now) }
    {
        match self {
            Line::Step {
                client: own,
                seq,
                act,
            } => if *own == client {
                Ok(Some(Step {
                    seq: *seq,
                    act: act.copy(alloc)?,
                }))
            } else {
                Ok(None)
            },
            _ => Ok(None),
        }
    }
}
