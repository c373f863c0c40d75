use gr_stamp::Change;
use gr_value::{Copied, Memory, Shared};
use gr_vector::Report;
use std::alloc::Global;

/// What members tell each other of a shard, which copies of a mail share. `End` is the last mail of its sender.
#[derive(Drop)]
pub enum Mail {
    Change { shard: u8, change: Shared<Change> },
    Report { shard: u8, report: Shared<Report> },
    End,
}

impl Copied for Mail {
    fn copy(&self, alloc: Global) -> Result<Mail, Memory> {
        match self {
            Mail::Change { shard, change } => Ok(Mail::Change {
                shard: *shard,
                change: change.copy(alloc)?,
            }),
            Mail::Report { shard, report } => Ok(Mail::Report {
                shard: *shard,
                report: report.copy(alloc)?,
            }),
            Mail::End => Ok(Mail::End),
        }
    }
}

/// A mail with the number of its sender.
#[derive(Drop)]
pub struct Posted {
    pub from: u32,
    pub mail: Mail,
}

/// A mail with the members it goes to: bit m - 1 stands for member m.
#[derive(Drop)]
pub struct Posting {
    pub mail: Mail,
    pub to: u8,
}
