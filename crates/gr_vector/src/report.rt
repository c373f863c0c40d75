use crate::Vector;
use gr_value::{Copied, ItemList, Memory, Shared};
use std::alloc::Global;

/// What a member says of a shard: the length of its history, the greatest number of its own changes,
/// the members that its changes go to, with bit m - 1 for member m, and all the ids that it knows,
/// which its copies share.
#[derive(Drop)]
pub struct Report {
    pub member: u8,
    pub at: u64,
    pub own: u64,
    pub to: u8,
    pub vector: Shared<Vector>,
}

pub type ReportList = ItemList<Report>;

impl Copied for Report {
    fn copy(&self, alloc: Global) -> Result<Report, Memory> {
        Ok(Report {
            member: self.member,
            at: self.at,
            own: self.own,
            to: self.to,
            vector: self.vector.copy(alloc)?,
        })
    }
}
