use gr_oql::EventList;
use gr_value::{Copied, ItemList, Key, Memory, Shared, Value};
use std::alloc::Global;

/// A key with the value that is present there.
#[derive(Drop)]
pub struct Row {
    pub key: Key,
    pub value: Value,
}

pub type RowList = ItemList<Row>;

impl Copied for Row {
    fn copy(&self, alloc: Global) -> Result<Row, Memory> {
        Ok(Row {
            key: self.key.copy(alloc)?,
            value: self.value.copy(alloc)?,
        })
    }
}

/// What a client is told of a query.
#[derive(Drop)]
pub enum QueryReply {
    /// It runs from now on. The rows are those of its result, in the order of their keys.
    Opened(Shared<RowList>),
    Stopped,
    Closed,
    /// The events that waited.
    Fetched(Shared<EventList>),
    /// The client has no query of that name.
    Unknown,
    /// It has one already.
    Taken,
    /// It was stopped before.
    NotRunning,
}

pub type QueryReplyList = ItemList<QueryReply>;

impl Copied for QueryReply {
    fn copy(&self, alloc: Global) -> Result<QueryReply, Memory> {
        match self {
            QueryReply::Opened(rows) => Ok(QueryReply::Opened(rows.copy(alloc)?)),
            QueryReply::Stopped => Ok(QueryReply::Stopped),
            QueryReply::Closed => Ok(QueryReply::Closed),
            QueryReply::Fetched(events) => Ok(QueryReply::Fetched(events.copy(alloc)?)),
            QueryReply::Unknown => Ok(QueryReply::Unknown),
            QueryReply::Taken => Ok(QueryReply::Taken),
            QueryReply::NotRunning => Ok(QueryReply::NotRunning),
        }
    }
}
