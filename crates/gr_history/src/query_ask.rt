use gr_oql::Query;
use gr_value::{Copied, Key, Memory};
use std::alloc::Global;

/// What a client asks of a query, which it calls by this name.
#[derive(Drop)]
pub enum QueryAsk {
    /// Opens the query.
    Enrol { name: Key, query: Query },
    Stop { name: Key },
    Close { name: Key },
    /// Asks for the events that wait.
    Fetch { name: Key },
}

impl Copied for QueryAsk {
    fn copy(&self, alloc: Global) -> Result<QueryAsk, Memory> {
        match self {
            QueryAsk::Enrol { name, query } => Ok(QueryAsk::Enrol {
                name: name.copy(alloc)?,
                query: query.copy(alloc)?,
            }),
            QueryAsk::Stop { name } => Ok(QueryAsk::Stop {
                name: name.copy(alloc)?,
            }),
            QueryAsk::Close { name } => Ok(QueryAsk::Close {
                name: name.copy(alloc)?,
            }),
            QueryAsk::Fetch { name } => Ok(QueryAsk::Fetch {
                name: name.copy(alloc)?,
            }),
        }
    }
}
