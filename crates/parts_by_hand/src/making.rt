use crate::stop::Stop;
use gr_history::{Ask, QueryAsk};
use gr_oql::Query;
use gr_value::{Copied, Key, Memory, Value};
use std::alloc::Global;

/// The key of all calls.
pub fn one_key(alloc: Global) -> Result<Key, Stop> {
    Ok(anew!(Key::read(alloc, b"a"))?)
}

/// The name of a query.
pub fn named(alloc: Global, name: &str) -> Result<Key, Stop> {
    Ok(anew!(Key::read(alloc, name.as_bytes()))?)
}

pub fn put(alloc: Global, text: &str) -> Result<Ask, Stop> {
    let value = anew!(Value::read(alloc, text.as_bytes()))?;
    Ok(Ask::Put {
        key: one_key(alloc)?,
        value,
    })
}

pub fn destroy(alloc: Global) -> Result<Ask, Stop> {
    Ok(Ask::Destroy {
        key: one_key(alloc)?,
    })
}

pub fn open(alloc: Global, name: &str, text: &str) -> Result<QueryAsk, Stop> {
    let query = anew!(Query::parse(alloc, text))?;
    Ok(QueryAsk::Enrol {
        name: named(alloc, name)?,
        query,
    })
}

pub fn fetch(alloc: Global, name: &str) -> Result<QueryAsk, Stop> {
    Ok(QueryAsk::Fetch {
        name: named(alloc, name)?,
    })
}

pub fn stop(alloc: Global, name: &str) -> Result<QueryAsk, Stop> {
    Ok(QueryAsk::Stop {
        name: named(alloc, name)?,
    })
}

pub fn close(alloc: Global, name: &str) -> Result<QueryAsk, Stop> {
    Ok(QueryAsk::Close {
        name: named(alloc, name)?,
    })
}
