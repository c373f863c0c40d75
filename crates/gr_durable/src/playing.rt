ghost use Rattle.std.specs.Prelude.{◌≡◌, IfOk, OnOk, option_copied};
ghost use Rattle.gr_oql.specs.Events.{value_left};
ghost use Rattle.gr_law.specs.QueryMaps.{followed, map_of, put_at};
ghost use Rattle.gr_durable.specs.Tables.{list_of, with_reply};

use gr_by_key::ByKey;
use gr_history::{QueryReply, Row, RowList};
use gr_oql::{Event, QueryOp};
use gr_value::{Copied, Key, Memory, Value};
use std::alloc::Global;

/// The rows of a table, by their keys.
pub type Rows = ByKey<Value>;

/// The rows under their keys. Of two with one key the first stands.
pub fn map_of(alloc: Global, rows: &[Row]) -> Result<Rows, Memory>
    ensures { IfOk result (λ all. all ≡ map_of rows.now) }
{
    let mut all = Rows::new(alloc);
    let mut left = rows.len();
    while left > 0 {
        left -= 1;
        let row = &rows[left];
        all.put(row.key.copy(alloc)?, row.value.copy(alloc)?)?;
    }
    Ok(all)
}

/// The rows in the order of their keys.
pub fn list_of(alloc: Global, rows: &Rows) -> Result<RowList, Memory>
    ensures { IfOk result (λ list. list ≡ list_of rows.now) }
{
    let mut list = RowList::new(alloc)?;
    for (key, value) in rows.iter() {
        list.push(Row {
            key: key.copy(alloc)?,
            value: value.copy(alloc)?,
        })?;
    }
    Ok(list)
}

// The key has this value from now on, or no row.
fn put_at(alloc: Global, rows: &mut Rows, key: &Key, value: Option<&Value>) -> Result<(), Memory>
    ensures { OnOk result (rows.new ≡ put_at key.now (option_copied value.entry) rows.old) }
{
    match value {
        None => {
            let _old = rows.take(key);
            Ok(())
        }
        Some(value) => Ok(rows.put(key.copy(alloc)?, value.copy(alloc)?)?),
    }
}

// The value that an event leaves at its key.
fn value_left(event: &Event) -> Option<&Value>
    ensures { option_copied result ≡ value_left event.now.op event.now.value }
{
    match event.op {
        QueryOp::Create | QueryOp::Update => event.value.as_ref(),
        QueryOp::Destroy => None,
    }
}

// Plays events, in order.
fn follow(alloc: Global, rows: &mut Rows, events: &[Event]) -> Result<(), Memory>
    ensures { OnOk result (rows.new ≡ followed rows.old events.now) }
{
    for event in events {
        put_at(alloc, rows, &event.key, value_left(event))?;
    }
    Ok(())
}

fn followed(alloc: Global, rows: Rows, events: &[Event]) -> Result<Rows, Memory>
    ensures { IfOk result (λ left. left ≡ followed rows events.now) }
{
    let mut left = rows;
    follow(alloc, &mut left, events)?;
    Ok(left)
}

/// What a shard's reply leaves of a table.
pub fn after_reply(
    alloc: Global,
    before: Option<Rows>,
    reply: &QueryReply,
) -> Result<Option<Rows>, Memory>
    ensures { IfOk result (λ left. left ≡ with_reply reply.now before) }
{
    match (reply, before) {
        (QueryReply::Opened(rows), _) => Ok(Some(map_of(alloc, rows.get().as_slice())?)),
        (QueryReply::Fetched(events), Some(rows)) => {
            Ok(Some(followed(alloc, rows, events.get().as_slice())?))
        }
        (QueryReply::Fetched(_), None) => Ok(None),
        (QueryReply::Closed, _) => Ok(None),
        (QueryReply::Taken, before) => Ok(before),
        (QueryReply::Stopped | QueryReply::Unknown | QueryReply::NotRunning, before) => Ok(before),
    }
}
