ghost use Rattle.std.specs.Prelude.{◌≡◌, ◌++◌, IfOk, OnOk, flat_map};
ghost use Rattle.gr_durable.specs.Tables.{in_order, rows_named, rows_over};

use crate::held::Held;
use crate::playing::{list_of, map_of};
use gr_history::{Row, RowList};
use gr_value::{Key, Memory};
use std::alloc::Global;

// The rows of a table by one shard, in order.
fn rows_named(alloc: Global, held: &Held, name: &Key) -> Result<RowList, Memory>
    ensures { IfOk result (λ rows. rows ≡ rows_named name.now held.now) }
{
    match held.get(name) {
        None => Ok(RowList::new(alloc)?),
        Some(rows) => Ok(list_of(alloc, rows)?),
    }
}

// Puts these rows behind the others.
fn put_behind(all: &mut Vec<Row>, more: RowList) -> Result<(), Memory>
    ensures { OnOk result (all.new.items ≡ all.old.items ++ more) }
{
    let mut more = more.into_vec();
    all.append(&mut more)?;
    Ok(())
}

fn in_order(alloc: Global, rows: &[Row]) -> Result<RowList, Memory>
    ensures { IfOk result (λ list. list ≡ in_order rows.now) }
{
    list_of(alloc, &map_of(alloc, rows)?)
}

/// The rows of a table by all shards, in the order of their keys.
pub fn rows_over(alloc: Global, all: &[Held], name: &Key) -> Result<RowList, Memory>
    ensures { IfOk result (λ rows. rows ≡ rows_over name.now all.now) }
{
    let mut rows = Vec::new(alloc);
    for held in all {
        put_behind(&mut rows, rows_named(alloc, held, name)?)?;
    }
    in_order(alloc, &rows)
}
