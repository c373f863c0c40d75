ghost use Rattle.std.specs.Prelude.{◌≡◌, List, [], ◌∷◌, ◌++◌, IfOk, OnOk};
ghost use Rattle.gr_history.specs.declared.deed.Deed.{Deed};
ghost use Rattle.gr_history.specs.Queries.{rows_of};
ghost use Rattle.gr_shard.specs.Asking.{Hold, rows_in};

use gr_history::{Row, RowList};
use gr_oql::{Query, Truth};
use gr_slots::{Slot, Slots};
use gr_value::{Copied, Key, Memory};
use std::alloc::Global;

// Puts the row of what stands at a key last, where it is a put that the query matches.
fn push_row(
    alloc: Global,
    rows: &mut RowList,
    query: &Query,
    key: &Key,
    slot: &Slot,
) -> Result<(), Memory>
    ensures { OnOk result (rows.new ≡ rows.old ++ rows_in query.now ((key.now, slot.now) ∷ [])) }
{
    match slot.value() {
        Some(value) if query.matches(value) == Truth::Holds => {
            let row = Row {
                key: key.copy(alloc)?,
                value: value.copy(alloc)?,
            };
            rows.push(row)
        }
        _ => Ok(()),
    }
}

/// The result of a query that is opened over these slots: what is present and matches, in the order of
/// the keys.
pub fn rows_of(alloc: Global, query: &Query, slots: &Slots) -> Result<RowList, Memory>
    ensures { IfOk result (λ rows. (past : List Deed) → Hold slots.now.entries past → rows ≡ rows_of query.now past) }
{
    let mut rows = RowList::new(alloc)?;
    for (key, slot) in slots.rows(alloc)? {
        push_row(alloc, &mut rows, query, key, slot)?;
    }
    Ok(rows)
}
