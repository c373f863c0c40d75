ghost use Rattle.std.specs.Prelude.{◌≡◌, [], IfOk, OnOk, map};
ghost use Rattle.std.specs.List.{fold};
ghost use Rattle.std.specs.List.Sorted.{IsStrictlySortedBy};
ghost use Rattle.std.specs.Ordering.{nat_cmp};
ghost use Rattle.std.specs.Cmp.Lexicographic.{slice_cmp};
ghost use Rattle.gr_index.specs.Answer.{standing_rows, AreApart, IsAnswer, with_value, with_row, found_rows, answer};

use gr_history::{Row, RowList, ShardRecord};
use gr_oql::{Query, Truth};
use gr_stamp::{Change, Kind};
use gr_value::{Copied, Key, Memory, Value};
use std::alloc::Global;
use std::collections::BTreeMap;

// Puts a row's value among those found, where it has one that matches.
fn add_row(
    alloc: Global,
    query: &Query,
    row: &Change,
    found: &mut BTreeMap<Key, Value>,
) -> Result<(), Memory>
    ensures { OnOk result (found.new.entries ≡ with_row query.now found.old.entries row.now) }
{
    let Kind::Put(value) = &row.kind else {
        return Ok(());
    };
    if query.matches(value) == Truth::Holds {
        found.insert(row.key.copy(alloc)?, value.copy(alloc)?)?;
    }
    Ok(())
}

// The same for all rows of a shard.
fn add_rows(
    alloc: Global,
    query: &Query,
    rows: &[Change],
    found: &mut BTreeMap<Key, Value>,
) -> Result<(), Memory>
    ensures { OnOk result (found.new.entries ≡ fold (with_row query.now) found.old.entries rows.now) }
{
    for row in rows {
        add_row(alloc, query, row, found)?;
    }
    Ok(())
}

fn find_all(
    alloc: Global,
    query: &Query,
    shards: &[ShardRecord],
) -> Result<BTreeMap<Key, Value>, Memory>
    ensures { IfOk result (λ found. found.entries ≡ fold (with_row query.now) [] (standing_rows shards.now)) }
{
    let mut found = BTreeMap::new(alloc);
    for shard in shards {
        add_rows(alloc, query, shard.region.rows.as_slice(), &mut found)?;
    }
    Ok(found)
}

fn found_rows(alloc: Global, found: BTreeMap<Key, Value>) -> Result<RowList, Memory>
    ensures rows { IfOk result (λ rows. rows ≡ found_rows found.entries) }
    ensures in_order { IfOk result (λ rows. IsStrictlySortedBy (slice_cmp nat_cmp) (map (λ row. row.key) rows)) }
{
    let mut rows = Vec::with_capacity(alloc, found.len())?;
    for (key, value) in found {
        rows.push(Row { key, value })?;
    }
    Ok(RowList::from_vec(rows))
}

/// The rows that a query finds among what stands at all shards, in the order of their keys.
#[tactic(auto, using(crate::proofs::Answers::is_answer))]
pub fn ask(alloc: Global, query: &Query, shards: &[ShardRecord]) -> Result<RowList, Memory>
    ensures rows { IfOk result (λ rows. rows ≡ answer query.now shards.now) }
    // Where no two rows stand at one key, they are the values there that match.
    ensures answer { IfOk result (λ rows. AreApart (standing_rows shards.now) → IsAnswer query.now (standing_rows shards.now) rows) }
{
    let found = find_all(alloc, query, shards)?;
    found_rows(alloc, found)
}
