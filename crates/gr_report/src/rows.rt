ghost use Rattle.std.specs.Prelude.{◌≡◌, ◌++◌, ℕ, List, IfOk, OnOk, flat_map, map};
ghost use Rattle.std.specs.Bool.{OnTrue};
ghost use Rattle.std.specs.List.{fold};
ghost use Rattle.std.specs.List.Sorted.{IsPermutation};
ghost use Rattle.std.specs.Map.{values_of};
ghost use Rattle.std.specs.Map.Iter.{deref};
ghost use Rattle.gr_report.specs.Regions.{row_line};
ghost use Rattle.gr_report.specs.Rows.{with_row, by_key, rows_of, AreInOrder};
ghost use Rattle.gr_report.specs.Shown.{shown};

use crate::written::Written;
use gr_history::ShardRecord;
use gr_stamp::Change;
use gr_value::{Copied, Key, Memory};
use std::alloc::Global;
use std::cmp::Ordering;
use std::collections::BTreeMap;

/// What has a key.
pub trait Keyed {
    // Its key.
    ghost key: { Self → List ℕ };

    fn key(&self) -> &Key
        ensures { result.now ≡ key self.now };
}

impl Keyed for Change {
    ghost key = { λ change. change.key };

    fn key(&self) -> &Key {
        &self.key
    }
}

/// Puts rows among those of others.
pub fn gather<'a, T: Keyed>(
    alloc: Global,
    rows: &mut BTreeMap<Key, &'a T>,
    more: &'a [T],
) -> Result<(), Memory>
    ensures { OnOk result (shown rows.new.entries ≡ fold (with_row T.key) (shown rows.old.entries) more.now) }
{
    for row in more {
        rows.insert(row.key().copy(alloc)?, row)?;
    }
    Ok(())
}

/// Puts what was gathered last, in the order of the keys.
pub fn put_gathered<T: Keyed + Written>(
    alloc: Global,
    out: &mut Vec<u8>,
    rows: &BTreeMap<Key, &T>,
) -> Result<(), Memory>
    ensures { OnOk result (out.new.items ≡ out.old.items ++ flat_map T.text (values_of (shown rows.now.entries))) }
{
    for row in rows.values() {
        row.put(alloc, out)?;
    }
    Ok(())
}

fn gather_all(alloc: Global, shards: &[ShardRecord]) -> Result<BTreeMap<Key, &Change>, Memory>
    ensures { IfOk result (λ rows. shown rows.entries ≡ by_key (λ row. row.key) (flat_map (λ shard. shard.region.rows) shards.now)) }
{
    let mut rows = BTreeMap::new(alloc);
    for shard in shards {
        gather(alloc, &mut rows, shard.region.rows.as_slice())?;
    }
    Ok(rows)
}

// Puts the rows of a shard last, which are lent.
fn push_lent<'a>(rows: &mut Vec<&'a Change>, more: &'a [Change]) -> Result<(), Memory>
    ensures { OnOk result (map deref rows.new.items ≡ map deref rows.old.items ++ more.now) }
{
    for row in more {
        rows.push(row)?;
    }
    Ok(())
}

// The rows of all shards, which are lent.
fn lent_rows<'a>(alloc: Global, shards: &'a [ShardRecord]) -> Result<Vec<&'a Change>, Memory>
    ensures { IfOk result (λ rows. map deref rows.items ≡ flat_map (λ shard. shard.region.rows) shards.now) }
{
    let mut rows = Vec::new(alloc);
    for shard in shards {
        push_lent(&mut rows, shard.region.rows.as_slice())?;
    }
    Ok(rows)
}

// Puts rows in the order of their keys. Those of a shard are in order, and this sort keeps runs that are.
fn sort(rows: &mut Vec<&Change>) -> Result<(), Memory>
    ensures { IsPermutation (map deref rows.old.items) (map deref rows.new.items) }
{
    rows.sort_by_key(|row| &row.key)?;
    Ok(())
}

#[tactic(auto, using(crate::proofs::Ordered::by_neighbours))]
fn are_in_order(rows: &[&Change]) -> bool
    ensures { OnTrue result (AreInOrder (map deref rows.now)) }
{
    for place in 1..rows.len() {
        if rows[place - 1].key.cmp(&rows[place].key) != Ordering::Less {
            return false;
        }
    }
    true
}

fn put_lent(alloc: Global, out: &mut Vec<u8>, rows: &[&Change]) -> Result<(), Memory>
    ensures { OnOk result (out.new.items ≡ out.old.items ++ flat_map row_line (map deref rows.now)) }
{
    for row in rows {
        row.put(alloc, out)?;
    }
    Ok(())
}

/// Puts the rows of all shards last, in the order of their keys. They are sorted, or gathered by their
/// keys where two have one key.
pub fn put_rows(alloc: Global, out: &mut Vec<u8>, shards: &[ShardRecord]) -> Result<(), Memory>
    ensures { OnOk result (out.new.items ≡ out.old.items ++ flat_map row_line (rows_of shards.now)) }
{
    let mut rows = lent_rows(alloc, shards)?;
    sort(&mut rows)?;
    if are_in_order(&rows) {
        return put_lent(alloc, out, &rows);
    }
    put_gathered(alloc, out, &gather_all(alloc, shards)?)
}
