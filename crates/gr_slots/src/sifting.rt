ghost use Rattle.std.specs.Prelude.{◌≡◌, ℕ, List, ◌&&◌, ◌||◌, None, OnOk, IfOk};
ghost use Rattle.std.specs.Ordering.{nat_cmp};
ghost use Rattle.std.specs.Cmp.Lexicographic.{slice_cmp};
ghost use Rattle.std.specs.List.Sorted.{IsStrictlySortedBy};
ghost use Rattle.std.specs.BTreeSet.{contains, IsOrdered};
ghost use Rattle.gr_slots.specs.Slots.{slot_at};
ghost use Rattle.gr_slots.specs.Removals.{keys_at, is_listed, is_removed_at, is_removed_among, AreIndexed};

use crate::cells::Cells;
use crate::removals::removed_at;
use gr_value::{Copied, Key, Memory};
use std::alloc::Global;
use std::collections::{BTreeMap, BTreeSet};

// Whether a removal stands at the key that came in at the moment.
fn stands(cells: &Cells, key: &Key, at: u64) -> bool
    ensures { result ≡ is_removed_at at (slot_at key.now cells.now) }
{
    removed_at(cells.find(key)) == Some(at)
}

// Leaves of the keys of a moment those that aren't stale, each once.
fn sift(cells: &Cells, at: u64, keys: &mut Vec<Key>)
    ensures standing { (key : List ℕ) → is_listed key keys.new.items
        ≡ (is_removed_at at (slot_at key cells.now) && is_listed key keys.old.items) }
    ensures once { IsStrictlySortedBy (slice_cmp nat_cmp) keys.new.items }
{
    keys.retain(|key| stands(cells, key, at));
    keys.sort_unstable();
    keys.dedup();
}

// The same of the list of a moment, which goes where no key is left.
fn sift_at(cells: &Cells, removals: &mut BTreeMap<u64, Vec<Key>>, at: u64)
    requires { AreIndexed None cells.now removals.old }
    ensures indexed { AreIndexed None cells.now removals.new }
    ensures sifted { (key : List ℕ) → is_listed key (keys_at removals.new at) ≡ is_removed_at at (slot_at key cells.now) }
{
    if let Some(keys) = removals.get_mut(&at) {
        sift(cells, at, keys);
        if keys.is_empty() {
            removals.remove(&at);
        }
    }
}

// The keys that are listed at a moment.
fn keys_at(removals: &BTreeMap<u64, Vec<Key>>, at: u64) -> &[Key]
    ensures { result.now ≡ keys_at removals.now at }
{
    match removals.get(&at) {
        Some(keys) => keys.as_slice(),
        None => &[],
    }
}

// Puts keys into a set.
fn add_all(alloc: Global, found: &mut BTreeSet<Key>, keys: &[Key]) -> Result<(), Memory>
    ensures found { OnOk result ((q : List ℕ) → contains (slice_cmp nat_cmp) found.new q
        ≡ (contains (slice_cmp nat_cmp) found.old q || is_listed q keys.now)) }
    ensures ordered { IsOrdered (slice_cmp nat_cmp) found.old → IsOrdered (slice_cmp nat_cmp) found.new }
{
    for key in keys {
        found.insert(key.copy(alloc)?)?;
    }
    Ok(())
}

/// The keys of the removals that stand and came in at the moments. The lists of these moments are rid of
/// what is stale, so that a stale key is looked at once.
pub fn sift_all(
    alloc: Global,
    cells: &Cells,
    removals: &mut BTreeMap<u64, Vec<Key>>,
    moments: &[u64],
) -> Result<BTreeSet<Key>, Memory>
    requires { AreIndexed None cells.now removals.old }
    ensures indexed { AreIndexed None cells.now removals.new }
    ensures found { IfOk result (λ found. (q : List ℕ) → contains (slice_cmp nat_cmp) found q
        ≡ is_removed_among moments.now (slot_at q cells.now)) }
    ensures ordered { IfOk result (λ found. IsOrdered (slice_cmp nat_cmp) found) }
{
    let mut found = BTreeSet::new(alloc);
    for at in moments {
        sift_at(cells, removals, *at);
        add_all(alloc, &mut found, keys_at(removals, *at))?;
    }
    Ok(found)
}
