ghost use Rattle.std.specs.Prelude.{◌≡◌, [], ◌∷◌, ◌++◌, IfOk, OnOk};
ghost use Rattle.std.specs.Ordering.{nat_cmp};
ghost use Rattle.std.specs.Cmp.Lexicographic.{slice_cmp};
ghost use Rattle.std.specs.List.Sorted.{IsStrictlySortedBy};
ghost use Rattle.std.specs.Map.{keys_of};
ghost use Rattle.gr_shard.specs.Entries.{change_of, changes_in, puts_of, removals_of};

use gr_history::Region;
use gr_slots::{Slot, Slots};
use gr_stamp::{Change, ChangeList, Kind};
use gr_value::{Copied, Key, Memory};
use gr_vector::Vector;
use std::alloc::Global;

// Puts what stands at a key last, where the key is there.
fn push_change(alloc: Global, rows: &mut ChangeList, key: &Key, slot: &Slot) -> Result<(), Memory>
    ensures { OnOk result (rows.new ≡ rows.old ++ puts_of (change_of key.now slot.now ∷ [])) }
{
    match &slot.kind {
        Kind::Remove => Ok(()),
        Kind::Put(_) | Kind::Invalid => {
            let row = Change {
                key: key.copy(alloc)?,
                kind: slot.kind.copy(alloc)?,
                stamp: slot.stamp,
            };
            rows.push(row)
        }
    }
}

/// What the slots hold of keys that are there, and how many are removals.
pub fn region(alloc: Global, slots: &Slots, floor: u64, vector: Vector) -> Result<Region, Memory>
    ensures rows { IfOk result (λ region. region.rows ≡ puts_of (changes_in slots.now.entries)) }
    ensures tombstones { IfOk result (λ region. region.tombstones ≡ removals_of (changes_in slots.now.entries)) }
    ensures floor { IfOk result (λ region. region.floor ≡ floor) }
    ensures vector { IfOk result (λ region. region.vector.ids ≡ vector.ids) }
    ensures ordered { OnOk result (IsStrictlySortedBy (slice_cmp nat_cmp) (keys_of slots.now.entries)) }
{
    let mut rows = ChangeList::new(alloc)?;
    for (key, slot) in slots.rows(alloc)? {
        push_change(alloc, &mut rows, key, slot)?;
    }
    Ok(Region {
        rows,
        tombstones: slots.tombstones(),
        floor,
        vector,
    })
}
