ghost use Rattle.std.specs.Prelude.{◌≡◌, IfOk, OnOk, option_copied, reverse};
ghost use Rattle.std.specs.Ordering.{nat_cmp};
ghost use Rattle.std.specs.Cmp.Lexicographic.{slice_cmp};
ghost use Rattle.std.specs.List.Sorted.{IsStrictlySortedBy};
ghost use Rattle.std.specs.Map.{keys_of};
ghost use Rattle.std.specs.Option.{option_to_list};
ghost use Rattle.gr_history.specs.Gifts.{own_changes};
ghost use Rattle.gr_history.specs.Made.{made_at};
ghost use Rattle.gr_shard.specs.Entries.{change_of, changes_in};

use gr_history::Entry;
use gr_slots::{Slot, Slots};
use gr_stamp::{Change, ChangeList};
use gr_value::{Copied, ItemList, Key, Memory, Shared};
use std::alloc::Global;

// The change that stands at a key.
fn change_of(alloc: Global, key: &Key, slot: &Slot) -> Result<Change, Memory>
    ensures { IfOk result (λ change. change ≡ change_of key.now slot.now) }
{
    Ok(Change {
        key: key.copy(alloc)?,
        kind: slot.kind.copy(alloc)?,
        stamp: slot.stamp,
    })
}

/// The changes that stand, in the order of their keys.
pub fn standing(alloc: Global, slots: &Slots) -> Result<ChangeList, Memory>
    ensures changes { IfOk result (λ changes. changes ≡ changes_in slots.now.entries) }
    ensures ordered { OnOk result (IsStrictlySortedBy (slice_cmp nat_cmp) (keys_of slots.now.entries)) }
{
    let mut changes = ChangeList::new(alloc)?;
    for (key, slot) in slots.rows(alloc)? {
        changes.push(change_of(alloc, key, slot)?)?;
    }
    Ok(changes)
}

/// The changes that the calls of a history made, the oldest first.
pub fn own_changes(alloc: Global, deeds: &[Entry]) -> Result<ItemList<Shared<Change>>, Memory>
    ensures { IfOk result (λ changes. changes ≡ own_changes (reverse deeds.now)) }
{
    let mut changes = ItemList::new(alloc)?;
    for deed in deeds {
        if let Some(change) = deed.made() {
            changes.push(change.copy(alloc)?)?;
        }
    }
    Ok(changes)
}
