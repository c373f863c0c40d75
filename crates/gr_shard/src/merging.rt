ghost use Rattle.std.specs.Prelude.{◌≡◌, IfOk, OnOk, option_copied};
ghost use Rattle.std.specs.Ordering.{nat_cmp};
ghost use Rattle.std.specs.Cmp.Lexicographic.{slice_cmp};
ghost use Rattle.std.specs.List.Sorted.{IsStrictlySortedBy};
ghost use Rattle.std.specs.Map.{keys_of};
ghost use Rattle.gr_vector.specs.Ids.{has_id};
ghost use Rattle.gr_shard.specs.Merges.{left_by, merged, rows_leave, with_left, with_unknown};

use crate::entering::verdict_at;
use gr_history::{Image, Verdict};
use gr_slots::{Slot, Slots};
use gr_stamp::{Change, Stamp};
use gr_value::{Copied, Key, Memory};
use gr_vector::Vector;
use std::alloc::Global;

// Whether a change of this stamp is known.
fn knows(vector: &Vector, stamp: &Stamp) -> bool
    ensures { result ≡ has_id (record { member = stamp.now.member; rv = stamp.now.rv }) vector.now.ids }
{
    vector.holds(stamp.member(), stamp.rv())
}

// What is left of a row and what stood at its key, by the row's verdict.
fn left_by(
    alloc: Global,
    verdict: Verdict,
    row: &Change,
    clock: u64,
    slot: Option<&Slot>,
) -> Result<Option<Slot>, Memory>
    ensures { IfOk result (λ left. left ≡ left_by verdict row.now clock (option_copied slot.entry)) }
{
    match (verdict, slot) {
        (Verdict::Applied, _) => Ok(Some(Slot {
            kind: row.kind.copy(alloc)?,
            stamp: row.stamp,
            taken_at: clock,
        })),
        (_, Some(slot)) => Ok(Some(slot.copy(alloc)?)),
        (_, None) => Ok(None),
    }
}

// Sets what is left at a key, if anything is.
fn set_left(slots: &mut Slots, key: &Key, left: Option<Slot>) -> Result<(), Memory>
    ensures { OnOk result (slots.new.entries ≡ with_left key.now left slots.old.entries) }
{
    if let Some(slot) = left {
        slots.set(key, slot)?;
    }
    Ok(())
}

// What stands at the keys of the rows, over these slots.
fn rows_over(
    alloc: Global,
    rows: &[Change],
    known: &Vector,
    clock: u64,
    slots: &Slots,
) -> Result<Slots, Memory>
    ensures { IfOk result (λ left. left.entries ≡ rows_leave known.now.ids clock slots.now.entries rows.now) }
{
    let mut left = Slots::new(alloc);
    for row in rows {
        let slot = slots.find(&row.key);
        let verdict = verdict_at(knows(known, &row.stamp), slot, &row.stamp);
        let over = left_by(alloc, verdict, row, clock, slot)?;
        set_left(&mut left, &row.key, over)?;
    }
    Ok(left)
}

// Sets one of the slots from before, where its key has none and the image doesn't know it.
fn set_unknown(
    alloc: Global,
    left: &mut Slots,
    known: &Vector,
    key: &Key,
    slot: &Slot,
) -> Result<(), Memory>
    ensures { OnOk result (left.new.entries ≡ with_unknown known.now.ids left.old.entries (key.now, slot.now)) }
{
    if left.find(key).is_some() || knows(known, &slot.stamp) {
        return Ok(());
    }
    left.set(key, slot.copy(alloc)?)
}

// The slots are built anew: first the rows are set over what stood at their keys, then what stood at other
// keys is added unless the image knows it. So nothing is searched in the image, and where memory is
// refused what stood is as before. Each row and each slot is looked up and set once; keys and values are
// shared. A joiner mostly has few slots when it merges.
/// What stands after an image is merged, where these ids are known.
pub fn merged(
    alloc: Global,
    slots: &Slots,
    image: &Image,
    known: &Vector,
    clock: u64,
) -> Result<Slots, Memory>
    ensures merged { IfOk result (λ left. left.entries ≡ merged known.now.ids clock image.now slots.now.entries) }
    ensures ordered { OnOk result (IsStrictlySortedBy (slice_cmp nat_cmp) (keys_of slots.now.entries)) }
{
    let mut left = rows_over(alloc, image.rows.get().as_slice(), known, clock, slots)?;
    for (key, slot) in slots.rows(alloc)? {
        set_unknown(alloc, &mut left, &image.vector, key, slot)?;
    }
    Ok(left)
}
