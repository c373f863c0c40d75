ghost use Rattle.std.specs.Prelude.{◌≡◌, ◌<◌, ◌+◌, ◌^◌, ℕ, List, Option, Some, None, OnOk, OnErr, IfOk, is_some, if◌then◌else◌, option_copied, option_map};
ghost use Rattle.std.specs.Ordering.{nat_cmp};
ghost use Rattle.std.specs.Cmp.Lexicographic.{slice_cmp};
ghost use Rattle.std.specs.List.Sorted.{IsStrictlySortedBy};
ghost use Rattle.std.specs.Map.{keys_of};
ghost use Rattle.gr_slots.specs.Slots.{removed_at, slot_at, with_slot, without};
ghost use Rattle.gr_slots.specs.Removals.{Moments, AreIndexed};
ghost use Rattle.gr_slots.specs.Late.{late_at, with_late, IsApart};

use crate::Slot;
use crate::cells::Cells;
use crate::removals::{note, removed_at};
use gr_value::{Copied, Key, Memory};
use std::alloc::Global;
use std::collections::BTreeMap;

// What stands at a key that is late.
fn late_slot<'a>(late: &'a Option<(Key, Slot)>, key: &Key) -> Option<&'a Slot>
    ensures { option_copied result ≡ option_map (λ row. row.1) (late_at key.now late.now) }
{
    let (other, slot) = late.as_ref()?;
    if other == key { Some(slot) } else { None }
}

/// What stands at a key, in a cell or late.
#[inline(always)]
pub fn find_either<'a>(
    cells: &'a Cells,
    late: &'a Option<(Key, Slot)>,
    key: &Key,
) -> Option<&'a Slot>
    requires { IsApart late.now cells.now }
    ensures { option_copied result ≡ slot_at key.now (with_late late.now cells.now) }
{
    match cells.find(key) {
        Some(slot) => Some(slot),
        None => late_slot(late, key),
    }
}

// Takes the late row away, where it is that of a key.
fn take_late(late: &mut Option<(Key, Slot)>, key: &Key) -> Option<Slot>
    ensures taken { result ≡ option_map (λ row. row.1) (late_at key.now late.old) }
    ensures left { late.new ≡ (if is_some (late_at key.now late.old) then None else late.old) }
{
    if late_slot(late, key).is_some() {
        let (_, slot) = late.take()?;
        Some(slot)
    } else {
        None
    }
}

/// Takes a key and its slot away, from its cell or where it is late.
pub fn leave_either(cells: &mut Cells, late: &mut Option<(Key, Slot)>, key: &Key) -> Option<Slot>
    requires apart { IsApart late.old cells.old }
    requires ordered { IsStrictlySortedBy (slice_cmp nat_cmp) (keys_of cells.old) }
    ensures slot { result ≡ slot_at key.now (with_late late.old cells.old) }
    ensures gone { with_late late.new cells.new ≡ without key.now (with_late late.old cells.old) }
    ensures apart { IsApart late.new cells.new }
    ensures indexed { (unlisted : Option (List ℕ)) (removals : Moments) → AreIndexed unlisted cells.old removals
        → AreIndexed unlisted cells.new removals }
{
    match cells.leave(key) {
        Some(slot) => Some(slot),
        None => take_late(late, key),
    }
}

/// Puts a slot at a key, where nothing is late and nothing unlisted: into the key's cell, where it is
/// unlisted if it is a removal, or late. Tells when what stood there came in, where it was a removal.
#[inline(always)]
pub fn put_or_wait(
    cells: &mut Cells,
    late: &mut Option<(Key, Slot)>,
    unlisted: &mut Option<Key>,
    key: Key,
    slot: Slot,
) -> Option<u64>
    requires late { late.old ≡ None }
    requires unlisted { unlisted.old ≡ None }
    ensures before { result ≡ removed_at (slot_at key cells.old) }
    ensures entries { with_late late.new cells.new ≡ with_slot key slot cells.old }
    ensures apart { IsApart late.new cells.new }
    ensures indexed { (removals : Moments) → AreIndexed None cells.old removals → AreIndexed unlisted.new cells.new removals }
{
    let is_removal = removed_at(Some(&slot)).is_some();
    match cells.put(&key, slot) {
        Ok(before) => {
            unlist(unlisted, is_removal, key);
            before
        }
        Err(slot) => {
            *late = Some((key, slot));
            None
        }
    }
}

// Keeps a key whose removal isn't listed yet.
#[inline(always)]
fn unlist(unlisted: &mut Option<Key>, is_removal: bool, key: Key)
    requires { unlisted.old ≡ None }
    ensures { unlisted.new ≡ (if is_removal then Some key else None) }
{
    if is_removal {
        *unlisted = Some(key);
    }
}

// Lists the removal that isn't listed yet.
#[inline(never)]
fn list_unlisted(
    alloc: Global,
    cells: &Cells,
    removals: &mut BTreeMap<u64, Vec<Key>>,
    unlisted: &mut Option<Key>,
) -> Result<(), Memory>
    requires { AreIndexed unlisted.old cells.now removals.old }
    ensures indexed { AreIndexed unlisted.new cells.now removals.new }
    ensures ok { OnOk result (unlisted.new ≡ None) }
    ensures none { unlisted.old ≡ None → unlisted.new ≡ None }
{
    let Some(key) = &*unlisted else {
        return Ok(());
    };
    note(alloc, removals, removed_at(cells.find(key)), key)?;
    *unlisted = None;
    Ok(())
}

/// Sets what stands at a key and lists it where it is a removal. Tells when what stood there came in,
/// where it was one.
#[inline(always)]
pub fn set_listed(
    alloc: Global,
    cells: &mut Cells,
    removals: &mut BTreeMap<u64, Vec<Key>>,
    key: &Key,
    slot: Slot,
) -> Result<Option<u64>, Memory>
    requires { AreIndexed None cells.old removals.old }
    ensures before { IfOk result (λ before. before ≡ removed_at (slot_at key.now cells.old)) }
    ensures ok { OnOk result (cells.new ≡ with_slot key.now slot cells.old) }
    ensures err { OnErr result (cells.new ≡ cells.old) }
    ensures indexed { AreIndexed None cells.new removals.new }
{
    note(alloc, removals, removed_at(Some(&slot)), key)?;
    let (before, set) = cells.set(alloc, key, slot);
    set?;
    Ok(before)
}

// Enters the late row among the others, and lists it where it is a removal.
#[inline(never)]
fn enter_late(
    alloc: Global,
    cells: &mut Cells,
    removals: &mut BTreeMap<u64, Vec<Key>>,
    late: &mut Option<(Key, Slot)>,
) -> Result<(), Memory>
    requires indexed { AreIndexed None cells.old removals.old }
    requires apart { IsApart late.old cells.old }
    ensures indexed { AreIndexed None cells.new removals.new }
    ensures apart { IsApart late.new cells.new }
    ensures rows { with_late late.new cells.new ≡ with_late late.old cells.old }
    ensures ok { OnOk result (late.new ≡ None) }
    ensures none { late.old ≡ None → late.new ≡ None }
{
    let Some((key, slot)) = &*late else {
        return Ok(());
    };
    set_listed(alloc, cells, removals, key, slot.copy(alloc)?)?;
    *late = None;
    Ok(())
}

/// Leaves nothing late and nothing unlisted. Mostly nothing is.
#[inline(always)]
pub fn settle(
    alloc: Global,
    cells: &mut Cells,
    removals: &mut BTreeMap<u64, Vec<Key>>,
    late: &mut Option<(Key, Slot)>,
    unlisted: &mut Option<Key>,
) -> Result<(), Memory>
    requires indexed { AreIndexed unlisted.old cells.old removals.old }
    requires apart { IsApart late.old cells.old }
    ensures indexed { AreIndexed unlisted.new cells.new removals.new }
    ensures apart { IsApart late.new cells.new }
    ensures rows { with_late late.new cells.new ≡ with_late late.old cells.old }
    ensures late { OnOk result (late.new ≡ None) }
    ensures listed { OnOk result (unlisted.new ≡ None) }
    ensures none_late { late.old ≡ None → late.new ≡ None }
    ensures none_unlisted { unlisted.old ≡ None → unlisted.new ≡ None }
{
    if late.is_none() && unlisted.is_none() {
        return Ok(());
    }
    list_unlisted(alloc, cells, removals, unlisted)?;
    Ok(enter_late(alloc, cells, removals, late)?)
}
