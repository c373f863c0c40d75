ghost use Rattle.std.specs.Prelude.{◌≡◌, [], ◌+◌, ◌-◌, ◌^◌, ◌<◌, true, Some, None, if◌then◌else◌, OnOk, OnErr, IfOk, option_copied, is_some, map};
ghost use Rattle.std.specs.Ordering.{nat_cmp};
ghost use Rattle.std.specs.Cmp.Lexicographic.{slice_cmp};
ghost use Rattle.std.specs.List.Sorted.{IsStrictlySortedBy};
ghost use Rattle.std.specs.Map.{keys_of};
ghost use Rattle.std.specs.Map.Iter.{deref_pair};
ghost use Rattle.gr_slots.specs.Slots.{slot_at, with_slot, without, timed_out, tombstones};

use crate::Slot;
use crate::cells::Cells;
use crate::late::{find_either, leave_either, put_or_wait, set_listed, settle};
use crate::merging::merge;
use crate::removals::{late_moments, listed, removed_at};
use crate::sifting::sift_all;
use gr_value::{Key, KeyList, Memory};
use std::alloc::Global;
use std::collections::BTreeMap;
use std::marker::Model;

// A slot comes in where there is room for it, and room takes no key: std's ordered map has no room to
// reserve, so a slot whose key has no cell is late, and is entered when room is made for the next one.
// A removal whose key has a cell is unlisted until then. Room is thus made by leaving nothing late and
// nothing unlisted. Where memory may be refused, a slot is entered and listed at once.
// A removal puts its key last in the list of its moment. What is listed may be stale, and only what isn't
// listed would be missed: a sweep looks each listed key up, takes out of the lists that it looks at what is
// stale or stands twice, and lets go of empty ones, so a stale key is looked at by one sweep. Moments are
// few, so a removal costs a search among them and a key's copy, which shares its bytes. Without sweeps the
// lists grow by a key for each removal, as the history does. A slot that might bring the number of removals
// to 2^64 is refused as memory is.
/// Slots by their keys. Contracts see them as a list in the order of the keys, beside the moment at which
/// one slot more may come in, if there is room for one. Each removal is listed by the moment at which it
/// came in, so that those that have timed out are found without a scan, and it is counted. A key stays
/// listed where its removal stands no more, until a sweep finds it.
#[derive(Drop)]
pub struct Slots {
    alloc: Global,
    cells: Cells,
    late: Option<(Key, Slot)>,
    unlisted: Option<Key>,
    removals: BTreeMap<u64, Vec<Key>>,
    count: u64,
    room: Option<u64>,
}

// How many removals there are once one more stands, or not, and one that stood is gone, or not.
fn counted(count: u64, gone: bool, more: bool) -> u64
    requires { more ≡ true → count + 1 < 2 ^ 64 }
    ensures { result ≡ count + (if more then 1 else 0) - (if gone then 1 else 0) }
{
    match (gone, more) {
        (false, true) => count + 1,
        (true, false) => count.saturating_sub(1),
        _ => count,
    }
}

// Refuses where one removal more could not be counted. There is never memory for so many.
fn countable(count: u64) -> Result<(), Memory>
    ensures { OnOk result (count + 1 < 2 ^ 64) }
{
    if count == u64::MAX {
        Err(Memory)
    } else {
        Ok(())
    }
}

impl Model for Slots {
    ghost use Rattle.gr_slots.specs.Slots.{HeldSlots};
    ghost use Rattle.gr_slots.specs.Late.{with_late, AreKept};

    ghost Value = { HeldSlots };

    ghost view = { λ s. record { entries = with_late s.late s.cells; room = s.room } };

    ghost invariant = { λ s. AreKept s.cells s.late s.unlisted s.removals s.count s.room };
}

impl Slots {
    pub fn new(alloc: Global) -> Slots
        ensures { result ≡ record { entries = []; room = None } }
    {
        Slots {
            alloc,
            cells: Cells::new(alloc),
            late: None,
            unlisted: None,
            removals: BTreeMap::new(alloc),
            count: 0,
            room: None,
        }
    }

    pub fn find(&self, key: &Key) -> Option<&Slot>
        ensures { option_copied result ≡ slot_at key.now self.now.entries }
    {
        find_either(&self.cells, &self.late, key)
    }

    /// The slots by their keys, in order.
    pub fn rows(&self, alloc: Global) -> Result<Vec<(&Key, &Slot)>, Memory>
        ensures rows { IfOk result (λ rows. map deref_pair rows.items ≡ self.now.entries) }
        ensures ordered { IsStrictlySortedBy (slice_cmp nat_cmp) (keys_of self.now.entries) }
    {
        let mut rows = self.cells.rows(alloc)?;
        merge(&mut rows, &self.late)?;
        Ok(rows)
    }

    /// Makes room for one slot more, of whatever key, that comes in at this moment.
    pub fn reserve(&mut self, taken_at: u64) -> Result<(), Memory>
        ensures entries { self.new.entries ≡ self.old.entries }
        ensures ok { OnOk result (self.new.room ≡ Some taken_at) }
    {
        countable(self.count)?;
        settle(
            self.alloc,
            &mut self.cells,
            &mut self.removals,
            &mut self.late,
            &mut self.unlisted,
        )?;
        self.room = Some(taken_at);
        Ok(())
    }

    /// Sets what stands at the key, for which there is room. This takes no memory.
    pub fn set_reserved(&mut self, key: Key, slot: Slot)
        requires { self.old.room ≡ Some slot.taken_at }
        ensures { self.new ≡ record { entries = with_slot key slot self.old.entries; room = None } }
    {
        let after = removed_at(Some(&slot));
        let before = put_or_wait(
            &mut self.cells,
            &mut self.late,
            &mut self.unlisted,
            key,
            slot,
        );
        self.count = counted(self.count, before.is_some(), after.is_some());
        self.room = None;
    }

    /// Sets what stands at the key. Where memory is refused, all slots are as before.
    pub fn set(&mut self, key: &Key, slot: Slot) -> Result<(), Memory>
        ensures ok { OnOk result (self.new ≡ record { entries = with_slot key.now slot self.old.entries; room = None }) }
        ensures err { OnErr result (self.new.entries ≡ self.old.entries) }
    {
        countable(self.count)?;
        settle(
            self.alloc,
            &mut self.cells,
            &mut self.removals,
            &mut self.late,
            &mut self.unlisted,
        )?;
        let after = removed_at(Some(&slot));
        let before = set_listed(self.alloc, &mut self.cells, &mut self.removals, key, slot)?;
        self.count = counted(self.count, before.is_some(), after.is_some());
        self.room = None;
        Ok(())
    }

    /// Takes the key's slot away, and answers whether it had one. Room stays no longer.
    pub fn drop_slot(&mut self, key: &Key) -> bool
        ensures had { result ≡ is_some (slot_at key.now self.old.entries) }
        ensures gone { self.new ≡ record { entries = without key.now self.old.entries; room = None } }
    {
        self.room = None;
        let Some(slot) = leave_either(&mut self.cells, &mut self.late, key) else {
            return false;
        };
        self.count = counted(self.count, removed_at(Some(&slot)).is_some(), false);
        true
    }

    /// The keys whose removal came in at the first moment or later, and 600 seconds or more before the
    /// clock, in order. Only the lists of such moments are looked at, and they are rid of what is stale.
    pub fn timed_out(&mut self, alloc: Global, first: u64, clock: u64) -> Result<KeyList, Memory>
        ensures keys { IfOk result (λ keys. keys ≡ timed_out first clock self.old.entries) }
        ensures ordered { IsStrictlySortedBy (slice_cmp nat_cmp) (keys_of self.old.entries) }
        ensures same { self.new ≡ self.old }
    {
        settle(
            self.alloc,
            &mut self.cells,
            &mut self.removals,
            &mut self.late,
            &mut self.unlisted,
        )?;
        let moments = late_moments(alloc, &self.removals, first, clock)?;
        let found = sift_all(alloc, &self.cells, &mut self.removals, moments.as_slice())?;
        listed(alloc, &found)
    }

    /// The slots stand in the order of their keys, each key once.
    pub fn has_keys_in_order(&self)
        ensures { IsStrictlySortedBy (slice_cmp nat_cmp) (keys_of self.now.entries) }
    {
        let _ = &self.cells;
    }

    /// How many of the slots are removals.
    pub fn tombstones(&self) -> u64
        ensures { result ≡ tombstones self.now.entries }
    {
        self.count
    }
}
