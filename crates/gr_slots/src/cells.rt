ghost use Rattle.std.specs.Prelude.{◌≡◌, [], OnOk, OnErr, IfOk, IfErr, map, option_copied, None};
ghost use Rattle.std.specs.Ordering.{nat_cmp};
ghost use Rattle.std.specs.Cmp.Lexicographic.{slice_cmp};
ghost use Rattle.std.specs.List.Sorted.{IsStrictlySortedBy};
ghost use Rattle.std.specs.Map.{keys_of};
ghost use Rattle.std.specs.Map.Iter.{deref_pair};
ghost use Rattle.gr_slots.specs.Cells.{rows_in, AreTied, IsPlaceOf};
ghost use Rattle.gr_slots.specs.Links.{IsKept};
ghost use Rattle.gr_slots.specs.Slots.{removed_at, slot_at, with_slot, without};

use crate::Slot;
use crate::cell::Cell;
use crate::packing::pack;
use crate::places::{enter, place_of, put_in, rows_in, slot_in, take_in};
use crate::seats::{Seats, link, make_room};
use gr_value::{Key, Memory};
use std::alloc::Global;
use std::collections::BTreeMap;
use std::marker::Model;

// A key keeps its cell once nothing stands there any more, so no place moves and a chain's end tells that
// no chain has the key. Where such cells may be more than half, they are let go of. A chain has a few cells
// at most: a key that has no room in its own is in no chain, and an ordered map has its place, so that keys
// which were chosen to have one seat are found by a search. A place beyond 32 bits is refused as memory is.
// std's map can't promise room for keys that aren't named yet, so a key is entered only where memory may be
// refused. Rows are put in order when they are asked for.
/// Slots in cells, one for each key. The chain of a key's seat leads to its cell.
#[derive(Drop)]
pub struct Cells {
    far: BTreeMap<Key, usize>,
    cells: Vec<Cell>,
    seats: Seats,
    /// How often something was taken away since cells were let go of. Nothing rests on it but time.
    left: usize,
}

impl Model for Cells {
    ghost use Rattle.gr_slots.specs.Slots.{Entries};
    ghost use Rattle.gr_slots.specs.Cells.{rows_in, AreTied};
    ghost use Rattle.gr_slots.specs.Links.{IsKept};

    ghost Value = { Entries };

    ghost view = { λ s. rows_in s.cells.items };

    ghost invariant = { λ s. AreTied s.far s.cells.items × IsKept s.seats s.cells.items };
}

// Gives a key that has no cell one. A place beyond 32 bits is refused as memory is.
#[inline(never)]
fn add(
    alloc: Global,
    far: &mut BTreeMap<Key, usize>,
    cells: &mut Vec<Cell>,
    seats: &mut Seats,
    key: &Key,
    slot: Slot,
) -> Result<(), Memory>
    requires tied { AreTied far.old cells.old.items }
    requires kept { IsKept seats.old cells.old.items }
    requires absent { IsPlaceOf cells.old.items key.now None }
    ensures tied { AreTied far.new cells.new.items }
    ensures kept { IsKept seats.new cells.new.items }
    ensures ok { OnOk result (rows_in cells.new.items ≡ with_slot key.now slot (rows_in cells.old.items)) }
    ensures err { OnErr result (rows_in cells.new.items ≡ rows_in cells.old.items) }
{
    let place = cells.len();
    let keys = u32::try_from(place + 1).map_err(|_| Memory)?;
    make_room(alloc, seats, cells, keys)?;
    let is_far = seats.is_full(cells.as_slice(), key);
    enter(alloc, far, cells, key, slot, is_far)?;
    link(seats, cells, place);
    Ok(())
}

impl Cells {
    pub fn new(alloc: Global) -> Cells
        ensures { result ≡ [] }
    {
        Cells {
            far: BTreeMap::new(alloc),
            cells: Vec::new(alloc),
            seats: Seats::new(alloc),
            left: 0,
        }
    }

    #[inline(always)]
    pub fn find(&self, key: &Key) -> Option<&Slot>
        ensures { option_copied result ≡ slot_at key.now self.now }
    {
        let place = place_of(&self.far, self.cells.as_slice(), &self.seats, key)?;
        slot_in(self.cells.as_slice(), place)
    }

    /// The slots by their keys, in order.
    pub fn rows(&self, alloc: Global) -> Result<Vec<(&Key, &Slot)>, Memory>
        ensures { IfOk result (λ rows. map deref_pair rows.items ≡ self.now) }
    {
        rows_in(alloc, self.cells.as_slice())
    }

    /// Sets what stands at a key that has a cell, and tells when what stood there came in, where it was a
    /// removal. Where the key has none, the slot is given back. This takes no memory.
    #[inline(always)]
    pub fn put(&mut self, key: &Key, slot: Slot) -> Result<Option<u64>, Slot>
        ensures before { IfOk result (λ before. before ≡ removed_at (slot_at key.now self.old)) }
        ensures ok { OnOk result (self.new ≡ with_slot key.now slot self.old) }
        ensures same { OnErr result (self.new ≡ self.old) }
        ensures absent { OnErr result (slot_at key.now self.old ≡ None) }
        ensures back { IfErr result (λ back. back ≡ slot) }
        ensures ordered { IsStrictlySortedBy (slice_cmp nat_cmp) (keys_of self.new) }
    {
        match place_of(&self.far, self.cells.as_slice(), &self.seats, key) {
            Some(place) => Ok(put_in(&mut self.cells, place, slot)),
            None => Err(slot),
        }
    }

    /// Sets what stands at the key, and tells when what stood there came in, where it was a removal.
    #[inline(always)]
    pub fn set(&mut self, alloc: Global, key: &Key, slot: Slot) -> (Option<u64>, Result<(), Memory>)
        ensures before { result.0 ≡ removed_at (slot_at key.now self.old) }
        ensures ok { OnOk result.1 (self.new ≡ with_slot key.now slot self.old) }
        ensures err { OnErr result.1 (self.new ≡ self.old) }
    {
        match place_of(&self.far, self.cells.as_slice(), &self.seats, key) {
            Some(place) => (put_in(&mut self.cells, place, slot), Ok(())),
            None => (
                None,
                add(
                    alloc,
                    &mut self.far,
                    &mut self.cells,
                    &mut self.seats,
                    key,
                    slot,
                ),
            ),
        }
    }

    // Lets go of cells at which nothing stands, where they may be more than half of all.
    fn pack(&mut self)
        ensures { self.new ≡ self.old }
    {
        if self.left > self.cells.len() / 2 {
            pack(&self.far, &mut self.cells, &mut self.seats);
            self.left = 0;
        }
    }

    /// Takes away what stands at the key.
    pub fn leave(&mut self, key: &Key) -> Option<Slot>
        ensures slot { result ≡ slot_at key.now self.old }
        ensures gone { self.new ≡ without key.now self.old }
        ensures ordered { IsStrictlySortedBy (slice_cmp nat_cmp) (keys_of self.new) }
    {
        let left = self.take(key);
        self.left = self.left.saturating_add(1);
        self.pack();
        left
    }

    // The same, by which the key keeps its cell.
    fn take(&mut self, key: &Key) -> Option<Slot>
        ensures slot { result ≡ slot_at key.now self.old }
        ensures gone { self.new ≡ without key.now self.old }
        ensures ordered { IsStrictlySortedBy (slice_cmp nat_cmp) (keys_of self.new) }
    {
        match place_of(&self.far, self.cells.as_slice(), &self.seats, key) {
            Some(place) => take_in(&mut self.cells, place),
            None => None,
        }
    }
}
