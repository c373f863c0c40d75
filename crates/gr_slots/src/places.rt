ghost use Rattle.std.specs.Prelude.{◌≡◌, ◌≢◌, ◌==◌, ◌<◌, ◌++◌, ◌∷◌, [], ℕ, List, Some, None, true, false, ◌&&◌, OnOk, OnErr, IfOk, cond, length, map, option_copied};
ghost use Rattle.std.specs.Ordering.{nat_cmp};
ghost use Rattle.std.specs.Cmp.Lexicographic.{slice_cmp};
ghost use Rattle.std.specs.BTreeMap.{get, is_at, IsOrdered};
ghost use Rattle.std.specs.Map.Iter.{deref_pair};
ghost use Rattle.gr_slots.specs.Slots.{removed_at, with_slot};
ghost use Rattle.gr_slots.specs.Cells.{key_in, near_in, slot_in, rows_in, rows_of, standing, AreApart, AreTied, IsPlaceOf};
ghost use Rattle.gr_slots.specs.Links.{next_in, IsKept};

use crate::Slot;
use crate::cell::{Cell, cell_at};
use crate::removals::removed_at;
use crate::seats::Seats;
use crate::walk::{Met, walk};
use gr_stamp::Kind;
use gr_value::{Copied, Key, Memory};
use std::alloc::Global;
use std::collections::BTreeMap;
use std::mem;

// The place of a key among those that are in no chain.
#[inline(always)]
fn search(far: &BTreeMap<Key, usize>, key: &Key) -> Option<usize>
    ensures { result ≡ get (slice_cmp nat_cmp) far.now key.now }
{
    far.get(key).copied()
}

// The place of a key, by a look at each cell. No chain is so long that one is needed.
#[inline(never)]
fn scan(cells: &[Cell], key: &Key) -> Option<usize>
    ensures { IsPlaceOf cells.now key.now result }
{
    for place in 0..cells.len() {
        if cells[place].key == *key {
            return Some(place);
        }
    }
    None
}

/// The place of a key's cell.
#[inline(always)]
pub fn place_of(
    far: &BTreeMap<Key, usize>,
    cells: &[Cell],
    seats: &Seats,
    key: &Key,
) -> Option<usize>
    requires tied { AreTied far.now cells.now }
    requires kept { IsKept seats.now cells.now }
    ensures { IsPlaceOf cells.now key.now result }
{
    match walk(seats, cells, key) {
        Met::Place(place) => Some(place),
        Met::End => search(far, key),
        Met::Lost => scan(cells, key),
    }
}

// What stands in a cell.
#[inline(always)]
fn standing(cell: &Cell) -> Option<&Slot>
    ensures { option_copied result ≡ standing cell.now }
{
    if cell.live { Some(&cell.slot) } else { None }
}

/// What stands at a place.
#[inline(always)]
pub fn slot_in(cells: &[Cell], place: usize) -> Option<&Slot>
    ensures { option_copied result ≡ slot_in cells.now place }
{
    standing(cell_at(cells, place)?)
}

/// Puts what is to stand into the cell at a place, and tells when what stood there came in, where it
/// was a removal.
#[inline(always)]
pub fn put_in(cells: &mut Vec<Cell>, place: usize, slot: Slot) -> Option<u64>
    requires { place < length cells.old.items }
    ensures before { result ≡ removed_at (slot_in cells.old.items place) }
    ensures keys { (other : ℕ) → key_in cells.new.items other ≡ key_in cells.old.items other }
    ensures nears { (other : ℕ) → near_in cells.new.items other ≡ near_in cells.old.items other }
    ensures slots { (other : ℕ) → slot_in cells.new.items other ≡ cond (other == place) (Some slot) (slot_in cells.old.items other) }
    ensures nexts { (other : ℕ) → next_in cells.new.items other ≡ next_in cells.old.items other }
    ensures length { length cells.new.items ≡ length cells.old.items }
{
    let cell = &mut cells[place];
    let lived = mem::replace(&mut cell.live, true);
    let before = mem::replace(&mut cell.slot, slot);
    if lived {
        removed_at(Some(&before))
    } else {
        None
    }
}

/// Takes what stands out of the cell at a place. The cell stays, for its key.
pub fn take_in(cells: &mut Vec<Cell>, place: usize) -> Option<Slot>
    requires { place < length cells.old.items }
    ensures slot { result ≡ slot_in cells.old.items place }
    ensures keys { (other : ℕ) → key_in cells.new.items other ≡ key_in cells.old.items other }
    ensures nears { (other : ℕ) → near_in cells.new.items other ≡ near_in cells.old.items other }
    ensures slots { (other : ℕ) → slot_in cells.new.items other ≡ cond (other == place) None (slot_in cells.old.items other) }
    ensures nexts { (other : ℕ) → next_in cells.new.items other ≡ next_in cells.old.items other }
    ensures length { length cells.new.items ≡ length cells.old.items }
{
    let cell = &mut cells[place];
    let lived = mem::replace(&mut cell.live, false);
    let nothing = Slot {
        kind: Kind::Remove,
        taken_at: 0,
        stamp: cell.slot.stamp,
    };
    let before = mem::replace(&mut cell.slot, nothing);
    lived.then_some(before)
}

// Gives a key a place among those that are in no chain.
fn add_place(far: &mut BTreeMap<Key, usize>, key: Key, place: usize) -> Result<(), Memory>
    ensures ok { OnOk result ((q : List ℕ) → get (slice_cmp nat_cmp) far.new q
        ≡ cond (is_at (slice_cmp nat_cmp key) q) (Some place) (get (slice_cmp nat_cmp) far.old q)) }
    ensures err { OnErr result (far.new.entries ≡ far.old.entries) }
    ensures ordered { IsOrdered (slice_cmp nat_cmp) far.new }
{
    match far.insert(key, place) {
        Ok(_) => Ok(()),
        Err(_) => Err(Memory),
    }
}

fn add_far(
    alloc: Global,
    far: &mut BTreeMap<Key, usize>,
    key: &Key,
    place: usize,
    is_far: bool,
) -> Result<(), Memory>
    requires { IsOrdered (slice_cmp nat_cmp) far.old }
    ensures ok { OnOk result ((q : List ℕ) → get (slice_cmp nat_cmp) far.new q
        ≡ cond (is_far && is_at (slice_cmp nat_cmp key.now) q) (Some place) (get (slice_cmp nat_cmp) far.old q)) }
    ensures err { OnErr result (far.new.entries ≡ far.old.entries) }
    ensures ordered { IsOrdered (slice_cmp nat_cmp) far.new }
{
    if is_far {
        add_place(far, key.copy(alloc)?, place)
    } else {
        Ok(())
    }
}

/// Gives a key that has no cell the next one, which is to be in no chain or isn't linked yet.
#[inline(never)]
pub fn enter(
    alloc: Global,
    far: &mut BTreeMap<Key, usize>,
    cells: &mut Vec<Cell>,
    key: &Key,
    slot: Slot,
    is_far: bool,
) -> Result<(), Memory>
    requires tied { AreTied far.old cells.old.items }
    requires absent { IsPlaceOf cells.old.items key.now None }
    ensures tied { AreTied far.new cells.new.items }
    ensures ok { OnOk result (rows_in cells.new.items ≡ with_slot key.now slot (rows_in cells.old.items)) }
    ensures grown { OnOk result (cells.new.items ≡ cells.old.items
        ++ record { key = key.now; slot = slot; live = true; far = is_far; next = 0 } ∷ []) }
    ensures same { OnErr result (cells.new.items ≡ cells.old.items) }
{
    let place = cells.len();
    let own = key.copy(alloc)?;
    cells.reserve(1)?;
    add_far(alloc, far, key, place, is_far)?;
    cells.push_reserved(Cell {
        key: own,
        next: 0,
        far: is_far,
        live: true,
        slot,
    });
    Ok(())
}

// Puts the row of a cell last, if something stands there.
fn push_row<'a>(rows: &mut Vec<(&'a Key, &'a Slot)>, cell: &'a Cell) -> Result<(), Memory>
    ensures { OnOk result (map deref_pair rows.new.items ≡ map deref_pair rows.old.items ++ rows_of (cell.now ∷ [])) }
{
    if cell.live {
        rows.push((&cell.key, &cell.slot))?;
    }
    Ok(())
}

// The rows of the cells at which something stands, in the order of the cells.
fn rows_of<'a>(alloc: Global, cells: &'a [Cell]) -> Result<Vec<(&'a Key, &'a Slot)>, Memory>
    ensures { IfOk result (λ rows. map deref_pair rows.items ≡ rows_of cells.now) }
{
    let mut rows = Vec::new(alloc);
    for cell in cells {
        push_row(&mut rows, cell)?;
    }
    Ok(rows)
}

/// What stands at each key, in the order of the keys.
pub fn rows_in<'a>(alloc: Global, cells: &'a [Cell]) -> Result<Vec<(&'a Key, &'a Slot)>, Memory>
    requires { AreApart cells.now }
    ensures { IfOk result (λ rows. map deref_pair rows.items ≡ rows_in cells.now) }
{
    let mut rows = rows_of(alloc, cells)?;
    rows.sort_unstable_by_key(|row| row.0);
    Ok(rows)
}
