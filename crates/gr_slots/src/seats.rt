ghost use Rattle.std.specs.Prelude.{◌≡◌, ◌<◌, ◌+◌, ℕ, List, length, IfOk};
ghost use Rattle.std.specs.List.{slice_get, slice_set};
ghost use Rattle.gr_slots.specs.Cells.{key_in, near_in, slot_in};
ghost use Rattle.gr_slots.specs.Links.{seat_of, AreLinked, IsKept};

use crate::cell::{Cell, cell_at};
use gr_value::{Key, Memory};
use std::alloc::Global;

/// The fewest seats, where there are some.
const FEWEST: u32 = 64;

/// The most cells of a chain. So keys that were chosen to have one seat cost a few steps more than a
/// search of the ordered map.
pub const MOST_CELLS: u8 = 8;

/// Each key has one of so many seats, by its hash, and the cells of the keys of one seat are a chain.
/// A seat has the place, plus 1, of the newest cell of its chain, or 0.
#[derive(Drop)]
pub struct Seats {
    pub size: u32,
    pub heads: Vec<u32>,
}

impl Seats {
    pub fn new(alloc: Global) -> Seats
        ensures { (cells : List Cell) → length cells ≡ 0 → IsKept result cells }
    {
        Seats {
            size: 0,
            heads: Vec::new(alloc),
        }
    }

    // So many seats without chains.
    fn wide(alloc: Global, size: u32) -> Result<Seats, Memory>
        ensures { IfOk result (λ seats. (cells : List Cell) → AreLinked seats cells 0) }
    {
        Ok(Seats {
            size,
            heads: vec![in alloc; 0; size as usize]?,
        })
    }

    /// Leaves all seats without chains.
    pub fn clear(&mut self)
        ensures { (cells : List Cell) → AreLinked self.new cells 0 }
    {
        self.heads.fill(0);
    }

    // Which seat a key has.
    #[inline(always)]
    fn seat(&self, key: &Key) -> usize
        ensures { result ≡ seat_of self.now.size key.now }
    {
        ((u64::from(key.hash()) * u64::from(self.size)) >> 32) as usize
    }

    /// Where the chain of a key's seat begins.
    #[inline(always)]
    pub fn head(&self, key: &Key) -> Option<u32>
        ensures { result ≡ slice_get self.now.heads.items (seat_of self.now.size key.now) }
    {
        self.heads.get(self.seat(key)).copied()
    }

    // Sets where the chain of a key's seat begins.
    #[inline(always)]
    fn set_head(&mut self, key: &Key, at: u32)
        ensures heads { self.new.heads.items ≡ slice_set self.old.heads.items (seat_of self.old.size key.now) at }
        ensures size { self.new.size ≡ self.old.size }
    {
        let seat = self.seat(key);
        if let Some(head) = self.heads.get_mut(seat) {
            *head = at;
        }
    }

    /// Whether the chain of a key's seat has as many cells as it may have. Nothing rests on it but time.
    pub fn is_full(&self, cells: &[Cell], key: &Key) -> bool {
        let Some(head) = self.head(key) else {
            return true;
        };
        let mut at = head;
        for _ in 0..MOST_CELLS {
            if at == 0 {
                return false;
            }
            let Some(cell) = cell_at(cells, at as usize - 1) else {
                return true;
            };
            at = cell.next;
        }
        true
    }
}

/// Puts a cell in front of the chain of its key's seat, where those before it are linked, if it isn't to
/// be in no chain.
pub fn link(seats: &mut Seats, cells: &mut Vec<Cell>, place: usize)
    requires within { place < length cells.old.items }
    requires few { length cells.old.items < 4294967296 }
    ensures linked { AreLinked seats.old cells.old.items place → AreLinked seats.new cells.new.items (place + 1) }
    ensures keys { (other : ℕ) → key_in cells.new.items other ≡ key_in cells.old.items other }
    ensures nears { (other : ℕ) → near_in cells.new.items other ≡ near_in cells.old.items other }
    ensures slots { (other : ℕ) → slot_in cells.new.items other ≡ slot_in cells.old.items other }
    ensures length { length cells.new.items ≡ length cells.old.items }
{
    let cell = &mut cells[place];
    if cell.far {
        return;
    }
    cell.next = seats.head(&cell.key).unwrap_or(0);
    seats.set_head(&cell.key, place as u32 + 1);
}

/// Links all cells, where none is linked yet.
pub fn link_all(seats: &mut Seats, cells: &mut Vec<Cell>)
    requires few { length cells.old.items < 4294967296 }
    requires none { AreLinked seats.old cells.old.items 0 }
    ensures linked { AreLinked seats.new cells.new.items (length cells.new.items) }
    ensures keys { (other : ℕ) → key_in cells.new.items other ≡ key_in cells.old.items other }
    ensures nears { (other : ℕ) → near_in cells.new.items other ≡ near_in cells.old.items other }
    ensures slots { (other : ℕ) → slot_in cells.new.items other ≡ slot_in cells.old.items other }
    ensures length { length cells.new.items ≡ length cells.old.items }
{
    let mut place = 0;
    while place < cells.len() {
        link(seats, cells, place);
        place += 1;
    }
}

// With twice the seats each seat's keys are two seats' keys, so no chain becomes longer.
/// Makes room for the seats of so many keys: twice the seats, where there would be fewer than keys.
pub fn make_room(
    alloc: Global,
    seats: &mut Seats,
    cells: &mut Vec<Cell>,
    keys: u32,
) -> Result<(), Memory>
    requires more { length cells.old.items < keys }
    requires kept { IsKept seats.old cells.old.items }
    ensures kept { IsKept seats.new cells.new.items }
    ensures keys { (other : ℕ) → key_in cells.new.items other ≡ key_in cells.old.items other }
    ensures nears { (other : ℕ) → near_in cells.new.items other ≡ near_in cells.old.items other }
    ensures slots { (other : ℕ) → slot_in cells.new.items other ≡ slot_in cells.old.items other }
    ensures length { length cells.new.items ≡ length cells.old.items }
{
    if seats.size < keys {
        *seats = Seats::wide(alloc, seats.size.saturating_mul(2).max(FEWEST))?;
        link_all(seats, cells);
    }
    Ok(())
}
