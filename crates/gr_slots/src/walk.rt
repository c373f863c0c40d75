ghost use Rattle.gr_slots.specs.Links.{Tells};

use crate::cell::{Cell, cell_at};
use crate::seats::{MOST_CELLS, Seats};
use gr_value::Key;

/// How many links of a chain are looked at: those to all its cells, and that to its end.
const MOST_STEPS: u8 = MOST_CELLS + 1;

/// How a walk along a chain went: it met the key's cell, or came to the chain's end, or was given up.
#[derive(Clone, Copy)]
pub enum Met {
    Place(usize),
    End,
    Lost,
}

/// Walks along the chain of a key's seat.
#[inline(always)]
pub fn walk(seats: &Seats, cells: &[Cell], key: &Key) -> Met
    ensures { Tells seats.now cells.now key.now result }
{
    let Some(head) = seats.head(key) else {
        return Met::Lost;
    };
    let mut at = head;
    for _ in 0..MOST_STEPS {
        if at == 0 {
            return Met::End;
        }
        let place = at as usize - 1;
        let Some(cell) = cell_at(cells, place) else {
            return Met::Lost;
        };
        if cell.key == *key {
            return Met::Place(place);
        }
        at = cell.next;
    }
    Met::Lost
}
