ghost use Rattle.std.specs.Prelude.{◌≡◌, filter};
ghost use Rattle.gr_slots.specs.Cells.{rows_in, AreTied};
ghost use Rattle.gr_slots.specs.Links.{IsKept};

use crate::cell::Cell;
use crate::seats::{Seats, link_all};
use gr_value::Key;
use std::collections::BTreeMap;

// Lets go of the cells at which nothing stands.
fn drop_empty(cells: &mut Vec<Cell>)
    ensures { cells.new.items ≡ filter (λ cell. cell.live) cells.old.items }
{
    cells.retain(|cell| cell.live);
}

/// Lets go of the cells at which nothing stands, and links the others anew, where all are in chains. This
/// takes no memory, and time in proportion to the cells.
pub fn pack(far: &BTreeMap<Key, usize>, cells: &mut Vec<Cell>, seats: &mut Seats)
    requires tied { AreTied far.now cells.old.items }
    requires kept { IsKept seats.old cells.old.items }
    ensures tied { AreTied far.now cells.new.items }
    ensures kept { IsKept seats.new cells.new.items }
    ensures rows { rows_in cells.new.items ≡ rows_in cells.old.items }
{
    if !far.is_empty() {
        return;
    }
    if cells.len() > u32::MAX as usize {
        return;
    }
    drop_empty(cells);
    seats.clear();
    link_all(seats, cells);
}
