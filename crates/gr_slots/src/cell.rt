ghost use Rattle.std.specs.Prelude.{◌≡◌, option_copied};
ghost use Rattle.std.specs.List.{slice_get};

use crate::Slot;
use gr_value::Key;

/// A key and what stands at it. What each look at a key needs stands first, since a cell may lie across
/// two lines of memory. The cells whose keys have one seat are a chain, in which each has the
/// place, plus 1, of the next older one, or 0.
#[derive(Drop)]
pub struct Cell {
    pub key: Key,
    pub next: u32,
    /// Whether it is in no chain.
    pub far: bool,
    /// Whether something stands at the key.
    pub live: bool,
    pub slot: Slot,
}

/// The cell at a place.
#[inline(always)]
pub fn cell_at(cells: &[Cell], place: usize) -> Option<&Cell>
    ensures { option_copied result ≡ slice_get cells.now place }
{
    cells.get(place)
}
