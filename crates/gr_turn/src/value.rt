ghost use Rattle.std.specs.Prelude.{◌≡◌, []};
ghost use Rattle.std.specs.Borrow.{Lends, sem};
ghost use mir.Syntax.{named};
ghost use Rattle.gr_turn.specs.contracts.lock.Turn.{the_row};

use crate::kept::Kept;
use crate::lock::Turn;

impl<'a, T: Kept> Turn<'a, T> {
    pub fn value(&self) -> &T
        ensures { result.now ≡ self.now.value }
    {
        &self.value
    }

    /// Lends the value to be changed. What is written becomes the turn's value, and the seat stays as it is.
    pub fn value_mut(&mut self) -> &mut T
        ensures* writes_back { sem 𝓛 (Lends (the_row (record { mir = named 1; lft = [] }) T.row T.Entry.row T.Base.row T.Kept) T.row self.entry result (λ w. record self.old { value = w })) }
        ensures shows { result.now ≡ self.old.value }
    {
        &mut self.value
    }
}
