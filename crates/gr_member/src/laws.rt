ghost use Rattle.std.specs.Prelude.{ℕ, List, Ok};
ghost use Rattle.gr_history.specs.declared.deed.Deed.{Deed};
ghost use Rattle.gr_peek.specs.declared.eye.Seen.{Seen};
ghost use Rattle.gr_peek.specs.Entering.{Follows};
ghost use Rattle.gr_value.specs.Lists.{StartsWith};
ghost use Rattle.gr_member.specs.Seats.{Place, Peeks, LooksUp};
ghost use Rattle.gr_member.specs.Peeked.{IsPeekOf};

/// What a pass saw at a shard before it looked there is what is present at a place of the history, which
/// begins with all that its seat has seen after the look. Whatever the pass does between the peek and the
/// look, its eye follows.
pub fn earlier_peeks_are_of_the_history()
    ensures { (key : List ℕ) (seen : Seen) (r s t u : Place) (history : List Deed) → Peeks key (Ok seen) r s → Follows s.eye t.eye
        → LooksUp t u → StartsWith history u.view.seen → IsPeekOf key seen history }
{}
