ghost use Rattle.std.specs.Prelude.{◌≡◌, ◌++◌, ℕ, List, length};
ghost use mathlib.Core.List.{IsPrefix};
ghost use Rattle.gr_oql.specs.declared.event.Turned.{Turned};
ghost use Rattle.gr_history.specs.declared.deed.Deed.{Deed};
ghost use Rattle.gr_history.specs.Standing.{present};
ghost use Rattle.gr_history.specs.Places.{at_place};
ghost use Rattle.gr_peek.specs.Publications.{present_after};
ghost use Rattle.gr_peek_law.specs.Turns.{turned_each};

/// Where what is published is, deed by deed, the turned keys of a history: there are as many publications
/// as deeds, further deeds only add some, and a beginning of them shows what was present at its place in
/// the history.
pub fn publications_show_the_history()
    ensures count { (past : List Deed) → length (turned_each past) ≡ length past }
    ensures grows { (more past : List Deed) → IsPrefix (turned_each past) (turned_each (more ++ past)) }
    ensures whole { (past : List Deed) (key : List ℕ) → present_after (turned_each past) key ≡ present key past }
    ensures place { (past : List Deed) (known : List (List Turned)) → IsPrefix known (turned_each past)
        → known ≡ turned_each (at_place (length known) past) }
    ensures shows { (past : List Deed) (known : List (List Turned)) (key : List ℕ) → IsPrefix known (turned_each past)
        → present_after known key ≡ present key (at_place (length known) past) }
{}
