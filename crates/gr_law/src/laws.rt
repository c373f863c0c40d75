ghost use Rattle.gr_law.specs.Integrity.{IsParted, IsSound, IsWhole};
ghost use Rattle.std.specs.Prelude.{◌≡◌, ℕ, List, Some, None};
ghost use Rattle.gr_history.specs.declared.deed.Deed.{Deed};
ghost use Rattle.gr_history.specs.Standing.{standing};
ghost use Rattle.gr_history.specs.Floor.{floor};
ghost use Rattle.gr_law.specs.Small.{key, second, history_3, small};
ghost use Rattle.gr_law.specs.Grids.{Grid, at_place};
ghost use Rattle.gr_law.specs.Broken.{Breaks, key_lost, known_unseen, equal_versions, tombstone_again, removal_ignored, put_ignored, one_stamp};
ghost use Rattle.gr_law.specs.Broken.{row_missing, event_missing};
ghost use Rattle.gr_law.specs.Laws.{law_0, law_1, law_2, law_3, same_value, same_entry, law_4, law_5};
ghost use Rattle.gr_law.specs.Queries.{IsAnswered};
ghost use Rattle.gr_law.specs.QueryMaps.{KeepsUp, law_queries};

/// Where each history is lawful, and what was taken in was made and what was merged was given: what a
/// member knows of a key is reached by what stands or by the floor; a new change has a greater version
/// than all of its key that its maker had taken in; and an image carries on what its giver had.
pub fn laws_of_sound_records()
    ensures law_0 { (grid : Grid) → IsSound grid → law_0 grid }
    ensures law_1 { (grid : Grid) → IsSound grid → law_1 grid }
    ensures law_5 { (grid : Grid) → IsSound grid → law_5 grid }
{}

/// Where the steps on a query were answered lawfully: where it runs, the rows of its opening followed by
/// its events since are its result over what is present, at each key and as maps, and the opening stands
/// in the history; and what was handed out is those events, up to its stop where it is stopped.
pub fn laws_of_queries()
    ensures one_history { (client : ℕ) (name : List ℕ) (history : List Deed) → IsAnswered history → KeepsUp client name history }
    ensures all_histories { (grid : Grid) → IsSound grid → law_queries grid }
{}

/// Where each report that was heard was made too: what comes in late beats each tombstone of its key
/// that had expired; what is present is what all that was taken in leaves, so members that took in the
/// same changes of a key have the same value, and where a put stands, the same change with its stamp; and
/// a put that stands beats each removal that was taken in.
pub fn laws_of_whole_records()
    ensures law_2 { (grid : Grid) → IsWhole grid → law_2 grid }
    ensures law_3 { (grid : Grid) → IsWhole grid → law_3 grid }
    ensures same_value { (grid : Grid) → IsWhole grid → same_value grid }
    ensures same_entry { (grid : Grid) → IsWhole grid → same_entry grid }
    ensures law_4 { (grid : Grid) → IsWhole grid → law_4 grid }
{}

/// The same where members may have left for good: each report that was heard was made, or it is a closing
/// report, which is heard in the name of a member that left. Of that member's changes the others know at the
/// end what they knew there.
pub fn laws_of_parted_records()
    ensures law_2 { (grid : Grid) → IsParted grid → law_2 grid }
    ensures law_3 { (grid : Grid) → IsParted grid → law_3 grid }
    ensures same_value { (grid : Grid) → IsParted grid → same_value grid }
    ensures same_entry { (grid : Grid) → IsParted grid → same_entry grid }
    ensures law_4 { (grid : Grid) → IsParted grid → law_4 grid }
{}

/// There are whole records with removals, reports, sweeps and images, so the laws aren't empty: in this
/// one an image drops a tombstone, and the put that is made after it stands.
pub fn a_small_record_is_whole()
    ensures whole { IsWhole small }
    ensures dropped { standing key (at_place 4 history_3) ≡ None }
    ensures floor { floor 0 history_3 ≡ 2 }
    ensures stands { standing key history_3 ≡ Some second }
{}

/// Each law is broken by some record, so it says something: a law that is said a little too weakly would
/// hold of the record that breaks it here.
pub fn bad_records_break_the_laws()
    ensures law_0 { Breaks law_0 known_unseen }
    ensures law_1 { Breaks law_1 equal_versions }
    ensures law_2 { Breaks law_2 tombstone_again }
    ensures law_3 { Breaks law_3 removal_ignored }
    ensures stands { Breaks law_3 put_ignored }
    ensures there { Breaks law_3 key_lost }
    ensures same_value { Breaks same_value removal_ignored }
    ensures same_key { Breaks same_value key_lost }
    ensures same_entry { Breaks same_entry put_ignored }
    ensures law_4 { Breaks law_4 one_stamp }
    ensures law_5 { Breaks law_5 removal_ignored }
    ensures rows { Breaks law_queries row_missing }
    ensures events { Breaks law_queries event_missing }
{}
