ghost use Rattle.std.specs.Prelude.{◌≡◌, [], ◌∷◌, reverse};
ghost use Rattle.gr_script.specs.Rules.{IsScript};
ghost use Rattle.gr_world.specs.Courses.{course};
ghost use Rattle.gr_world.specs.Events.{history};
ghost use Rattle.gr_world.specs.Rows.{two_members, three_members, concurrent, concurrent_course, repeated, repeated_history, joining};
ghost use Rattle.gr_world.specs.Rows.{giver_history, joiner_history, one_key, unjoined, unjoined_giver, late_joiner, given, swept};

/// Of two puts that neither maker knew of the other's, the one of the greater member stands at both.
pub fn concurrent_puts_meet()
    ensures script { IsScript two_members (reverse concurrent) }
    ensures course { course two_members concurrent ≡ concurrent_course }
{}

/// What comes again changes nothing.
pub fn a_repeat_is_told()
    ensures script { IsScript two_members (reverse repeated) }
    ensures history { history 2 0 (course two_members repeated) ≡ repeated_history }
{}

/// A member that reports, hears, sweeps and joins: an image drops a tombstone that had expired.
pub fn an_image_drops_a_tombstone()
    ensures script { IsScript three_members (reverse joining) }
    ensures giver { history 2 0 (course three_members joining) ≡ giver_history }
    ensures joiner { history 3 0 (course three_members joining) ≡ joiner_history }
{}

/// A tombstone doesn't wait for a member that never joined, whose image drops what it had.
pub fn a_joiner_that_never_joined_is_not_waited_for()
    ensures giver { history 2 0 (course three_members unjoined) ≡ unjoined_giver }
    ensures joiner { history 3 0 (course three_members unjoined) ≡ late_joiner }
{}

/// It waits for a member that was given something.
pub fn a_joiner_that_was_given_to_is_waited_for()
    ensures { swept (history 1 0 (course three_members given)) ≡ (one_key ∷ []) ∷ [] ∷ [] }
{}
