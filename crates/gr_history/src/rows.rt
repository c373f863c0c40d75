ghost use Rattle.std.specs.Prelude.{◌≡◌, [], ◌∷◌, Some, None, count_by};
ghost use Rattle.gr_history.specs.declared.ask.Ask.TheVariants as ask;
ghost use Rattle.gr_history.specs.declared.deed.Deed.TheVariants as deed;
ghost use Rattle.gr_history.specs.declared.image.What.TheVariants as what;
ghost use Rattle.gr_history.specs.declared.reply.Reply.TheVariants.{NotReady};
ghost use Rattle.gr_history.specs.Calls.{call_gives, nothing_made};
ghost use Rattle.gr_history.specs.Clock.{clock, since};
ghost use Rattle.gr_history.specs.Deeds.{is_discarded, is_repeat};
ghost use Rattle.gr_history.specs.Floor.{floor};
ghost use Rattle.gr_history.specs.Ids.{known};
ghost use Rattle.gr_history.specs.Lawful.{IsLawful};
ghost use Rattle.gr_history.specs.Recipients.{recipients};
ghost use Rattle.gr_history.specs.Rows.{member_in, one_key, some_value, id_number, last_put, second_report, first_behind};
ghost use Rattle.gr_history.specs.Rows.{first_early, first_swept};
ghost use Rattle.gr_history.specs.Rows.{bare_image, first_whole, second_swept, second_whole};
ghost use Rattle.gr_history.specs.Stable.{due, last_heard};
ghost use Rattle.gr_history.specs.Standing.{standing, present};

/// A tombstone expires 600 seconds after it came in, once the other member has reported it. A put
/// behind it has a greater version than it had.
#[tactic(auto, unfolding(crate::specs::Recipients::recipients, crate::specs::Stable::is_stable))]
pub fn a_put_passes_an_expired_tombstone()
    ensures lawful { IsLawful (member_in 1 2 2) 0 first_whole }
    ensures expired { standing one_key first_swept ≡ None }
    // Not while a change that the other had made by then is missing.
    ensures missing { due (member_in 1 2 2) 600 first_behind ≡ [] }
    ensures floor { floor 0 first_whole ≡ 2 }
    ensures clock { clock first_early ≡ 599 }
    ensures since { since one_key first_whole ≡ 600 }
    ensures stands { standing one_key first_whole ≡ Some last_put }
    ensures known { known first_whole ≡ id_number 1 3 ∷ id_number 1 2 ∷ id_number 1 1 ∷ [] }
{}

/// A put that comes behind its removal loses, and so does the removal to the put that came last. A
/// member that heard nothing of the other lets nothing expire.
#[tactic(auto, unfolding(crate::specs::Recipients::recipients, crate::specs::Stable::is_stable))]
pub fn a_late_put_is_discarded()
    ensures lawful { IsLawful (member_in 2 2 2) 0 second_whole }
    ensures absent { present one_key second_swept ≡ None }
    ensures kept { due (member_in 2 2 2) 6000 second_swept ≡ [] }
    ensures floor { floor 0 second_whole ≡ 0 }
    ensures present { present one_key second_whole ≡ Some some_value }
    ensures discarded { count_by is_discarded second_whole ≡ 1 }
    ensures repeats { count_by is_repeat second_whole ≡ 1 }
{}

/// A joiner isn't ready before its image, and changes go to it from the first gift on. Of two reports
/// the one that was made later counts, also where it is heard first.
#[tactic(auto, unfolding(crate::specs::Recipients::recipients))]
pub fn a_joiner_waits_for_its_image()
    ensures not_ready { call_gives (member_in 3 3 2) 0 [] (ask.Get one_key) ≡ nothing_made NotReady }
    ensures before { recipients (member_in 1 3 2) [] ≡ 2 }
    ensures behind { recipients (member_in 1 3 2) (deed.Gave 3 what.Own ∷ []) ≡ 6 }
    // It takes the image's floor over.
    ensures floor { floor 0 (deed.Imaged bare_image ∷ []) ≡ 5 }
    ensures heard { last_heard 2 (deed.Heard (record second_report { at = 1 }) ∷ deed.Heard second_report ∷ []) ≡ Some second_report }
{}

/// A member that never joined holds no tombstone back. One that was given something does, and one that a
/// founder's report names, until its own report is heard.
#[tactic(auto, unfolding(crate::specs::Recipients::recipients, crate::specs::Stable::is_stable))]
pub fn a_joiner_counts_once_it_is_given_to()
    ensures unjoined { due (member_in 1 3 2) 600 first_early ≡ one_key ∷ [] }
    ensures given { due (member_in 1 3 2) 600 (deed.Gave 3 what.Own ∷ first_early) ≡ [] }
    ensures named { due (member_in 1 3 2) 600 (deed.Heard (record second_report { at = 3; to = 5 }) ∷ first_early) ≡ [] }
    ensures heard { due (member_in 1 3 2) 600
        (deed.Heard (record second_report { member = 3; to = 3 }) ∷ deed.Gave 3 what.Own ∷ first_early) ≡ one_key ∷ [] }
{}
