ghost use Rattle.std.specs.Prelude.{◌≡◌, [], ◌∷◌, true, false, None, codes};
ghost use Rattle.gr_history.specs.Regions.{keys};
ghost use Rattle.gr_history.specs.Standing.{there, present};
ghost use Rattle.gr_history.specs.Lawful.{IsLawful};
ghost use Rattle.gr_history.specs.Queries.{rows_of};
ghost use Rattle.gr_history.specs.QueryRows.{dear, query_events, still_dear, query_states, invalidated, put_behind, again, destroyed};
ghost use Rattle.gr_history.specs.Rows.{member_in};

/// A query is told of each change that enters its result, changes in it or leaves it, once.
#[tactic(auto, unfolding(crate::specs::Recipients::recipients))]
pub fn a_query_is_told_of_changes()
    ensures lawful { IsLawful (member_in 1 1 1) 0 query_events }
    ensures left { rows_of dear query_events ≡ still_dear }
{}

/// A client's queries are opened, fetched from, stopped and closed, each for itself.
#[tactic(auto, unfolding(crate::specs::Recipients::recipients))]
pub fn a_query_is_stopped_and_closed()
    ensures { IsLawful (member_in 2 2 2) 0 query_states }
{}

/// An invalidated key is there without a value. A query is told that its value left the result, and the
/// put behind it is an update of the region.
#[tactic(auto, unfolding(crate::specs::Recipients::recipients))]
pub fn an_invalidated_key_stays()
    ensures lawful { IsLawful (member_in 2 2 2) 0 put_behind }
    ensures there { there (codes "a") invalidated ≡ true }
    ensures absent { present (codes "a") invalidated ≡ None }
    ensures again { IsLawful (member_in 2 2 2) 0 again }
    ensures destroyed { IsLawful (member_in 2 2 2) 0 destroyed }
    ensures gone { there (codes "a") destroyed ≡ false }
    ensures keys { keys put_behind ≡ codes "a" ∷ [] }
{}
