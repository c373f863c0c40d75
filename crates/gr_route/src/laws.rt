ghost use Rattle.std.specs.Prelude.{◌≡◌, ◌↔◌, List, Bool, true, false, None, filter};
ghost use Rattle.gr_value.specs.declared.value.Field.{Field};
ghost use Rattle.gr_oql.specs.declared.event.Turned.{Turned};
ghost use Rattle.gr_oql.specs.declared.must.Must.{Must};
ghost use Rattle.gr_oql.specs.Events.{told};
ghost use Rattle.gr_oql.specs.Must.{must_of, IsMet};
ghost use Rattle.gr_oql.specs.Question.{Question};
ghost use Rattle.gr_cq.specs.Concern.{meets_fields, can_concern};
ghost use Rattle.gr_route.specs.declared.enrolled.Enrolled.{Enrolled};
ghost use Rattle.gr_route.specs.Routes.{is_reached, events_for};

/// A query that a change isn't routed to is told nothing of it. So the events for those that it is
/// routed to are the events for all.
pub fn unreached_queries_are_told_nothing()
    ensures met { (fields : List Field) (must : Must) → meets_fields fields must ≡ true ↔ IsMet fields must }
    ensures untold { (question : Question) (turned : Turned) → can_concern (must_of question) turned ≡ false → told question turned ≡ None }
    ensures events { (turned : Turned) (enrolled : List Enrolled) → events_for turned (filter (is_reached turned) enrolled) ≡ events_for turned enrolled }
{}
