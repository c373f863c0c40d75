ghost use Rattle.std.specs.Prelude.{List};
ghost use mathlib.Core.List.{IsPrefix};
ghost use Rattle.gr_oql.specs.declared.event.Turned.{Turned};
ghost use Rattle.gr_history.specs.declared.deed.Deed.{Deed};
ghost use Rattle.gr_peek_law.specs.Turns.{turned_each};
ghost use Rattle.gr_run_law.specs.Threads.{IsLook};
ghost use Rattle.gr_session.specs.Steps.{IsSeen};
ghost use Rattle.gr_world.specs.Events.{Peek};

/// Once all that an eye knew is what the deeds of a history turned, each peek that told by it looked at a
/// place of that history.
pub fn peeks_look_at_the_history()
    ensures { (peek : Peek) (known : List (List Turned)) (past : List Deed) → IsSeen peek known → IsPrefix known (turned_each past)
        → IsLook peek past }
{}
