ghost use Rattle.std.specs.Prelude.{◌≡◌, ℕ, List, reverse};
ghost use Rattle.gr_history.specs.declared.deed.Deed.{Deed};
ghost use Rattle.gr_history.specs.declared.identity.Identity.{Identity};
ghost use Rattle.gr_history.specs.Lawful.{IsLawfulDeed};
ghost use Rattle.gr_history.specs.Room.{IsSameDeed};
ghost use Rattle.gr_script.specs.declared.line.Line.{Line};
ghost use Rattle.gr_script.specs.Rules.{Heading, IsScript};
ghost use Rattle.gr_script.specs.Steps.{departed};
ghost use Rattle.gr_world.specs.Causes.{IsCausal, grid_at};
ghost use Rattle.gr_world.specs.Courses.{course};
ghost use Rattle.gr_world.specs.Doings.{Doing, Says, deed_of};
ghost use Rattle.gr_world.specs.Events.{history};
ghost use Rattle.gr_history.specs.declared.record.Record.{Record};
ghost use Rattle.gr_world.specs.Histories.{IsLawAbiding, KeepsLaws};
ghost use Rattle.gr_world.specs.Records.{IsReplayed, clients_left};
ghost use Rattle.gr_world.specs.Served.{AreServed, HasServed, FollowsLines, histories_in};
ghost use Rattle.gr_world.specs.Shut.{AreShut};

/// Of each script: what an event rests on was there before it, its histories have integrity, so that
/// the laws of records hold of them, and its clients were served step by step, in the order of the
/// lines.
pub fn laws_of_courses()
    ensures causal { (heading : Heading) (lines : List Line) → IsScript heading lines
        → IsCausal heading (departed (reverse lines)) (course heading (reverse lines)) }
    ensures abiding { (heading : Heading) (lines : List Line) → IsScript heading lines → (shard : ℕ)
        → IsLawAbiding (departed (reverse lines)) (grid_at heading shard (course heading (reverse lines))) }
    // After a member departed, all that stay know the same of its changes, and none of them comes in any more.
    ensures shut { (heading : Heading) (lines : List Line) → IsScript heading lines → AreShut heading (reverse lines) }
    ensures served { (heading : Heading) (lines : List Line) → IsScript heading lines → AreServed heading lines
        (λ member shard. history member shard (course heading (reverse lines))) (clients_left heading (course heading (reverse lines))) }
    ensures in_order { (heading : Heading) (lines : List Line)
        → FollowsLines heading lines (λ member shard. history member shard (course heading (reverse lines))) }
    // And each thing that is done has one lawful deed, room to spare apart, so a course is the only one of its lines.
    ensures one { (id : Identity) (opening : ℕ) (past : List Deed) (deed : Deed) (doing : Doing) → Says deed doing
        → IsLawfulDeed id opening deed past → IsSameDeed deed (deed_of id opening past doing) }
{}

/// A record that the course of a script leaves keeps the laws, and its clients were served step by step,
/// in the order of the lines.
pub fn records_keep_the_laws()
    ensures abiding { (heading : Heading) (lines : List Line) → IsScript heading lines → (left : Record) → IsReplayed heading lines left
        → KeepsLaws heading (departed (reverse lines)) left }
    ensures served { (heading : Heading) (lines : List Line) → IsScript heading lines → (left : Record) → IsReplayed heading lines left
        → HasServed heading lines left }
    ensures in_order { (heading : Heading) (lines : List Line) → IsScript heading lines → (left : Record) → IsReplayed heading lines left
        → FollowsLines heading lines (histories_in left) }
{}
