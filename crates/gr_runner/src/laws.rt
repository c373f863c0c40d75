ghost use Rattle.std.specs.Prelude.{List};
ghost use Rattle.gr_history.specs.declared.record.Record.{Record};
ghost use Rattle.gr_script.specs.declared.line.Line.{Line};
ghost use Rattle.gr_script.specs.Rules.{Heading, IsScript};
ghost use Rattle.gr_run_law.specs.Threads.{IsLeftByThreads};
ghost use Rattle.gr_runner.specs.Left.{AreLeft};
ghost use Rattle.std.specs.List.{filter_map};
ghost use Rattle.gr_history.specs.declared.record.MemberRecord.{MemberRecord};
ghost use Rattle.gr_post.specs.Passes.{Ring};
ghost use Rattle.gr_member.specs.Passes.{House};
ghost use Rattle.gr_member.specs.Seats.{Place};
ghost use Rattle.gr_runner.specs.declared.gathering.News.{News};
ghost use Rattle.gr_runner.specs.Ending.{AreEnded};
ghost use Rattle.gr_runner.specs.Gone.{HasGone};
ghost use Rattle.gr_runner.specs.Sorting.{told_in};

/// Where each thread left what it was to do, and all passes and all mail were met, the record is one that
/// threads leave: a lawful run's.
pub fn what_is_left_is_lawful()
    ensures { (heading : Heading) (lines : List Line) (left : Record) → IsScript heading lines → AreLeft heading lines left
        → IsLeftByThreads heading lines left }
{}

/// Where a run went by its rules, what is then left of all members is a lawful run's record.
pub fn runs_are_lawful()
    ensures { (heading : Heading) (lines : List Line) (houses : List House) (rings : List Ring) (desks : List (List Place))
        (news : List News) (records : List MemberRecord) → IsScript heading lines → HasGone heading lines houses rings desks news
        → AreEnded houses desks records → IsLeftByThreads heading lines (record { members = records; clients = filter_map told_in news }) }
{}
