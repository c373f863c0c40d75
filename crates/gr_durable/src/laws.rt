ghost use Rattle.std.specs.Prelude.{ℕ, ◌≤◌, List};
ghost use Rattle.gr_history.specs.declared.deed.Deed.{Deed};
ghost use Rattle.gr_law.specs.Queries.{IsAnswered};
ghost use Rattle.gr_history.specs.declared.record.Record.{Record};
ghost use Rattle.gr_script.specs.declared.line.Line.{Line};
ghost use Rattle.gr_script.specs.Rules.{Heading};
ghost use Rattle.gr_world.specs.Histories.{KeepsLaws};
ghost use Rattle.gr_world.specs.Records.{IsReplayed};
ghost use Rattle.gr_world.specs.Served.{HasServed};
ghost use Rattle.gr_durable.specs.Answers.{HoldAnswers};
ghost use Rattle.gr_durable.specs.Results.{AreHeld, HasShards, HoldsResults, TablesShowResults};
ghost use Rattle.gr_durable.specs.Steps.{AreOfOpenQueries};

/// Where the steps on queries were answered lawfully, a client holds by one shard a table of just those
/// queries that it has open, and its rows are the result over what was present at the last fetch, or at
/// the stop where the query was stopped before it, or at the opening.
pub fn tables_of_a_shard_are_results()
    ensures { (client : ℕ) (history : List Deed) → IsAnswered history → HoldsResults client history }
{}

/// Where clients were served and the histories keep the laws of records: each table of a record shows, of the
/// keys of each shard, the result of its query over what was present there at the last fetch, or at the stop
/// where the query was stopped before it, or at the opening.
pub fn tables_are_results()
    ensures records { (heading : Heading) (lines : List Line) (left : Record) → HasServed heading lines left → HasShards heading left
        → AreHeld heading left → TablesShowResults heading left }
    ensures replays { (heading : Heading) (lines : List Line) (gone : List ℕ) (left : Record) → IsReplayed heading lines left
        → HasServed heading lines left → KeepsLaws heading gone left → TablesShowResults heading left }
{}

/// Where clients were served, there is a table of each query that a client has open behind its last line, and
/// of no other.
pub fn tables_are_of_open_queries()
    ensures { (heading : Heading) (lines : List Line) (left : Record) → HasServed heading lines left → HasShards heading left
        → AreHeld heading left → 1 ≤ heading.shards → AreOfOpenQueries heading lines left }
{}

/// Where clients were served, a client holds by each shard what the answers to its steps leave: the rows of
/// the last opening, with all events that were fetched since then played in order.
pub fn tables_follow_answers()
    ensures { (heading : Heading) (lines : List Line) (left : Record) → HasServed heading lines left → HoldAnswers heading lines left }
{}
