ghost use Rattle.std.specs.Prelude.{◌≡◌, ℕ, suc, ◌≤◌, ◌<◌, List, [], ◌∷◌, ◌++◌, true, length};
ghost use Rattle.std.specs.List.{filter_map};
ghost use Rattle.gr_value.specs.Shard.{shard_of};
ghost use Rattle.gr_turn.specs.Views.{times};
ghost use Rattle.gr_history.specs.declared.deed.Deed.{Deed};
ghost use Rattle.gr_history.specs.declared.deed.Deed.TheVariants.{Gave};
ghost use Rattle.gr_history.specs.declared.image.What.{What};
ghost use Rattle.gr_history.specs.Gifts.{own_changes};
ghost use Rattle.gr_history.specs.declared.record.ClientRecord.{ClientRecord};
ghost use Rattle.gr_history.specs.declared.record.Record.{Record};
ghost use Rattle.gr_law.specs.Grids.{Among, Older};
ghost use Rattle.gr_script.specs.declared.line.Line.{Line};
ghost use Rattle.gr_script.specs.Drill.{IsDrill};
ghost use Rattle.gr_script.specs.Rules.{Heading, IsMember, IsScript};
ghost use Rattle.gr_world.specs.Grids.{Histories};
ghost use Rattle.gr_world.specs.Histories.{KeepsLaws};
ghost use Rattle.gr_world.specs.Numbered.{numbers_from};
ghost use Rattle.gr_report.specs.Same.{are_equal};
ghost use Rattle.gr_run_law.specs.Broken.{asked_early, given_twice, half_rounds, left_out, small_rounds, swept_twice, taken_once, unheard};
ghost use Rattle.gr_run_law.specs.Threads.{AreLeftByThreads, IsLeftByThreads, LooksFit};
ghost use Rattle.gr_run_law.specs.Duties.{gift_in, given_to, own_where};
ghost use Rattle.gr_run_law.specs.Closed.{HasSameRows, EndsReady, TakesAll};
ghost use Rattle.gr_run_law.specs.Records.{IsRecordOfRun};
ghost use Rattle.gr_run_law.specs.Runs.{AreRounds, DoesDuties, GivesGifts, HearsReports, IsLawfulRun, IsRun, TakesChanges, WaitsForImage};
ghost use Rattle.gr_world.specs.Events.{Peek};
ghost use Rattle.gr_world.specs.Served.{Looked, Served, all_deeds_of, client_of};
ghost use Rattle.gr_run_law.specs.Shares.{AreShared, AreSharedSoFar, Owner, Stands, with_owner};
ghost use Rattle.gr_run_law.specs.Small.{small_histories, small_lines, small_served, three};
ghost use Rattle.gr_value.specs.Lists.{StartsWith};

/// What the threads of a run leave is a run: lawful histories with integrity, clients that were served,
/// and as many reports, sweeps, images, gifts, taken changes and heard reports as the lines and the
/// trouble plan have it.
pub fn threads_leave_a_lawful_run()
    ensures run { (heading : Heading) (lines : List Line) (histories : Histories) (served : ℕ → List Served) → IsScript heading lines
        → AreLeftByThreads heading lines histories served → (clients : List ClientRecord)
        → clients ≡ numbers_from 1 (length heading.clients) (client_of heading served) → IsRun heading lines histories clients }
    ensures record_of { (heading : Heading) (lines : List Line) (left : Record) → IsScript heading lines
        → IsLeftByThreads heading lines left → IsLawfulRun heading lines left }
{}

/// In a run each founder and each member that joins takes in every change, and so all of them have the
/// same rows.
pub fn lawful_runs_are_closed()
    ensures all { (heading : Heading) (lines : List Line) (histories : Histories) (clients : List ClientRecord) → IsScript heading lines
        → IsRun heading lines histories clients → TakesAll heading lines histories }
    ensures rows { (heading : Heading) (lines : List Line) (histories : Histories) (clients : List ClientRecord) → IsScript heading lines
        → IsRun heading lines histories clients → HasSameRows heading lines histories }
{}

/// The record of a run keeps the laws at each shard; and where each member is a founder or joins, as in
/// each drill, its members are equal.
pub fn records_of_runs_keep_the_laws()
    ensures laws { (heading : Heading) (lines : List Line) (left : Record) → IsLawfulRun heading lines left → KeepsLaws heading [] left }
    ensures whole { (heading : Heading) (lines : List Line) (left : Record) → IsScript heading lines → IsLawfulRun heading lines left
        → IsRecordOfRun heading lines left }
    ensures equal { (heading : Heading) (lines : List Line) (left : Record) → IsScript heading lines → IsLawfulRun heading lines left
        → ((member : ℕ) → IsMember heading member → EndsReady heading lines member) → are_equal left.members ≡ true }
    ensures drill { (start steps : ℕ) (script : Heading × List Line) (left : Record) → IsDrill start steps script
        → IsScript script.0 script.1 → IsLawfulRun script.0 script.1 left → are_equal left.members ≡ true }
{}

/// There are such histories, so the law isn't empty: of three members, of which the third joins, with a
/// put that is taken in and given, a query, a peek, a report and a sweep.
pub fn a_small_run_is_left_by_threads()
    ensures script { IsScript three small_lines }
    ensures left { AreLeftByThreads three small_lines small_histories small_served }
{}

/// Each clause is broken by some histories, so it says something: a clause that is said a little too weakly
/// would hold of those that break it here.
pub fn bad_runs_break_the_clauses()
    ensures duties { DoesDuties three small_lines swept_twice → ⊥ }
    ensures gifts { GivesGifts three small_lines given_twice → ⊥ }
    ensures waits { WaitsForImage three small_lines asked_early → ⊥ }
    ensures takings { TakesChanges three taken_once small_served → ⊥ }
    ensures rounds { AreRounds three small_histories half_rounds → ⊥ }
    ensures hearings { HearsReports three unheard small_rounds → ⊥ }
    ensures all { TakesAll three small_lines left_out → ⊥ }
    ensures rows { HasSameRows three small_lines left_out → ⊥ }
{}

/// How what threads leave grows, for their code. Passes are met one by one, from none to all. A session has
/// a step more that leaves deeds, or a peek more behind all its deeds and earlier peeks. A gift was given
/// once.
pub fn what_threads_leave_grows()
    ensures none { (list : List Deed) → AreSharedSoFar list [] (λ owner. []) (λ owner. []) }
    ensures met { (list more : List Deed) (made ps : List ℕ) (owned : Owner → List Deed) (places : Owner → List ℕ) (owner : Owner)
        (ds : List Deed) → AreSharedSoFar list made owned places → StartsWith more list → Stands more 0 ps ds → places owner ≡ []
        → AreSharedSoFar more (made ++ ps) (with_owner owner ds owned) (with_owner owner ps places) }
    ensures whole { (list : List Deed) (made : List ℕ) (owned : Owner → List Deed) (places : Owner → List ℕ)
        → AreSharedSoFar list made owned places → ((p : ℕ) → p < length list → 0 < times p made) → AreShared list owned places }
    ensures deeds { (client shards shard : ℕ) (list : List Deed) (from low : ℕ) (ps qs : List ℕ) (served : List Served) (one : Served)
        → Stands list from ps (all_deeds_of client shards shard served) → LooksFit shards shard low ps served
        → ((l : ℕ) → LooksFit shards shard l qs (one ∷ [])) → LooksFit shards shard low (ps ++ qs) (served ++ one ∷ []) }
    ensures peek { (shards shard low : ℕ) (ps : List ℕ) (served : List Served) (number : ℕ) (peek : Peek)
        → LooksFit shards shard low ps served
        → (shard ≡ shard_of peek.key shards → (low ≤ peek.at) × ((p : ℕ) → 0 < times p ps → suc p ≤ peek.at)
        × ((n : ℕ) (other : Peek) → Among (Looked n other) served → shard ≡ shard_of other.key shards → other.at ≤ peek.at))
        → LooksFit shards shard low ps (served ++ Looked number peek ∷ []) }
    ensures gift { (joiner : ℕ) (gave : What) (past h : List Deed) → Older (Gave joiner gave ∷ past) h
        → filter_map (gift_in joiner) h ≡ gave ∷ [] → given_to joiner h ≡ own_where true gave (own_changes past) }
{}
