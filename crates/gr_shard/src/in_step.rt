ghost use Rattle.std.specs.Prelude.{◌≡◌, ℕ, List, [], ◌∷◌};
ghost use Rattle.gr_cq.specs.Entries.{Entry, find, noted};
ghost use Rattle.gr_oql.specs.Question.{Question};
ghost use Rattle.gr_history.specs.declared.query_ask.QueryAsk.{QueryAsk};
ghost use Rattle.gr_history.specs.declared.deed.Deed.{Deed};
ghost use Rattle.gr_history.specs.declared.deed.Deed.TheVariants.{Asked};
ghost use Rattle.gr_history.specs.Turned.{turned, events_at};
ghost use Rattle.gr_history.specs.Queries.{name_of, query_gives};
ghost use Rattle.gr_shard.specs.InStep.{IsInStep, IsUnasked, rows_of_ask, reply_by, served};

/// Open queries that are told of the turned keys of each deed, and changed where a client asks, stay in
/// step with the history; what they answer is what the history gives.
pub fn queries_stay_in_step()
    ensures fresh { IsInStep [] [] }
    ensures replies { (client : ℕ) (ask : QueryAsk) (past : List Deed) (entries : List Entry) → IsInStep entries past →
        reply_by ask (rows_of_ask ask past) (find client (name_of ask) entries) ≡ query_gives client ask past }
    ensures asked { (client seq : ℕ) (ask : QueryAsk) (past : List Deed) (entries : List Entry) → IsInStep entries past →
        IsInStep (served client ask entries) (Asked client seq ask (query_gives client ask past) ∷ past) }
    ensures noted { (deed : Deed) (past : List Deed) (entries : List Entry) → IsUnasked deed → IsInStep entries past →
        IsInStep (noted (turned deed past) entries) (deed ∷ past) }
    ensures untold { (deed : Deed) (past : List Deed) (entries : List Entry) → IsUnasked deed →
        ((question : Question) → events_at question deed past ≡ []) → IsInStep entries past → IsInStep entries (deed ∷ past) }
{}
