ghost use Rattle.std.specs.Prelude.{◌≡◌, ℕ, List, false};
ghost use Rattle.gr_cq.specs.Entries.{Entry, is_same_query};
ghost use Rattle.gr_cq.specs.Laws.{IsServed, StaysApart};

/// Each call changes the query that it names, and no other.
pub fn queries_stay_apart()
    ensures served { (client : ℕ) (name : List ℕ) (entries : List Entry) → IsServed client name entries }
    ensures others { (client : ℕ) (name : List ℕ) (two : ℕ) (other : List ℕ) (entries : List Entry) →
        is_same_query client name two other ≡ false → StaysApart client name two other entries }
{}
