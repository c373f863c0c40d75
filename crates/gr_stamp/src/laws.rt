ghost use Rattle.std.specs.Prelude.{◌≡◌, ◌+◌, ◌^◌, ◌⊎◌, ℕ, List, Bool, true, false, IsTrue, MatchOption, Contains, bytes_eq};
ghost use Rattle.std.specs.List.{AllByRecursion};
ghost use Rattle.gr_stamp.specs.declared.change.Change.{Change};
ghost use Rattle.gr_stamp.specs.declared.stamp.TheConstants.{LIMIT};
ghost use Rattle.gr_stamp.specs.Version.{Version, beats};
ghost use Rattle.gr_stamp.specs.Winner.{winner, IsUnbeaten, HasNoChange};

/// Versions have 48 bits.
pub fn the_limit_has_48_bits()
    ensures { LIMIT + 1 ≡ 2 ^ 48 }
{}

/// Stamps are in one order.
pub fn stamps_are_in_order()
    ensures itself { (a : Version) → beats a a ≡ false }
    ensures transitive { (a b c : Version) → IsTrue (beats a b) → IsTrue (beats b c) → IsTrue (beats a c) }
    ensures total { (a b : Version) → (a ≡ b) ⊎ (beats a b ≡ true) ⊎ (beats b a ≡ true) }
{}

/// The winner of a key is one of its changes, and none of them beats it.
pub fn winner_is_unbeaten()
    ensures found { (key : List ℕ) (changes : List Change) →
        MatchOption (winner key changes) (HasNoChange key changes) (IsUnbeaten key changes) }
{}
