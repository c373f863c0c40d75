ghost use Rattle.std.specs.Prelude.{◌≡◌, ◌↔◌, ℕ, IsTrue, Contains};
ghost use Rattle.gr_value.specs.Counts.{next_of};

use std::marker::Model;

/// Numbers calls from 1, and says which of them fail.
#[derive(Drop)]
pub(crate) struct Calls {
    fails: Vec<u64>,
    last: u64,
}

impl Model for Calls {
    ghost use Rattle.std.specs.Prelude.{ℕ, List};
    ghost use Rattle.std.specs.List.Sorted.{IsSorted};
    ghost use Rattle.std.specs.Ordering.{nat_cmp};

    ghost Value = { List ℕ × ℕ };

    ghost view = { λ calls. (calls.fails.items, calls.last) };

    ghost invariant = { λ calls. IsSorted nat_cmp calls.fails.items };
}

impl Calls {
    pub(crate) fn new(mut fails: Vec<u64>) -> Calls
        ensures fails { (number : ℕ) → Contains result.0 number ↔ Contains fails.items number }
        ensures none_yet { result.1 ≡ 0 }
    {
        fails.sort_unstable();
        Calls { fails, last: 0 }
    }

    /// Counts one call, and says whether it fails.
    pub(crate) fn next_fails(&mut self) -> bool
        ensures failed { IsTrue result ↔ Contains self.old.0 (next_of self.old.1) }
        ensures counted { self.new ≡ (self.old.0, next_of self.old.1) }
    {
        self.last = self.last.saturating_add(1);
        self.fails.binary_search(&self.last).is_ok()
    }
}
