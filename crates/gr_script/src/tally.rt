ghost use Rattle.std.specs.Prelude.{◌≡◌, ℕ, ◌+◌, ◌<◌, ◌^◌, true};
ghost use Rattle.gr_script.specs.declared.forms.LineKind.TheVariants as kind;
ghost use Rattle.gr_script.specs.Forms.{is_kind};
ghost use Rattle.gr_script.specs.Tallies.{count_in, AreNone, CountsLine, CountsOne, HasRoom};

use crate::forms::{LineKind, is_kind, is_step};
use std::marker::Model;

/// The numbers of members and clients are below this.
const NUMBERS: usize = 256;

/// How many lines have each number.
#[derive(Drop)]
pub(crate) struct Counts {
    counts: [u32; NUMBERS],
}

impl Model for Counts {
    ghost use Rattle.std.specs.Prelude.{List, ℕ};

    ghost Value = { List ℕ };

    ghost view = { λ counts. counts.counts };
}

/// How many lines of some kinds have each number: steps by their clients, reports and departures by their
/// members, and joins by the joiner and by the member that gives its image.
#[derive(Drop)]
pub(crate) struct Tallies {
    pub(crate) steps: Counts,
    pub(crate) reports: Counts,
    pub(crate) joins: Counts,
    pub(crate) gifts: Counts,
    pub(crate) departs: Counts,
}

impl Tallies {
    /// Of no lines.
    pub(crate) fn new() -> Tallies
        ensures { (n : ℕ) → AreNone n result }
    {
        Tallies {
            steps: Counts::new(),
            reports: Counts::new(),
            joins: Counts::new(),
            gifts: Counts::new(),
            departs: Counts::new(),
        }
    }

    /// Counts a line of this kind at its numbers.
    pub(crate) fn count_line(&mut self, form: LineKind, first: u128, second: u128)
        requires first { first < 2 ^ 8 }
        requires second { is_kind kind.Join form ≡ true → second < 2 ^ 8 }
        requires room { (n : ℕ) → HasRoom n self.old }
        ensures { CountsLine form first second self.old self.new }
    {
        if is_step(form) {
            self.steps.count_up(first);
        } else if is_kind(LineKind::Report, form) {
            self.reports.count_up(first);
        } else if is_kind(LineKind::Join, form) {
            self.joins.count_up(first);
            self.gifts.count_up(second);
        } else if is_kind(LineKind::Depart, form) {
            self.departs.count_up(first);
        }
    }
}

impl Counts {
    /// Of no lines.
    pub(crate) fn new() -> Counts
        ensures { (n : ℕ) → count_in result n ≡ 0 }
    {
        let counts = [0; NUMBERS];
        Counts { counts }
    }

    /// How many lines have this number.
    pub(crate) fn of(&self, number: u128) -> u32
        ensures { result ≡ count_in self.now number }
    {
        if number < NUMBERS as u128 {
            self.counts[number as usize]
        } else {
            0
        }
    }

    /// Counts one more line of this number.
    pub(crate) fn count_up(&mut self, number: u128)
        requires narrow { number < 2 ^ 8 }
        requires room { count_in self.old number + 1 < 2 ^ 32 }
        ensures { CountsOne true number self.old self.new }
    {
        self.counts[number as usize] += 1;
    }
}
