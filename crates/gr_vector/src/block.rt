ghost use Rattle.std.specs.Prelude.{◌≡◌, ◌<◌, ◌≤◌, ◌-◌, ◌+◌, ◌==◌, ◌||◌, ℕ, false};
ghost use Rattle.std.specs.Bool.{OnTrue};
ghost use Rattle.gr_vector.specs.Blocks.{has};

/// For how many numbers a block has bits of their own.
pub const OWN: u64 = 63;

/// Which numbers are held, from the first on: a bit for each of 63 numbers, and a last bit for all
/// further ones up to the next block.
#[derive(Clone, Copy)]
pub struct Block {
    pub first: u64,
    pub bits: u64,
}

impl Block {
    // No number.
    pub fn empty(first: u64) -> Block
        ensures first { result.first ≡ first }
        ensures has { (v : ℕ) → has v result ≡ false }
    {
        Block { first, bits: 0 }
    }

    #[inline(always)]
    pub fn has(self, number: u64) -> bool
        requires { self.first ≤ number }
        ensures { result ≡ has number self }
    {
        let bit = (number - self.first).min(OWN);
        self.bits >> bit & 1 == 1
    }

    // With one more of its own numbers.
    #[inline(always)]
    pub fn with(self, number: u64) -> Block
        requires ahead { self.first ≤ number }
        requires own { number < self.first + 63 }
        ensures first { result.first ≡ self.first }
        ensures has { (v : ℕ) → self.first ≤ v → has v result ≡ (v == number || has v self) }
    {
        let bits = self.bits | 1 << (number - self.first);
        Block {
            first: self.first,
            bits,
        }
    }

    // With all further numbers.
    pub fn filled(self) -> Block
        ensures first { result.first ≡ self.first }
        ensures has { (v : ℕ) → v < self.first + 63 → has v result ≡ has v self }
    {
        let bits = self.bits | 1 << OWN;
        Block {
            first: self.first,
            bits,
        }
    }

    pub fn is_full(self) -> bool {
        self.bits | 1 << OWN == u64::MAX
    }

    // The same from a later number on.
    pub fn later(self, first: u64) -> Block
        requires { self.first ≤ first }
        ensures first { result.first ≡ first }
        ensures has { (v : ℕ) → first ≤ v → has v result ≡ has v self }
    {
        let gone = (first - self.first).min(OWN);
        let rest = self.bits >> gone;
        let bits = if self.bits >> OWN == 0 {
            rest
        } else {
            rest | !(u64::MAX >> gone)
        };
        Block { first, bits }
    }

    // What either has, from a later number on.
    pub fn either(self, other: Block, first: u64) -> Block
        requires ours { self.first ≤ first }
        requires theirs { other.first ≤ first }
        ensures first { result.first ≡ first }
        ensures has { (v : ℕ) → first ≤ v → has v result ≡ (has v self || has v other) }
    {
        let one = self.later(first);
        let two = other.later(first);
        Block {
            first,
            bits: one.bits | two.bits,
        }
    }

    // Whether another says no more, where it begins later.
    pub fn says(self, other: Block) -> bool
        ensures { OnTrue result ((self.first ≤ other.first) × ((v : ℕ) → other.first ≤ v → has v other ≡ has v self)) }
    {
        self.first <= other.first && self.later(other.first).bits == other.bits
    }
}
