ghost use Rattle.std.specs.Prelude.{◌≡◌, ◌==◌, ◌≤◌, ◌<◌, ℕ, false, true, not, ◌||◌, IsOk, IfOk, OnOk, OnErr};
ghost use Rattle.gr_vector.specs.declared.gap.TheConstants.{END};
ghost use Rattle.gr_vector.specs.Blocks.{holds, holds_upto, ends_upto};

use crate::block::Block;
use crate::blocks::{count_upto, enter, gaps_upto, held_upto, is_noted, tells};
use crate::gap::END;
use crate::united::united;
use gr_value::Memory;
use std::alloc::Global;
use std::marker::Model;

// The numbers of one member that have come, by blocks in order. Beside them stand the greatest, and up
// to which all have come.
#[derive(Drop)]
pub struct Numbers {
    blocks: Vec<Block>,
    top: u64,
    all: u64,
}

impl Model for Numbers {
    ghost use Rattle.std.specs.Prelude.{◌-◌, vec_len, vec_capacity};
    ghost use Rattle.gr_vector.specs.Blocks.{Numbers, IsKept};

    ghost Value = { Numbers };

    ghost view = { λ n. record { blocks = n.blocks.items; top = n.top; spare = vec_capacity n.blocks - vec_len n.blocks } };

    ghost invariant = { λ n. IsKept n.blocks.items n.top n.all };
}

impl Numbers {
    pub fn new(alloc: Global) -> Numbers
        ensures { (v : ℕ) → holds v result ≡ false }
    {
        Numbers {
            blocks: Vec::new(alloc),
            top: 0,
            all: 0,
        }
    }

    pub fn holds(&self, number: u64) -> bool
        requires { 1 ≤ number }
        ensures { result ≡ holds number self.now }
    {
        if number > self.top {
            return false;
        }
        if number <= self.all {
            return true;
        }
        is_noted(&self.blocks, number)
    }

    pub fn covers(&self, upto: u64) -> bool
        ensures { result ≡ holds_upto upto self.now }
    {
        upto <= self.all
    }

    pub fn top(&self) -> u64
        ensures top { result ≡ self.now.top }
        ensures within { result < END }
        ensures held { 1 ≤ result → holds result self.now ≡ true }
    {
        self.top
    }

    pub fn exceptions(&self) -> u64
        ensures exceptions { result ≡ ends_upto self.now.top (λ v. holds v self.now) }
        ensures held { 1 ≤ self.now.top → holds self.now.top self.now ≡ true }
    {
        gaps_upto(&self.blocks, self.top)
    }

    pub fn reserve(&mut self) -> Result<(), Memory>
        ensures blocks { self.new.blocks ≡ self.old.blocks }
        ensures top { self.new.top ≡ self.old.top }
        ensures kept { self.old.spare ≤ self.new.spare }
        ensures room { OnOk result (1 ≤ self.new.spare) }
    {
        self.blocks.reserve(1)?;
        Ok(())
    }

    /// For how many blocks more there is room.
    pub fn spare(&self) -> u64
        ensures { result ≡ self.now.spare }
    {
        (self.blocks.capacity() - self.blocks.len()) as u64
    }

    #[inline(always)]
    pub fn note(&mut self, number: u64) -> Result<bool, Memory>
        requires some { 1 ≤ number }
        requires most { number < END }
        ensures fresh { IfOk result (λ fresh. fresh ≡ not (holds number self.old)) }
        ensures ok { OnOk result ((v : ℕ) → holds v self.new ≡ (v == number || holds v self.old)) }
        ensures err { OnErr result ((v : ℕ) → holds v self.new ≡ holds v self.old) }
        ensures room { 1 ≤ self.old.spare → IsOk result }
        ensures kept { OnErr result (self.old.spare ≤ self.new.spare) }
    {
        let count = count_upto(&self.blocks, number);
        if tells(&self.blocks, count, number) {
            return Ok(false);
        }
        enter(&mut self.blocks, count, number)?;
        self.top = self.top.max(number);
        if number == self.all + 1 {
            self.all = held_upto(&self.blocks, number, self.top);
        }
        Ok(true)
    }

    /// The numbers of either.
    pub fn united(&self, alloc: Global, other: &Numbers) -> Result<Numbers, Memory>
        ensures { IfOk result (λ both. (v : ℕ) → holds v both ≡ (holds v self.now || holds v other.now)) }
    {
        let blocks = united(alloc, &self.blocks, &other.blocks)?;
        let top = self.top.max(other.top);
        let all = held_upto(&blocks, self.all.max(other.all), top);
        Ok(Numbers { blocks, top, all })
    }

    pub fn copy(&self, alloc: Global) -> Result<Numbers, Memory>
        ensures { IfOk result (λ copy. (v : ℕ) → holds v copy ≡ holds v self.now) }
    {
        let blocks = Vec::from_slice(alloc, &self.blocks)?;
        Ok(Numbers {
            blocks,
            top: self.top,
            all: self.all,
        })
    }
}
