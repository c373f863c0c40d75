ghost use Rattle.std.specs.Prelude.{◌≡◌, ◌+◌, ◌-◌, ◌≤◌, length, get_or, nat_le, IfOk, OnOk, if◌then◌else◌};
ghost use Rattle.gr_durable.specs.Expanding.{no_numbers, stepped, with_added};

use gr_value::{ItemList, Memory};
use std::alloc::Global;

/// The new numbers of a client's steps, as lines are expanded.
#[derive(Drop)]
pub(crate) struct Numbers {
    /// Steps up to this one keep their numbers.
    pub(crate) kept: u32,
    /// The new numbers of the later ones, in order.
    pub(crate) moved: ItemList<u32>,
    /// How many steps the client's returns stand for so far.
    pub(crate) added: u32,
}

// A script has fewer lines than memory has bytes, so no number is ever too large for its type.
fn sum(one: u32, other: u32) -> Result<u32, Memory>
    ensures { IfOk result (λ sum. sum ≡ one + other) }
{
    one.checked_add(other).ok_or(Memory)
}

impl Numbers {
    /// Of no steps.
    pub(crate) fn new(alloc: Global) -> Result<Numbers, Memory>
        ensures { IfOk result (λ numbers. numbers ≡ no_numbers) }
    {
        Ok(Numbers {
            kept: 0,
            moved: ItemList::new(alloc)?,
            added: 0,
        })
    }

    /// Takes in the client's next step, and tells its new number.
    #[inline(always)]
    pub(crate) fn step(&mut self, seq: u32) -> Result<u32, Memory>
        ensures number { IfOk result (λ number. number ≡ seq + self.old.added) }
        ensures stepped { OnOk result (self.new ≡ stepped self.old seq) }
    {
        if self.added == 0 {
            self.kept = seq;
            return Ok(seq);
        }
        let number = sum(seq, self.added)?;
        self.moved.push(number)?;
        Ok(number)
    }

    /// The new number of a step that was taken in.
    #[inline(always)]
    pub(crate) fn of(&self, seq: u32) -> u32
        requires { seq ≤ self.now.kept + length self.now.moved }
        ensures { result ≡ (if nat_le seq self.now.kept then seq else get_or self.now.moved (seq - self.now.kept - 1) 0) }
    {
        if seq <= self.kept {
            seq
        } else {
            self.moved.as_slice()[(seq - self.kept - 1) as usize]
        }
    }

    /// The number that the next step has.
    pub(crate) fn next(&self) -> Result<u32, Memory>
        ensures { IfOk result (λ number. number ≡ self.now.kept + length self.now.moved + self.now.added + 1) }
    {
        let moved = u32::try_from(self.moved.len()).map_err(|_| Memory)?;
        sum(sum(sum(self.kept, moved)?, self.added)?, 1)
    }

    /// Takes in that so many steps were added.
    pub(crate) fn add(&mut self, steps: usize) -> Result<(), Memory>
        ensures { OnOk result (self.new ≡ with_added self.old steps) }
    {
        let steps = u32::try_from(steps).map_err(|_| Memory)?;
        self.added = sum(steps, self.added)?;
        Ok(())
    }
}
