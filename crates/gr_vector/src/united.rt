ghost use Rattle.std.specs.Prelude.{◌≡◌, ◌≤◌, ◌<◌, ◌+◌, ◌||◌, ℕ, length, drop, IfOk, OnOk, if◌then◌else◌, nat_lt, ◌⊎◌};
ghost use Rattle.std.specs.List.{HoldsAt};
ghost use Rattle.gr_vector.specs.Blocks.{has, told, is_noted, AreAscending, last_first};

use crate::block::Block;
use gr_value::Memory;
use std::alloc::Global;

// Puts a block last, unless the last one says the same.
fn push(blocks: &mut Vec<Block>, block: Block) -> Result<(), Memory>
    requires ascending { AreAscending 0 blocks.old.items }
    requires last { last_first 0 blocks.old.items ≤ block.first }
    ensures ascending { OnOk result (AreAscending 0 blocks.new.items) }
    ensures last { OnOk result (last_first 0 blocks.new.items ≤ block.first) }
    ensures noted { OnOk result ((v : ℕ) → is_noted v blocks.new.items ≡ (if nat_lt v block.first then is_noted v blocks.old.items else has v block)) }
{
    let length = blocks.len();
    if length > 0 && blocks[length - 1].says(block) {
        return Ok(());
    }
    blocks.push(block)?;
    Ok(())
}

// Where the next block of either begins.
fn next_first(ours: &[Block], our: usize, theirs: &[Block], their: usize, low: u64) -> u64
    requires our { our ≤ length ours.now }
    requires their { their ≤ length theirs.now }
    requires some { (our < length ours.now) ⊎ (their < length theirs.now) }
    requires ours { AreAscending low (drop our ours.now) }
    requires theirs { AreAscending low (drop their theirs.now) }
    ensures later { low ≤ result }
    ensures ours { AreAscending result (drop our ours.now) }
    ensures theirs { AreAscending result (drop their theirs.now) }
    ensures some { ((our < length ours.now) × HoldsAt (λ block. block.first ≡ result) ours.now our) ⊎ ((their < length theirs.now) × HoldsAt (λ block. block.first ≡ result) theirs.now their) }
{
    if our == ours.len() {
        return theirs[their].first;
    }
    if their == theirs.len() {
        return ours[our].first;
    }
    ours[our].first.min(theirs[their].first)
}

// How far blocks are read, and the last one that was read, where one that begins at a number is read too.
fn read_on(blocks: &[Block], read: usize, last: Block, first: u64) -> (usize, Block)
    requires read { read ≤ length blocks.now }
    requires ascending { AreAscending first (drop read blocks.now) }
    requires last { last.first ≤ first }
    ensures read { result.0 ≤ length blocks.now }
    ensures on { read ≤ result.0 }
    ensures one { (read < length blocks.now) × HoldsAt (λ block. block.first ≡ first) blocks.now read → result.0 ≡ read + 1 }
    ensures ascending { AreAscending first (drop result.0 blocks.now) }
    ensures last { result.1.first ≤ first }
    ensures told { (v : ℕ) → first ≤ v → told v (has v result.1) (drop result.0 blocks.now) ≡ told v (has v last) (drop read blocks.now) }
{
    if read < blocks.len() && blocks[read].first == first {
        return (read + 1, blocks[read]);
    }
    (read, last)
}

// What either has, by one walk along the two.
pub fn united(alloc: Global, ours: &[Block], theirs: &[Block]) -> Result<Vec<Block>, Memory>
    requires ours { AreAscending 0 ours.now }
    requires theirs { AreAscending 0 theirs.now }
    ensures ascending { IfOk result (λ both. AreAscending 0 both.items) }
    ensures noted { IfOk result (λ both. (v : ℕ) → is_noted v both.items ≡ (is_noted v ours.now || is_noted v theirs.now)) }
{
    let mut both = Vec::new(alloc);
    let mut first = 0;
    let mut our = 0;
    let mut their = 0;
    let mut one = Block::empty(0);
    let mut two = Block::empty(0);
    while our < ours.len() || their < theirs.len() {
        first = next_first(ours, our, theirs, their, first);
        (our, one) = read_on(ours, our, one, first);
        (their, two) = read_on(theirs, their, two, first);
        push(&mut both, one.either(two, first))?;
    }
    Ok(both)
}
