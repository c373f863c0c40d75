ghost use Rattle.std.specs.Prelude.{◌≡◌, ◌==◌, ◌≤◌, ◌<◌, ◌+◌, ◌-◌, ◌||◌, ◌&&◌, ℕ, false, true, not, suc, length, drop, IsOk, OnOk, OnErr, if◌then◌else◌};
ghost use Rattle.std.specs.Prelude.{vec_len, vec_capacity};
ghost use Rattle.std.specs.List.{HoldsAt};
ghost use Rattle.gr_vector.specs.declared.gap.TheConstants.{END};
ghost use Rattle.gr_vector.specs.Blocks.{is_noted, ends_upto, AreAscending, AllAbove};

use crate::block::{Block, OWN};
use gr_value::Memory;

// How many blocks begin at a number or below it. The last block is looked at first.
#[inline(always)]
pub fn count_upto(blocks: &[Block], number: u64) -> usize
    requires { AreAscending 0 blocks.now }
    ensures within { result ≤ length blocks.now }
    ensures above { AllAbove number (drop result blocks.now) }
    ensures below { 1 ≤ result → HoldsAt (λ block. block.first ≤ number) blocks.now (result - 1) }
{
    let length = blocks.len();
    if length > 0 && blocks[length - 1].first <= number {
        return length;
    }
    blocks.partition_point(|block| block.first <= number)
}

// Whether a number is held, by how many blocks begin at it or below it.
#[inline(always)]
pub fn tells(blocks: &[Block], count: usize, number: u64) -> bool
    requires within { count ≤ length blocks.now }
    requires above { AllAbove number (drop count blocks.now) }
    requires below { 1 ≤ count → HoldsAt (λ block. block.first ≤ number) blocks.now (count - 1) }
    ensures { result ≡ is_noted number blocks.now }
{
    if count == 0 {
        return false;
    }
    blocks[count - 1].has(number)
}

pub fn is_noted(blocks: &[Block], number: u64) -> bool
    requires { AreAscending 0 blocks.now }
    ensures { result ≡ is_noted number blocks.now }
{
    let count = count_upto(blocks, number);
    tells(blocks, count, number)
}

// Where the next block begins right behind a full one, the full one's last bit may stand for it too.
fn fill(blocks: &mut Vec<Block>, place: usize)
    requires ascending { AreAscending 0 blocks.old.items }
    requires within { place < length blocks.old.items }
    ensures ascending { AreAscending 0 blocks.new.items }
    ensures noted { (v : ℕ) → is_noted v blocks.new.items ≡ is_noted v blocks.old.items }
    ensures room { vec_capacity blocks.old - vec_len blocks.old ≤ vec_capacity blocks.new - vec_len blocks.new }
{
    let block = blocks[place];
    let next = place + 1;
    if next < blocks.len() && blocks[next].first.saturating_sub(block.first) == OWN {
        blocks[place] = block.filled();
    }
}

// Takes a block away that says what the one in front of it says.
fn absorb(blocks: &mut Vec<Block>, place: usize)
    requires { AreAscending 0 blocks.old.items }
    ensures ascending { AreAscending 0 blocks.new.items }
    ensures noted { (v : ℕ) → is_noted v blocks.new.items ≡ is_noted v blocks.old.items }
    ensures room { vec_capacity blocks.old - vec_len blocks.old ≤ vec_capacity blocks.new - vec_len blocks.new }
{
    if place > 0 && place < blocks.len() && blocks[place - 1].says(blocks[place]) {
        blocks.remove(place);
    }
}

// Leaves fewer blocks where one is full, if it can.
fn settle(blocks: &mut Vec<Block>, place: usize)
    requires ascending { AreAscending 0 blocks.old.items }
    requires within { place < length blocks.old.items }
    ensures ascending { AreAscending 0 blocks.new.items }
    ensures noted { (v : ℕ) → is_noted v blocks.new.items ≡ is_noted v blocks.old.items }
    ensures room { vec_capacity blocks.old - vec_len blocks.old ≤ vec_capacity blocks.new - vec_len blocks.new }
{
    if blocks[place].is_full() {
        fill(blocks, place);
        absorb(blocks, place + 1);
        absorb(blocks, place);
    }
}

// Puts a number that isn't held into a block of its own, which begins at a number or above it.
fn enter_apart(blocks: &mut Vec<Block>, count: usize, low: u64, number: u64) -> Result<(), Memory>
    requires ascending { AreAscending 0 blocks.old.items }
    requires within { count ≤ length blocks.old.items }
    requires above { AllAbove number (drop count blocks.old.items) }
    requires behind { 1 ≤ count → HoldsAt (λ block. block.first + 63 ≤ low) blocks.old.items (count - 1) }
    requires some { 1 ≤ number }
    requires low { low ≤ number }
    requires fresh { is_noted number blocks.old.items ≡ false }
    ensures ascending { OnOk result (AreAscending 0 blocks.new.items) }
    ensures length { OnOk result (length blocks.new.items ≡ length blocks.old.items + 1) }
    ensures noted { OnOk result ((v : ℕ) → is_noted v blocks.new.items ≡ (v == number || is_noted v blocks.old.items)) }
    ensures room { 1 ≤ vec_capacity blocks.old - vec_len blocks.old → IsOk result }
    ensures err { OnErr result (blocks.new.items ≡ blocks.old.items) }
    ensures kept { OnErr result (vec_capacity blocks.old - vec_len blocks.old ≤ vec_capacity blocks.new - vec_len blocks.new) }
{
    let begun = (number - 1) % OWN;
    let first = (number - begun).max(low);
    blocks.insert(count, Block::empty(first).with(number))?;
    Ok(())
}

// Sets a number's own bit.
fn enter_own(blocks: &mut [Block], place: usize, number: u64)
    requires ascending { AreAscending 0 blocks.old }
    requires within { place < length blocks.old }
    requires above { AllAbove number (drop (suc place) blocks.old) }
    requires begun { HoldsAt (λ block. block.first ≤ number) blocks.old place }
    requires own { HoldsAt (λ block. number < block.first + 63) blocks.old place }
    ensures ascending { AreAscending 0 blocks.new }
    ensures noted { (v : ℕ) → is_noted v blocks.new ≡ (v == number || is_noted v blocks.old) }
{
    blocks[place] = blocks[place].with(number);
}

// Enters a number that isn't held, by how many blocks begin at it or below it.
#[inline(always)]
pub fn enter(blocks: &mut Vec<Block>, count: usize, number: u64) -> Result<(), Memory>
    requires ascending { AreAscending 0 blocks.old.items }
    requires within { count ≤ length blocks.old.items }
    requires above { AllAbove number (drop count blocks.old.items) }
    requires below { 1 ≤ count → HoldsAt (λ block. block.first ≤ number) blocks.old.items (count - 1) }
    requires some { 1 ≤ number }
    requires fresh { is_noted number blocks.old.items ≡ false }
    ensures ascending { OnOk result (AreAscending 0 blocks.new.items) }
    ensures noted { OnOk result ((v : ℕ) → is_noted v blocks.new.items ≡ (v == number || is_noted v blocks.old.items)) }
    ensures room { 1 ≤ vec_capacity blocks.old - vec_len blocks.old → IsOk result }
    ensures err { OnErr result (blocks.new.items ≡ blocks.old.items) }
    ensures kept { OnErr result (vec_capacity blocks.old - vec_len blocks.old ≤ vec_capacity blocks.new - vec_len blocks.new) }
{
    if count == 0 {
        enter_apart(blocks, 0, 0, number)?;
        return Ok(());
    }
    let place = count - 1;
    let first = blocks[place].first;
    if number - first < OWN {
        enter_own(blocks, place, number);
        settle(blocks, place);
    } else {
        enter_apart(blocks, count, first + OWN, number)?;
        settle(blocks, place);
    }
    Ok(())
}

// Up to which number all are held, where those up to a smaller one are.
pub fn held_upto(blocks: &[Block], from: u64, top: u64) -> u64
    requires ascending { AreAscending 0 blocks.now }
    requires within { from ≤ top }
    requires most { top < END }
    requires front { (v : ℕ) → 1 ≤ v → v ≤ from → is_noted v blocks.now ≡ true }
    requires beyond { (v : ℕ) → top < v → is_noted v blocks.now ≡ false }
    ensures within { result ≤ top }
    ensures front { (v : ℕ) → 1 ≤ v → v ≤ result → is_noted v blocks.now ≡ true }
    ensures next { is_noted (result + 1) blocks.now ≡ false }
{
    let mut upto = from;
    while upto < top && is_noted(blocks, upto + 1) {
        upto += 1;
    }
    upto
}

// A later number, below which none is missing while the next is held.
fn skipped(blocks: &[Block], number: u64, top: u64) -> u64
    requires ascending { AreAscending 0 blocks.now }
    requires below { number < top }
    requires most { top < END }
    ensures later { number < result }
    ensures steady { (v : ℕ) → number < v → v < result → is_noted v blocks.now ≡ is_noted (suc v) blocks.now }
{
    let after = number + 1;
    let count = count_upto(blocks, after);
    if count > 0 && after - blocks[count - 1].first < OWN {
        return after;
    }
    if count < blocks.len() {
        blocks[count].first - 1
    } else {
        top
    }
}

// One where a number is missing while the next is held.
fn end_at(blocks: &[Block], number: u64) -> u64
    requires ascending { AreAscending 0 blocks.now }
    requires most { number < END }
    ensures { result ≡ (if not (is_noted number blocks.now) && is_noted (suc number) blocks.now then 1 else 0) }
{
    if is_noted(blocks, number) {
        return 0;
    }
    if is_noted(blocks, number + 1) { 1 } else { 0 }
}

// How many runs of missing numbers there are below the greatest number.
pub fn gaps_upto(blocks: &[Block], top: u64) -> u64
    requires ascending { AreAscending 0 blocks.now }
    requires most { top < END }
    requires beyond { (v : ℕ) → top < v → is_noted v blocks.now ≡ false }
    ensures { result ≡ ends_upto top (λ v. is_noted v blocks.now) }
{
    let mut gaps = 0;
    let mut number = 1;
    while number < top {
        gaps += end_at(blocks, number);
        number = skipped(blocks, number, top);
    }
    gaps
}
