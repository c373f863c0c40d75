ghost use Rattle.std.specs.Prelude.{◌≡◌, ◌≤◌, ◌<◌, ◌||◌, ◌-◌, ℕ, [], false, not, length, IsOk, IfOk, OnOk, OnErr, slice_index_or};
ghost use Rattle.gr_vector.specs.declared.gap.TheConstants.{END};
ghost use Rattle.gr_vector.specs.Blocks.{Numbers};
ghost use Rattle.gr_vector.specs.Ids.{Id, has_id, top, covers, exceptions};
ghost use Rattle.gr_vector.specs.Order.{with_id, united, IsSorted};
ghost use Rattle.gr_vector.specs.Views.{is_held};

use crate::gap::END;
use crate::numbers::Numbers;
use gr_value::{Copied, Memory};
use std::alloc::Global;
use std::marker::Model;

/// The greatest member number.
const MEMBERS: usize = 8;

// A block says which of 63 numbers are held, and by one bit more whether all those are that follow up to
// the next block. So a run of any length that is held or missing takes no room, a number in any order
// costs a bit, and a jump ahead one block. The next number in order costs constant time, another one a
// binary search; where a block comes or goes, those behind it are moved, since an ordered map could not
// promise room.
/// A set of ids. Contracts see it as the list of its ids, in order, beside a number: how many more it
/// can note for sure. Kept are, for each member, its numbers as bits by blocks.
#[derive(Drop)]
pub struct Vector {
    members: Vec<Numbers>,
    spare: u64,
}

impl Model for Vector {
    ghost use Rattle.gr_vector.specs.Ids.{Ids};
    ghost use Rattle.gr_vector.specs.Views.{view_of, HaveRoom};

    ghost Value = { Ids };

    ghost view = { λ v. view_of v.members.items v.spare };

    ghost invariant = { λ v. HaveRoom v.members.items v.spare };
}

// Members that have no numbers yet.
fn new_members(alloc: Global) -> Result<Vec<Numbers>, Memory>
    ensures eight { IfOk result (λ members. length members.items ≡ 8) }
    ensures none { IfOk result (λ members. (k v : ℕ) → is_held k v members.items ≡ false) }
{
    let mut members = Vec::with_capacity(alloc, MEMBERS)?;
    for _ in 0..MEMBERS {
        members.push(Numbers::new(alloc))?;
    }
    Ok(members)
}

// Makes room for one block more at each member.
fn reserve_each(members: &mut [Numbers]) -> Result<(), Memory>
    ensures held { (k v : ℕ) → is_held k v members.new ≡ is_held k v members.old }
    ensures kept { (k : ℕ) (d : Numbers) → (slice_index_or members.old k d).spare ≤ (slice_index_or members.new k d).spare }
    ensures room { OnOk result ((k : ℕ) (d : Numbers) → k < length members.new → 1 ≤ (slice_index_or members.new k d).spare) }
{
    for numbers in members.iter_mut() {
        numbers.reserve()?;
    }
    Ok(())
}

// The numbers of both, member by member.
fn unite_each(alloc: Global, ours: &[Numbers], theirs: &[Numbers]) -> Result<Vec<Numbers>, Memory>
    requires { length theirs.now ≡ length ours.now }
    ensures length { IfOk result (λ both. length both.items ≡ length ours.now) }
    ensures held { IfOk result (λ both. (k v : ℕ) → is_held k v both.items ≡ (is_held k v ours.now || is_held k v theirs.now)) }
{
    let mut both = Vec::with_capacity(alloc, ours.len())?;
    for place in 0..ours.len() {
        both.push(ours[place].united(alloc, &theirs[place])?)?;
    }
    Ok(both)
}

// The same numbers, member by member.
fn copy_each(alloc: Global, members: &[Numbers]) -> Result<Vec<Numbers>, Memory>
    ensures length { IfOk result (λ copies. length copies.items ≡ length members.now) }
    ensures held { IfOk result (λ copies. (k v : ℕ) → is_held k v copies.items ≡ is_held k v members.now) }
{
    let mut copies = Vec::with_capacity(alloc, members.len())?;
    for numbers in members {
        copies.push(numbers.copy(alloc)?)?;
    }
    Ok(copies)
}

// What is kept of a member's numbers.
fn numbers_of(members: &[Numbers], member: u8) -> &Numbers
    requires eight { length members.now ≡ 8 }
    requires a_member { 1 ≤ member }
    requires of_eight { member ≤ 8 }
    ensures { result.now ≡ slice_index_or members.now (member - 1) (record { blocks = []; top = 0; spare = 0 }) }
{
    &members[usize::from(member) - 1]
}

impl Vector {
    pub fn new(alloc: Global) -> Result<Vector, Memory>
        ensures { IfOk result (λ vector. vector ≡ record { ids = []; spare = 0 }) }
    {
        Ok(Vector {
            members: new_members(alloc)?,
            spare: 0,
        })
    }

    pub fn holds(&self, member: u8, rv: u64) -> bool
        requires a_member { 1 ≤ member }
        requires of_eight { member ≤ 8 }
        requires a_number { 1 ≤ rv }
        requires in_range { rv < END }
        ensures { result ≡ has_id (record { member = member; rv = rv }) self.now.ids }
    {
        numbers_of(&self.members, member).holds(rv)
    }

    /// Whether all of the member's numbers from 1 to this one are held.
    pub fn covers(&self, member: u8, upto: u64) -> bool
        requires a_member { 1 ≤ member }
        requires of_eight { member ≤ 8 }
        ensures { result ≡ covers member upto self.now.ids }
    {
        numbers_of(&self.members, member).covers(upto)
    }

    /// The greatest of the member's numbers that are held, or 0.
    pub fn top(&self, member: u8) -> u64
        requires a_member { 1 ≤ member }
        requires of_eight { member ≤ 8 }
        ensures top { result ≡ top member self.now.ids }
        ensures within { result < END }
    {
        numbers_of(&self.members, member).top()
    }

    /// How many runs of missing numbers there are below the member's greatest.
    pub fn exceptions(&self, member: u8) -> u64
        requires a_member { 1 ≤ member }
        requires of_eight { member ≤ 8 }
        ensures { result ≡ exceptions member self.now.ids }
    {
        numbers_of(&self.members, member).exceptions()
    }

    /// Makes room for one id, whichever it is.
    #[inline(always)]
    pub fn reserve(&mut self) -> Result<(), Memory>
        ensures room { OnOk result (self.new ≡ record { ids = self.old.ids; spare = 1 }) }
        ensures err { OnErr result (self.new ≡ self.old) }
    {
        if self.spare == 0 {
            reserve_each(&mut self.members)?;
            self.spare = 1;
        }
        Ok(())
    }

    /// Holds the id from now on, and answers whether it wasn't held. A number that is the next of its
    /// member costs constant time. Another costs the logarithm of the number of blocks, and where it
    /// needs a new block or fills one, the blocks behind it are moved.
    #[inline(always)]
    pub fn note(&mut self, member: u8, rv: u64) -> Result<bool, Memory>
        requires a_member { 1 ≤ member }
        requires of_eight { member ≤ 8 }
        requires a_number { 1 ≤ rv }
        requires in_range { rv < END }
        ensures fresh { IfOk result (λ fresh. fresh ≡ not (has_id (record { member = member; rv = rv }) self.old.ids)) }
        ensures ids { OnOk result (self.new.ids ≡ with_id (record { member = member; rv = rv }) self.old.ids) }
        ensures room { 1 ≤ self.old.spare → IsOk result }
        ensures err { OnErr result (self.new ≡ self.old) }
    {
        let numbers = &mut self.members[usize::from(member) - 1];
        let fresh = numbers.note(rv)?;
        let room = numbers.spare();
        self.spare = self.spare.min(room);
        Ok(fresh)
    }

    /// Holds what either holds from now on. Takes time in proportion to the blocks of both, and to the
    /// numbers in order that come to those that were held without a gap.
    pub fn unite(&mut self, other: &Vector) -> Result<(), Memory>
        ensures ids { OnOk result (self.new.ids ≡ united self.old.ids other.now.ids) }
        ensures err { OnErr result (self.new ≡ self.old) }
    {
        let alloc = *self.members.allocator();
        self.members = unite_each(alloc, &self.members, &other.members)?;
        self.spare = 0;
        Ok(())
    }

    /// The ids stand by member, and of one member the greatest number first, each once: so vectors that
    /// hold the same ids are seen as one list.
    #[tactic(auto, using(crate::proofs::Views::ids_sorted))]
    pub fn has_ids_in_order(&self)
        ensures { IsSorted self.now.ids }
    {
        let _ = &self.members;
    }

    /// The same ids. The copy has no room to spare.
    pub fn copy(&self, alloc: Global) -> Result<Vector, Memory>
        ensures { IfOk result (λ copy. copy ≡ record { ids = self.now.ids; spare = 0 }) }
    {
        Ok(Vector {
            members: copy_each(alloc, &self.members)?,
            spare: 0,
        })
    }
}

/// The same ids, and room as this has.
impl Copied for Vector {
    fn copy(&self, alloc: Global) -> Result<Vector, Memory> {
        let mut copy = Vector::copy(self, alloc)?;
        if self.spare == 1 {
            copy.reserve()?;
        }
        Ok(copy)
    }
}
