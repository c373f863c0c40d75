// How a member is taken apart.
ghost use Rattle.std.specs.Prelude.{◌≡◌, ◌<◌, ◌≤◌, ℕ, length, vec_len, slice_index_or, IfOk, OnOk};
ghost use Rattle.gr_turn.specs.Views.{HasAll};
ghost use Rattle.gr_member.specs.Seats.{Place};
ghost use Rattle.gr_member.specs.Passes.{IsPassOf, AreTheirs, HaveAll};
ghost use Rattle.gr_member.specs.Left.{IsEndOf, IsOneMore, AreEndsOf, AreLeftBy};
ghost use Rattle.gr_member.specs.Dealing.{AreAllTheirs};

use crate::lock::ShardLock;
use crate::meeting::meet_each;
use crate::member::Member;
use crate::pass::{Pass, ShardPass};
use gr_history::{MemberRecord, ShardRecord, ShardRecordList};
use gr_value::Memory;
use std::alloc::Global;
use std::sync::Wait;

impl Member {
    /// Hands out what the member leaves, of which the pass tells. The histories aren't copied.
    pub fn end<R: Wait>(self, rt: &R, alloc: Global, pass: Pass) -> Result<MemberRecord, Memory>
        requires pass { IsPassOf self pass }
        requires all { HaveAll pass }
        ensures { IfOk result (λ left. AreLeftBy self.plan pass left) }
    {
        let Member { plan, locks } = self;
        let Pass { shards } = pass;
        let records = end_each(rt, alloc, locks, shards)?;
        Ok(MemberRecord {
            member: plan.member,
            shards: records,
        })
    }

    /// Takes the member apart where no record is wanted.
    pub fn stop<R: Wait>(self, rt: &R, pass: Pass)
        requires { IsPassOf self pass }
    {
        let Member { plan: _, locks } = self;
        let Pass { shards } = pass;
        stop_each(rt, locks, shards);
    }
}

// The records of all shards. The last shard is ended first.
fn end_each<R: Wait>(
    rt: &R,
    alloc: Global,
    locks: Vec<ShardLock>,
    shards: Vec<ShardPass>,
) -> Result<ShardRecordList, Memory>
    requires its { AreTheirs locks.items shards.items }
    requires all { HaveAll shards.items }
    ensures { IfOk result (λ records. AreEndsOf shards.items records) }
{
    let mut locks = locks;
    let mut shards = shards;
    let Ok(mut records) = ShardRecordList::new(alloc) else {
        stop_each(rt, locks, shards);
        return Err(Memory);
    };
    while let Some(lock) = locks.pop() {
        let Some(pass) = shards.pop() else {
            unreachable!()
        };
        let Ok(()) = end_into(rt, alloc, &mut records, lock, pass) else {
            stop_each(rt, locks, shards);
            return Err(Memory);
        };
    }
    locks.destroy_empty();
    shards.destroy_empty();
    records.reverse();
    Ok(records)
}

// Puts one shard's record, by its seat, behind these.
fn end_into<R: Wait>(
    rt: &R,
    alloc: Global,
    records: &mut ShardRecordList,
    lock: ShardLock,
    pass: ShardPass,
) -> Result<(), Memory>
    requires its { pass.lock ≡ lock.lock }
    requires all { HasAll pass.view }
    ensures { OnOk result (IsOneMore pass records.old records.new) }
{
    let left = end_one(rt, alloc, lock, pass)?;
    records.push(left)
}

// One shard's record, by its seat.
fn end_one<R: Wait>(
    rt: &R,
    alloc: Global,
    lock: ShardLock,
    pass: ShardPass,
) -> Result<ShardRecord, Memory>
    requires its { pass.lock ≡ lock.lock }
    requires all { HasAll pass.view }
    ensures { IfOk result (IsEndOf pass) }
{
    let ShardLock { lock, name: _ } = lock;
    let ShardPass { seat, watch: _ } = pass;
    let Some(seat) = seat else { unreachable!() };
    let ended = lock.end_with(seat);
    let Ok(replica) = ended else { unreachable!() };
    replica.into_record(rt, alloc)
}

// Where passes were still dealt.
pub(crate) fn undo<R: Wait>(rt: &R, locks: Vec<ShardLock>, passes: Vec<Vec<ShardPass>>)
    requires some { 1 ≤ vec_len passes }
    requires its { AreAllTheirs locks.items passes.items }
{
    let mut passes = passes;
    let Some(mut into) = passes.pop() else {
        unreachable!()
    };
    while let Some(from) = passes.pop() {
        meet_each(&locks, &mut into, from);
    }
    passes.destroy_empty();
    stop_each(rt, locks, into);
}

// Ends the locks of all shards, each with a seat.
fn stop_each<R: Wait>(rt: &R, locks: Vec<ShardLock>, shards: Vec<ShardPass>)
    requires { AreTheirs locks.items shards.items }
{
    let mut locks = locks;
    let mut shards = shards;
    while let Some(lock) = locks.pop() {
        let Some(pass) = shards.pop() else {
            unreachable!()
        };
        stop_one(rt, lock, pass);
    }
    locks.destroy_empty();
    shards.destroy_empty();
}

fn stop_one<R: Wait>(rt: &R, lock: ShardLock, pass: ShardPass)
    requires { pass.lock ≡ lock.lock }
{
    let ShardLock { lock, name: _ } = lock;
    let ShardPass { seat, watch: _ } = pass;
    let Some(seat) = seat else { unreachable!() };
    match lock.end_with(seat) {
        Ok(replica) => replica.end(rt),
        Err(Some(replica)) => replica.end(rt),
        Err(None) => (),
    }
}
