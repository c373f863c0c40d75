// What goes from shard to shard.
ghost use Rattle.std.specs.Prelude.{◌≡◌, ◌≤◌, vec_len, true, false, IfOk, OnErr};
ghost use Rattle.gr_history.specs.declared.deed.Deed.TheVariants as deed;
ghost use Rattle.gr_member.specs.Passes.{AreTheirs, StaysAll, LooksAll, LooksUpAll, TurnsAll, TurnsSome, SweepsAll, AreReadyBy, OneWaitsBy};

use crate::answers::{count_in, reply_in, report_in};
use crate::lock::ShardLock;
use crate::pass::ShardPass;
use gr_history::{QueryAsk, QueryReplyList};
use gr_shard::Next;
use gr_value::Memory;
use gr_vector::ReportList;
use std::alloc::Global;
use std::sync::Wait;

pub(crate) fn query_each<R: Wait + Sync>(
    rt: &R,
    alloc: Global,
    locks: &[ShardLock],
    shards: &mut Vec<ShardPass>,
    client: u8,
    seq: u32,
    ask: &QueryAsk,
) -> Result<QueryReplyList, Memory>
    requires its { AreTheirs locks.now shards.old.items }
    requires some { 1 ≤ vec_len shards.old }
    ensures stays { StaysAll shards.old.items shards.new.items }
    ensures done { IfOk result (λ replies. TurnsAll (λ reply. deed.Asked client seq ask.now reply) shards.old.items replies
        shards.new.items) }
    ensures refused { OnErr result (TurnsSome (λ reply. deed.Asked client seq ask.now reply) shards.old.items shards.new.items) }
{
    let next = Next::Query { client, seq, ask };
    let mut replies = Vec::with_capacity(alloc, shards.len())?;
    for k in 0..shards.len() {
        let came = shards[k].act(rt, alloc, &locks[k].lock, &next)?;
        replies.push_reserved(reply_in(came));
    }
    Ok(QueryReplyList::from_vec(replies))
}

pub(crate) fn report_each<R: Wait + Sync>(
    rt: &R,
    alloc: Global,
    locks: &[ShardLock],
    shards: &mut Vec<ShardPass>,
) -> Result<ReportList, Memory>
    requires its { AreTheirs locks.now shards.old.items }
    requires some { 1 ≤ vec_len shards.old }
    ensures stays { StaysAll shards.old.items shards.new.items }
    ensures done { IfOk result (λ reports. TurnsAll deed.Reported shards.old.items reports shards.new.items) }
    ensures refused { OnErr result (TurnsSome deed.Reported shards.old.items shards.new.items) }
{
    let mut reports = Vec::with_capacity(alloc, shards.len())?;
    for k in 0..shards.len() {
        let came = shards[k].act(rt, alloc, &locks[k].lock, &Next::Tell)?;
        reports.push_reserved(report_in(came));
    }
    Ok(ReportList::from_vec(reports))
}

pub(crate) fn sweep_each<R: Wait + Sync>(
    rt: &R,
    alloc: Global,
    locks: &[ShardLock],
    shards: &mut Vec<ShardPass>,
    moment: u64,
) -> Result<u64, Memory>
    requires its { AreTheirs locks.now shards.old.items }
    requires some { 1 ≤ vec_len shards.old }
    ensures stays { StaysAll shards.old.items shards.new.items }
    ensures done { IfOk result (λ count. SweepsAll moment count shards.old.items shards.new.items) }
    ensures refused { OnErr result (TurnsSome (deed.Swept moment) shards.old.items shards.new.items) }
{
    let mut count = 0u64;
    for k in 0..shards.len() {
        let came = shards[k].act(rt, alloc, &locks[k].lock, &Next::Sweep { moment })?;
        count = count.saturating_add(count_in(came));
    }
    Ok(count)
}

pub(crate) fn ready_each<R: Wait + Sync>(
    rt: &R,
    locks: &[ShardLock],
    shards: &mut Vec<ShardPass>,
) -> bool
    requires { AreTheirs locks.now shards.old.items }
    ensures looks { LooksAll shards.old.items shards.new.items }
    ensures ready { result ≡ true → AreReadyBy shards.new.items }
    ensures waits { result ≡ false → OneWaitsBy shards.old.items shards.new.items }
{
    for k in 0..shards.len() {
        if !shards[k].ready(rt, &locks[k].lock) {
            return false;
        }
    }
    true
}

pub(crate) fn look_each<R: Wait + Sync>(rt: &R, locks: &[ShardLock], shards: &mut Vec<ShardPass>)
    requires { AreTheirs locks.now shards.old.items }
    ensures stays { StaysAll shards.old.items shards.new.items }
    ensures looks { LooksUpAll shards.old.items shards.new.items }
{
    for k in 0..shards.len() {
        shards[k].look(rt, &locks[k].lock);
    }
}
