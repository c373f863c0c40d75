// How a member is made.
ghost use Rattle.std.specs.Prelude.{◌≡◌, ◌≤◌, ◌<◌, ℕ, length, vec_len, IfOk};
ghost use Rattle.gr_member.specs.Plans.{IsPlan, identity_of};
ghost use Rattle.gr_member.specs.Fresh.{AreFresh, AreShown, AreSeats, AreUnused};

use crate::dealing::{deal, empty_passes, let_go};
use crate::ending::undo;
use crate::lock::ShardLock;
use crate::member::Member;
use crate::pass::PassList;
use crate::plan::Plan;
use crate::replica::Replica;
use crate::watch::Watch;
use gr_history::Identity;
use gr_turn::{SeatList, TurnLock};
use gr_value::Memory;
use std::alloc::Global;
use std::sync::Wait;

impl Member {
    /// A member with no deeds, and so many passes, of which the pass k has the number k. Where its copies
    /// aren't shown it publishes nothing, which takes a third less time, and each peek is denied.
    pub fn new<R: Wait>(
        rt: &R,
        alloc: Global,
        plan: Plan,
        passes: u32,
        shown: bool,
    ) -> Result<(Member, PassList), Memory>
        requires plan { IsPlan plan }
        requires some { 1 ≤ passes }
        ensures plan { IfOk result (λ made. made.0.plan ≡ plan) }
        ensures locks { IfOk result (λ made. length made.0.locks ≡ plan.shards) }
        ensures count { IfOk result (λ made. length made.1 ≡ passes) }
        ensures fresh { IfOk result (λ made. AreFresh made.0 passes made.1) }
        ensures shown { IfOk result (λ made. AreShown shown passes made.1) }
    {
        let shards = usize::from(plan.shards);
        let mut dealt = empty_passes(alloc, passes, shards)?;
        let Ok(mut locks) = Vec::with_capacity(alloc, shards) else {
            let_go(dealt);
            return Err(Memory);
        };
        for shard in 0..plan.shards {
            let Ok(opened) = open(rt, alloc, plan, shard, passes, shown) else {
                undo(rt, locks, dealt);
                return Err(Memory);
            };
            let Opened {
                lock,
                seats,
                watches,
            } = opened;
            locks.push_reserved(lock);
            deal(&mut dealt, seats, watches);
        }
        Ok((Member { plan, locks }, PassList { passes: dealt }))
    }
}

// The lock of one shard, with its seats, and for each of them what looks at the copy.
struct Opened {
    lock: ShardLock,
    seats: SeatList<Replica>,
    watches: Vec<Watch>,
}

fn open<R: Wait>(
    rt: &R,
    alloc: Global,
    plan: Plan,
    shard: u8,
    passes: u32,
    shown: bool,
) -> Result<Opened, Memory>
    requires plan { IsPlan plan }
    requires shard { shard < plan.shards }
    requires some { 1 ≤ passes }
    ensures count { IfOk result (λ made. (length made.seats ≡ passes) × (vec_len made.watches ≡ passes)) }
    ensures each { IfOk result (λ made. AreSeats plan shard passes made.lock made.seats) }
    ensures watched { IfOk result (λ made. AreUnused passes shown made.lock.name.copy made.watches.items) }
{
    let id = Identity {
        member: plan.member,
        members: plan.members,
        founders: plan.founders,
        shard,
        shards: plan.shards,
    };
    let (replica, watches) = Replica::new(rt, alloc, id, plan.floor, passes, shown)?;
    let name = replica.tell();
    match TurnLock::new(alloc, replica, passes) {
        Ok(made) => Ok(Opened {
            lock: ShardLock { lock: made.0, name },
            seats: made.1,
            watches,
        }),
        Err((memory, replica)) => {
            replica.end(rt);
            Err(memory)
        }
    }
}
