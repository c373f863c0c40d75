ghost use Rattle.std.specs.Prelude.{◌≡◌, ◌≤◌, IfOk};

use crate::making::one_key;
use crate::parts::Parts;
use crate::seen::Seen;
use crate::stop::Stop;
use crate::words::Answer;
use gr_history::{Ask, Done, Gift, Identity, Image, QueryAsk, QueryReply, Verdict, What};
use gr_shard::Shard;
use gr_stamp::{Change, LIMIT};
use gr_value::{Key, Shared};
use gr_vector::Report;
use std::alloc::Global;

/// A member: its one shard, and the parts of that by hand.
#[derive(Drop)]
pub struct Member {
    key: Key,
    members: u8,
    steps: u32,
    shard: Shard,
    pub parts: Parts,
    ghost shards: { shard.id.shards ≡ 1 },
    ghost here: { shard.id.shard ≡ 0 },
    ghost stated: { shard.id.members ≡ members },
}

fn make_shard(alloc: Global, member: u8, members: u8) -> Result<Shard, Stop>
    requires some { 1 ≤ member }
    requires stated { member ≤ members }
    requires founded { 2 ≤ members }
    requires few { members ≤ 8 }
    ensures members { IfOk result (λ shard. shard.id.members ≡ members) }
    ensures shard { IfOk result (λ shard. shard.id.shard ≡ 0) }
    ensures shards { IfOk result (λ shard. shard.id.shards ≡ 1) }
{
    let id = Identity {
        member,
        members,
        founders: 2,
        shard: 0,
        shards: 1,
    };
    if let Ok(shard) = Shard::new(alloc, id, 0) {
        return Ok(shard);
    }
    Ok(Shard::new(alloc, id, 0)?)
}

impl Member {
    /// A member of so many, of which two are founders.
    pub fn new(alloc: Global, member: u8, members: u8) -> Result<Member, Stop>
        requires some { 1 ≤ member }
        requires stated { member ≤ members }
        requires founded { 2 ≤ members }
        requires few { members ≤ 8 }
    {
        Ok(Member {
            key: one_key(alloc)?,
            members,
            steps: 0,
            shard: make_shard(alloc, member, members)?,
            parts: Parts::new(alloc, member)?,
        })
    }

    fn seen(&self) -> Seen {
        Seen::of(
            self.shard.history(),
            self.shard.slots(),
            self.shard.vector(),
            self.shard.floor(),
            &self.key,
        )
    }

    /// Adds to the parts what the shard added to its history, and prints the step, what it answers, and what
    /// stands behind it.
    pub fn end(&mut self, rt: &HostRuntime, step: &str, answer: Answer) -> Result<(), Stop> {
        self.parts.add(rt.alloc(), self.shard.history())?;
        let beside = self.parts.beside();
        if self.seen() != beside.seen {
            return Err(Stop::Otherwise);
        }
        Ok(println!(rt; "{step}: {answer} | {beside}")?)
    }

    // The number of the client's next step.
    fn next_step(&mut self) -> u32 {
        self.steps = self.steps.saturating_add(1);
        self.steps
    }

    /// The client of this member, which has its number, does a call.
    pub fn done(&mut self, alloc: Global, ask: &Ask) -> Result<Done, Stop> {
        let (client, seq) = (self.parts.me, self.next_step());
        if ask.key().shard(1) != 0 {
            return Err(Stop::Otherwise);
        }
        Ok(twice!(self.seen(), self.shard.call(alloc, client, seq, ask))?)
    }

    pub fn asked(&mut self, alloc: Global, ask: &QueryAsk) -> Result<QueryReply, Stop> {
        let (client, seq) = (self.parts.me, self.next_step());
        Ok(twice!(self.seen(), self.shard.query(alloc, client, seq, ask))?)
    }

    pub fn taken_in(&mut self, alloc: Global, change: &Shared<Change>) -> Result<Verdict, Stop> {
        if change.get().key.shard(1) != 0 {
            return Err(Stop::Otherwise);
        }
        Ok(twice!(self.seen(), self.shard.take_in(alloc, change))?)
    }

    pub fn given(&mut self, alloc: Global, to: u8, what: What) -> Result<Gift, Stop> {
        if to == 0 || to > self.members {
            return Err(Stop::Otherwise);
        }
        Ok(twice!(self.seen(), self.shard.give(alloc, to, what))?)
    }

    /// Merges an image without rows.
    pub fn merged(&mut self, alloc: Global, image: &Image) -> Result<(), Stop> {
        if image.rows.get().len() != 0 || image.floor > LIMIT {
            return Err(Stop::Otherwise);
        }
        Ok(twice!(self.seen(), self.shard.merge(alloc, image))?)
    }

    pub fn reported(&mut self, alloc: Global) -> Result<Report, Stop> {
        Ok(twice!(self.seen(), self.shard.report(alloc))?)
    }

    pub fn heard(&mut self, alloc: Global, report: &Report) -> Result<(), Stop> {
        Ok(twice!(self.seen(), self.shard.hear(alloc, report))?)
    }

    pub fn swept(&mut self, alloc: Global, moment: u64) -> Result<u64, Stop> {
        Ok(twice!(self.seen(), self.shard.sweep(alloc, moment))?)
    }

    // Whether copies of the parts have what these have.
    fn is_copied(&self, alloc: Global) -> Result<bool, Stop> {
        let deeds = anew!(self.parts.history.copy(alloc))?.len();
        let top = anew!(self.parts.vector.copy(alloc))?.top(1);
        Ok(deeds == self.parts.history.len() && top == self.parts.vector.top(1))
    }

    /// Prints what the shard leaves.
    pub fn leave(&self, rt: &HostRuntime) -> Result<(), Stop> {
        if !self.is_copied(rt.alloc())? {
            return Err(Stop::Otherwise);
        }
        let left = anew!(self.shard.taken_out(rt.alloc()))?;
        let (entries, tombstones) = (left.region.rows.len(), left.region.tombstones);
        let (me, conflated) = (self.parts.me, left.history.discarded());
        Ok(println!(rt;
            "member {me}: entries {entries}, tombstones {tombstones}, conflated {conflated}"
        )?)
    }
}
