ghost use Rattle.std.specs.Prelude.{◌≡◌, ◌≤◌, ◌<◌, ◌^◌, ℕ, true, false, IfOk, OnOk, OnErr};
ghost use Rattle.std.specs.List.{AllByRecursion};
ghost use Rattle.std.specs.Option.{option_to_list};
ghost use Rattle.gr_value.specs.Shard.{shard_of};
ghost use Rattle.gr_history.specs.declared.deed.Deed.TheVariants as deed;
ghost use Rattle.gr_history.specs.Asks.{key_of};
ghost use Rattle.gr_shard.specs.Merges.{IsImageFor};
ghost use Rattle.gr_shard.specs.Prepared.{Belongs};
ghost use Rattle.gr_member.specs.Plans.{identity_of};
ghost use Rattle.gr_member.specs.Seats.{Acts, Gives, Peeks};
ghost use Rattle.gr_member.specs.Passes.{IsPassOf, StaysAll, At, AddsAt, LooksAt, LooksAll, LooksUpAll, MeetsAll};
ghost use Rattle.gr_member.specs.Passes.{TurnsAll, TurnsSome, SweepsAll, AreReady, OneWaits};

use crate::answers::gift_in;
use crate::lock::ShardLock;
use crate::meeting::meet_each;
use crate::pass::Pass;
use crate::plan::Plan;
use crate::rounds::{look_each, query_each, ready_each, report_each, sweep_each};
use crate::tasks::{Call, TakeIn, Task};
use gr_history::{Ask, Done, Gift, Image, QueryAsk, QueryReplyList, Verdict, What};
use gr_peek::{PeekEnd, Seen};
use gr_shard::Next;
use gr_stamp::Change;
use gr_value::{Key, Memory, Shared};
use gr_vector::{Report, ReportList};
use std::alloc::Global;
use std::marker::Model;
use std::sync::Wait;

/// A member, which contracts see as its plan and the locks of its shards. It is never dropped: `end` and
/// `stop` take it apart.
pub struct Member {
    pub(crate) plan: Plan,
    pub(crate) locks: Vec<ShardLock>,
}

impl Model for Member {
    ghost use Rattle.std.specs.Prelude.{◌≡◌, vec_len};
    ghost use Rattle.gr_member.specs.Passes.{House};
    ghost use Rattle.gr_member.specs.Plans.{IsPlan};

    ghost Value = { House };

    ghost view = { λ member. record { plan = member.plan; locks = member.locks.items } };

    ghost invariant = { λ member. (vec_len member.locks ≡ member.plan.shards) × IsPlan member.plan };
}

// Each adds one deed at one shard, or none where memory is refused.
impl Member {
    /// A step of a client, at the shard of its key.
    pub fn call<R: Wait + Sync>(
        &self,
        rt: &R,
        alloc: Global,
        pass: &mut Pass,
        client: u8,
        seq: u32,
        ask: &Ask,
    ) -> Result<Done, Memory>
        requires { IsPassOf self.now pass.old }
        ensures stays { StaysAll pass.old pass.new }
        ensures members { IfOk result (λ done. done.to < 2 ^ self.now.plan.members) }
        ensures here { IfOk result (λ done. AllByRecursion
            (λ change. shard_of change.key self.now.plan.shards ≡ shard_of (key_of ask.now) self.now.plan.shards)
            (option_to_list done.made)) }
        ensures done { IfOk result (λ done. AddsAt (shard_of (key_of ask.now) self.now.plan.shards) pass.old
            (deed.Call client done.to seq ask.now done.reply done.made) pass.new) }
        ensures refused { OnErr result (LooksAt (shard_of (key_of ask.now) self.now.plan.shards) pass.old pass.new) }
    {
        let shard = ask.key().shard(self.plan.shards);
        self.act(rt, alloc, pass, shard, &Call { client, seq, ask })
    }

    /// A change that another member made, at the shard of its key.
    pub fn take_in<R: Wait + Sync>(
        &self,
        rt: &R,
        alloc: Global,
        pass: &mut Pass,
        change: &Shared<Change>,
    ) -> Result<Verdict, Memory>
        requires { IsPassOf self.now pass.old }
        ensures stays { StaysAll pass.old pass.new }
        ensures done { IfOk result (λ told. AddsAt (shard_of change.now.key self.now.plan.shards) pass.old
            (deed.Taken change.now told) pass.new) }
        ensures refused { OnErr result (LooksAt (shard_of change.now.key self.now.plan.shards) pass.old pass.new) }
    {
        let shard = change.get().key.shard(self.plan.shards);
        self.act(rt, alloc, pass, shard, &TakeIn { change })
    }

    /// A report that another member made of the shard.
    pub fn hear<R: Wait + Sync>(
        &self,
        rt: &R,
        alloc: Global,
        pass: &mut Pass,
        shard: u8,
        report: &Report,
    ) -> Result<(), Memory>
        requires pass { IsPassOf self.now pass.old }
        requires shard { shard < self.now.plan.shards }
        ensures stays { StaysAll pass.old pass.new }
        ensures done { OnOk result (AddsAt shard pass.old (deed.Heard report.now) pass.new) }
        ensures refused { OnErr result (LooksAt shard pass.old pass.new) }
    {
        self.act(rt, alloc, pass, shard, &Next::Hear { report })?;
        Ok(())
    }

    /// What a joiner is given of the shard.
    pub fn give<R: Wait + Sync>(
        &self,
        rt: &R,
        alloc: Global,
        pass: &mut Pass,
        shard: u8,
        to: u8,
        what: What,
    ) -> Result<Gift, Memory>
        requires pass { IsPassOf self.now pass.old }
        requires shard { shard < self.now.plan.shards }
        requires to { (1 ≤ to) × (to ≤ self.now.plan.members) }
        ensures stays { StaysAll pass.old pass.new }
        ensures done { IfOk result (λ gift. At shard
            (λ s t. Gives (identity_of self.now.plan shard) self.now.plan.floor s to what gift t) pass.old pass.new) }
        ensures refused { OnErr result (LooksAt shard pass.old pass.new) }
    {
        let came = self.act(rt, alloc, pass, shard, &Next::Give { to, what })?;
        Ok(gift_in(came))
    }

    /// An image that another member gave of the shard.
    pub fn merge<R: Wait + Sync>(
        &self,
        rt: &R,
        alloc: Global,
        pass: &mut Pass,
        shard: u8,
        image: &Image,
    ) -> Result<(), Memory>
        requires pass { IsPassOf self.now pass.old }
        requires shard { shard < self.now.plan.shards }
        requires image { IsImageFor (identity_of self.now.plan shard) image.now }
        ensures stays { StaysAll pass.old pass.new }
        ensures done { OnOk result (AddsAt shard pass.old (deed.Imaged image.now) pass.new) }
        ensures refused { OnErr result (LooksAt shard pass.old pass.new) }
    {
        self.act(rt, alloc, pass, shard, &Next::Merge { image })?;
        Ok(())
    }

    // What is done at the shard.
    fn act<R: Wait + Sync, T: Task>(
        &self,
        rt: &R,
        alloc: Global,
        pass: &mut Pass,
        shard: u8,
        task: &T,
    ) -> Result<T::Answer, Memory>
        requires pass { IsPassOf self.now pass.old }
        requires shard { shard < self.now.plan.shards }
        requires here { Belongs (identity_of self.now.plan shard) (T.next task.now) }
        ensures stays { StaysAll pass.old pass.new }
        ensures done { IfOk result (λ answer. At shard (λ s t. Acts s (T.next task.now) (T.came answer) t) pass.old pass.new) }
        ensures refused { OnErr result (LooksAt shard pass.old pass.new) }
    {
        let at = usize::from(shard);
        let lock = &self.locks[at];
        pass.shards[at].act(rt, alloc, &lock.lock, task)
    }
}

impl Member {
    /// What is present at the key, by the published copy of its shard. It takes no turn and never waits.
    /// The place is at least that behind each deed that the pass has seen there, its own among them.
    pub fn peek(&self, alloc: Global, pass: &mut Pass, key: &Key) -> Result<Seen, PeekEnd>
        requires { IsPassOf self.now pass.old }
        ensures stays { StaysAll pass.old pass.new }
        ensures peeks { At (shard_of key.now self.now.plan.shards) (Peeks key.now result) pass.old pass.new }
    {
        let at = usize::from(key.shard(self.plan.shards));
        pass.shards[at].peek(alloc, key)
    }
}

// Each goes from shard to shard, each under its own turn.
impl Member {
    /// A client's step on one of its queries, at every shard. After a refusal the shards before it have
    /// their deed.
    pub fn query<R: Wait + Sync>(
        &self,
        rt: &R,
        alloc: Global,
        pass: &mut Pass,
        client: u8,
        seq: u32,
        ask: &QueryAsk,
    ) -> Result<QueryReplyList, Memory>
        requires { IsPassOf self.now pass.old }
        ensures stays { StaysAll pass.old pass.new }
        ensures done { IfOk result (λ replies. TurnsAll (λ reply. deed.Asked client seq ask.now reply) pass.old replies pass.new) }
        ensures refused { OnErr result (TurnsSome (λ reply. deed.Asked client seq ask.now reply) pass.old pass.new) }
    {
        query_each(rt, alloc, &self.locks, &mut pass.shards, client, seq, ask)
    }

    /// What the member knows, a report of each shard. After a refusal the shards before it have their deed.
    pub fn report<R: Wait + Sync>(
        &self,
        rt: &R,
        alloc: Global,
        pass: &mut Pass,
    ) -> Result<ReportList, Memory>
        requires { IsPassOf self.now pass.old }
        ensures stays { StaysAll pass.old pass.new }
        ensures done { IfOk result (λ reports. TurnsAll deed.Reported pass.old reports pass.new) }
        ensures refused { OnErr result (TurnsSome deed.Reported pass.old pass.new) }
    {
        report_each(rt, alloc, &self.locks, &mut pass.shards)
    }

    /// Drops the tombstones that have timed out at a moment and are stable, and answers how many they
    /// are. After a refusal the shards before it have their deed.
    pub fn sweep<R: Wait + Sync>(
        &self,
        rt: &R,
        alloc: Global,
        pass: &mut Pass,
        moment: u64,
    ) -> Result<u64, Memory>
        requires { IsPassOf self.now pass.old }
        ensures stays { StaysAll pass.old pass.new }
        ensures done { IfOk result (λ count. SweepsAll moment count pass.old pass.new) }
        ensures refused { OnErr result (TurnsSome (deed.Swept moment) pass.old pass.new) }
    {
        sweep_each(rt, alloc, &self.locks, &mut pass.shards, moment)
    }

    /// Whether each of the shards was ready when it was looked at. It stops at the first that wasn't.
    pub fn ready<R: Wait + Sync>(&self, rt: &R, pass: &mut Pass) -> bool
        requires { IsPassOf self.now pass.old }
        ensures looks { LooksAll pass.old pass.new }
        ensures ready { result ≡ true → AreReady self.now.plan pass.new }
        ensures waits { result ≡ false → OneWaits self.now.plan pass.old pass.new }
    {
        ready_each(rt, &self.locks, &mut pass.shards)
    }

    /// Goes to each shard and brings the pass's eye there up to all that is published. So all that the eye
    /// ever knew is a beginning of what the deeds turned that the pass has then seen.
    pub fn look<R: Wait + Sync>(&self, rt: &R, pass: &mut Pass)
        requires { IsPassOf self.now pass.old }
        ensures stays { StaysAll pass.old pass.new }
        ensures looks { LooksUpAll pass.old pass.new }
    {
        look_each(rt, &self.locks, &mut pass.shards);
    }

    /// The first pass takes in what the second one knows, and all its numbers.
    pub fn meet(&self, into: &mut Pass, from: Pass)
        requires into { IsPassOf self.now into.old }
        requires from { IsPassOf self.now from }
        ensures { MeetsAll into.old from into.new }
    {
        let Pass { shards } = from;
        meet_each(&self.locks, &mut into.shards, shards);
    }
}
