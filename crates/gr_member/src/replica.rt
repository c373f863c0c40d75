ghost use Rattle.std.specs.Prelude.{◌≡◌, [], reverse, vec_len, false, IfOk, OnOk, OnErr};
ghost use Rattle.std.specs.List.{AllByRecursion};
ghost use Rattle.gr_history.specs.Recipients.{NamesMembers, is_ready};
ghost use Rattle.gr_history.specs.Lawful.{IsLawful, IsOfShard};
ghost use Rattle.gr_value.specs.Lists.{StartsWith};
ghost use Rattle.gr_peek_law.specs.Turns.{turned_each};
ghost use Rattle.gr_shard.specs.View.{IsPlace};
ghost use Rattle.gr_shard.specs.Prepared.{Belongs};
ghost use Rattle.gr_history.specs.Regions.{IsRegionOf};
ghost use Rattle.gr_member.specs.Fresh.{AreUnused};
ghost use Rattle.gr_member.specs.Replicas.{Does};

use crate::serving::Newest;
use crate::tasks::{Means, Task};
use crate::watch::{Watch, watches_of};
use gr_history::{Deed, Identity, ShardRecord};
use gr_peek::{CopyName, Published, Told};
use gr_shard::Shard;
use gr_turn::Kept;
use gr_value::Memory;
use std::alloc::Global;
use std::marker::Model;
use std::sync::Wait;

/// What a turn keeps: a shard, and the copy in which the turned keys of its deeds are published. It is
/// never dropped: `end` takes it apart. Both stand in boxes, since each turn moves what it keeps.
pub struct Replica {
    shard: Box<Shard>,
    published: Box<Published>,
}

/// What stays of a replica: whose shard it is, the floor that it began with, and which copy stands beside
/// it. No running code makes one.
pub struct Origin {
    pub id: Identity,
    pub opening: u64,
    pub copy: CopyName,
}

impl Model for Replica {
    ghost use Rattle.std.specs.Prelude.{◌≡◌, box_value, reverse};
    ghost use Rattle.std.specs.Coded.{codes};
    ghost use Rattle.gr_oql.specs.Question.{question_code};
    ghost use Rattle.gr_peek_law.specs.Turns.{turned_each};
    ghost use Rattle.gr_member.specs.Replicas.{Replicated, replicated};

    ghost Value = { Replicated };

    ghost coded = { Prim.hlevel (codes, question_code) };

    ghost view = { λ replica. replicated (box_value replica.shard) (box_value replica.published).copy };

    ghost invariant = { λ replica. (box_value replica.published).publications ≡ turned_each (reverse (box_value replica.shard).deeds) };
}

impl Kept for Replica {
    type Entry = Deed;

    type Base = Origin;

    ghost entries = { λ replica. replica.deeds };

    ghost base = { λ replica. replica.origin };

    fn len(&self) -> u64 {
        self.shard.history().as_slice().len() as u64
    }
}

impl Replica {
    // A shard with no deeds, and what looks at its copy, which is shown or isn't.
    pub(crate) fn new<R: Wait>(
        rt: &R,
        alloc: Global,
        id: Identity,
        floor: u64,
        eyes: u32,
        shown: bool,
    ) -> Result<(Replica, Vec<Watch>), Memory>
        requires { IsPlace id floor }
        ensures id { IfOk result (λ made. made.0.origin.id ≡ id) }
        ensures floor { IfOk result (λ made. made.0.origin.opening ≡ floor) }
        ensures none { IfOk result (λ made. made.0.deeds ≡ []) }
        ensures count { IfOk result (λ made. vec_len made.1 ≡ eyes) }
        ensures each { IfOk result (λ made. AreUnused eyes shown made.0.origin.copy made.1.items) }
    {
        let shard = Box::new(alloc, Shard::new(alloc, id, floor)?)?;
        let (published, eyes) = Published::new(rt, alloc, eyes, shown)?;
        let Ok(watches) = watches_of(alloc, &published, eyes) else {
            published.end(rt);
            return Err(Memory);
        };
        match Box::new(alloc, published) {
            Ok(published) => Ok((Replica { shard, published }, watches)),
            Err(refused) => {
                refused.value.end(rt);
                Err(Memory)
            }
        }
    }

    // Adds one deed and publishes what it turns, or does neither where memory is refused.
    #[inline(always)]
    pub(crate) fn act<R: Wait, T: Task>(
        &mut self,
        rt: &R,
        alloc: Global,
        task: &T,
    ) -> Result<T::Answer, Memory>
        requires { Belongs self.old.origin.id (T.next task.now) }
        ensures based { self.new.origin ≡ self.old.origin }
        ensures grows { StartsWith self.new.deeds self.old.deeds }
        ensures done { IfOk result (λ answer. Does self.old (T.next task.now) (T.came answer) self.new) }
        ensures err { OnErr result (self.new.deeds ≡ self.old.deeds) }
    {
        if self.published.is_shown() {
            return self.act_shown(rt, alloc, task);
        }
        let at = self.len() + 1;
        let answer = task.serve(&mut self.shard, alloc)?;
        self.published
            .count::<R, Shard, Newest>(rt, &self.shard, at);
        // So that what the shard's type says of the new deed is known to the proof.
        let _ = self.shard.history();
        Ok(answer)
    }

    // The same, where the copy is shown.
    fn act_shown<R: Wait, T: Task>(
        &mut self,
        rt: &R,
        alloc: Global,
        task: &T,
    ) -> Result<T::Answer, Memory>
        requires { Belongs self.old.origin.id (T.next task.now) }
        ensures based { self.new.origin ≡ self.old.origin }
        ensures grows { StartsWith self.new.deeds self.old.deeds }
        ensures done { IfOk result (λ answer. Does self.old (T.next task.now) (T.came answer) self.new) }
        ensures err { OnErr result (self.new.deeds ≡ self.old.deeds) }
    {
        let at = self.len() + 1;
        let means = Means { rt, alloc, at };
        let answer = task.show(&mut self.shard, &mut self.published, &means)?;
        // So that what the shard's type says of the new deed is known to the proof.
        let _ = self.shard.history();
        Ok(answer)
    }

    // A note of what is published.
    pub(crate) fn tell(&self) -> Told
        ensures { result ≡ record { copy = self.now.origin.copy; publications = turned_each (reverse self.now.deeds) } }
    {
        self.published.tell()
    }

    pub(crate) fn ready(&self) -> bool
        ensures { result ≡ is_ready self.now.origin.id (reverse self.now.deeds) }
    {
        self.shard.ready()
    }

    pub(crate) fn end<R: Wait>(self, rt: &R) {
        let Replica {
            shard: _,
            published,
        } = self;
        Box::into_inner(published).end(rt);
    }

    // What the shard leaves.
    pub(crate) fn into_record<R: Wait>(self, rt: &R, alloc: Global) -> Result<ShardRecord, Memory>
        ensures deeds { IfOk result (λ left. left.history.deeds ≡ self.deeds) }
        ensures region { IfOk result (λ left. IsRegionOf self.origin.opening (reverse self.deeds) left.region) }
        ensures lawful { OnOk result (IsLawful self.origin.id self.origin.opening (reverse self.deeds)) }
        ensures of_shard { OnOk result (IsOfShard self.origin.id (reverse self.deeds)) }
        ensures named { OnOk result (AllByRecursion (NamesMembers self.origin.id) (reverse self.deeds)) }
    {
        let Replica { shard, published } = self;
        Box::into_inner(published).end(rt);
        // So that what the shard's type says of its history is known to the proof.
        let _ = shard.history();
        Box::into_inner(shard).into_record(alloc)
    }
}
