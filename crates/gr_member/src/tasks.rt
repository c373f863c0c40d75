// What is done at a shard in one turn.
ghost use Rattle.std.specs.Prelude.{◌≡◌, ◌+◌, List, length, IfOk, OnErr};
ghost use Rattle.gr_oql.specs.declared.event.Turned.{Turned};
ghost use Rattle.gr_shard.specs.Prepared.{Belongs};
ghost use Rattle.gr_shard.specs.View.{with_spare};
ghost use Rattle.gr_shard.specs.declared.next.Came.{Came};
ghost use Rattle.gr_shard.specs.declared.next.Next.{Next};
ghost use Rattle.gr_member.specs.Replicas.{Serves, Shows, told_of};

use crate::serving::serve;
use gr_cq::Turned;
use gr_history::{Ask, Done, Verdict};
use gr_peek::{Published, Told};
use gr_shard::{Came, Next, Publisher, Shard};
use gr_stamp::Change;
use gr_value::{Memory, Shared};
use std::alloc::Global;
use std::marker::PhantomData;
use std::sync::Wait;

// What is to be done next, as the shard's call of that name, which has an answer of its own.
pub(crate) trait Task {
    type Answer;

    ghost next: { Self → Next };

    ghost came: { Self.Answer → Came };

    // Does it, where nothing is shown.
    fn serve(&self, shard: &mut Shard, alloc: Global) -> Result<Self::Answer, Memory>
        requires { Belongs shard.old.id (next self.now) }
        ensures done { IfOk result (λ answer. Serves shard.old (next self.now) (came answer) shard.new) }
        ensures err { OnErr result (shard.new ≡ with_spare shard.new.spare shard.old) };

    // Does it, once what it turns is published.
    fn show<R: Wait>(
        &self,
        shard: &mut Shard,
        published: &mut Published,
        means: &Means<R>,
    ) -> Result<Self::Answer, Memory>
        requires here { Belongs shard.old.id (next self.now) }
        requires ready { means.now.at ≡ length published.old.publications + 1 }
        ensures done { IfOk result (λ answer. Shows shard.old (next self.now) (came answer) shard.new
            (told_of published.old) (told_of published.new)) }
        ensures err { OnErr result (shard.new ≡ with_spare shard.new.spare shard.old) }
        ensures unpublished { OnErr result (told_of published.new ≡ told_of published.old) };
}

// What it takes to publish what the `at`-th deed turns.
#[derive(Drop)]
pub(crate) struct Means<'a, R> {
    pub rt: &'a R,
    pub alloc: Global,
    pub at: u64,
}

// Publishes what is turned to those that are shown the copy.
pub(crate) struct Showing<'a, R> {
    means: PhantomData<&'a R>,
}

impl<'a, R: Wait> Publisher for Showing<'a, R> {
    ghost use Rattle.std.specs.Prelude.{◌≡◌, ◌+◌, length};
    ghost use Rattle.gr_member.specs.Replicas.{told_of, told_more};

    type Published = Published;

    type Note = Told;

    type By = Means<'a, R>;

    ghost note = { told_of };

    ghost adds = { told_more };

    ghost ready = { λ published means. means.at ≡ length published.publications + 1 };

    #[inline(always)]
    fn publish(
        published: &mut Published,
        by: &Means<'a, R>,
        turned: &[Turned],
    ) -> Result<(), Memory> {
        published.publish(by.rt, by.alloc, turned, by.at)
    }
}

// A step of a client.
#[derive(Drop)]
pub(crate) struct Call<'a> {
    pub client: u8,
    pub seq: u32,
    pub ask: &'a Ask,
}

impl<'a> Task for Call<'a> {
    ghost use Rattle.gr_shard.specs.declared.next.Came.TheVariants as came_;
    ghost use Rattle.gr_shard.specs.declared.next.Next.TheVariants as next_;

    type Answer = Done;

    ghost next = { λ call. next_.Call call.client call.seq call.ask };

    ghost came = { came_.Done };

    #[inline(always)]
    fn serve(&self, shard: &mut Shard, alloc: Global) -> Result<Done, Memory> {
        shard.call(alloc, self.client, self.seq, self.ask)
    }

    #[inline(always)]
    fn show<R: Wait>(
        &self,
        shard: &mut Shard,
        published: &mut Published,
        means: &Means<R>,
    ) -> Result<Done, Memory> {
        let Call { client, seq, ask } = self;
        shard.call_published::<Showing<R>>(means.alloc, *client, *seq, ask, published, means)
    }
}

// A change that another member made.
#[derive(Drop)]
pub(crate) struct TakeIn<'a> {
    pub change: &'a Shared<Change>,
}

impl<'a> Task for TakeIn<'a> {
    ghost use Rattle.gr_shard.specs.declared.next.Came.TheVariants as came_;
    ghost use Rattle.gr_shard.specs.declared.next.Next.TheVariants as next_;

    type Answer = Verdict;

    ghost next = { λ taking. next_.TakeIn taking.change };

    ghost came = { came_.Verdict };

    #[inline(always)]
    fn serve(&self, shard: &mut Shard, alloc: Global) -> Result<Verdict, Memory> {
        shard.take_in(alloc, self.change)
    }

    #[inline(always)]
    fn show<R: Wait>(
        &self,
        shard: &mut Shard,
        published: &mut Published,
        means: &Means<R>,
    ) -> Result<Verdict, Memory> {
        shard.take_in_published::<Showing<R>>(means.alloc, self.change, published, means)
    }
}

// Anything, with the answer of whatever it is.
impl<'a> Task for Next<'a> {
    type Answer = Came;

    ghost next = { λ next. next };

    ghost came = { λ came. came };

    fn serve(&self, shard: &mut Shard, alloc: Global) -> Result<Came, Memory> {
        serve(shard, alloc, self)
    }

    fn show<R: Wait>(
        &self,
        shard: &mut Shard,
        published: &mut Published,
        means: &Means<R>,
    ) -> Result<Came, Memory> {
        let prepared = shard.prepare(means.alloc, self)?;
        published.publish(means.rt, means.alloc, prepared.turned(), means.at)?;
        Ok(shard.commit(prepared))
    }
}
