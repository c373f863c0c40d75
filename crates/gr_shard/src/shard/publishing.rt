ghost use Rattle.std.specs.Prelude.{◌≡◌, reverse, IfOk, OnOk, OnErr};
ghost use Rattle.gr_value.specs.Shard.{shard_of};
ghost use Rattle.gr_history.specs.declared.deed.Deed.TheVariants as deed;
ghost use Rattle.gr_history.specs.Asks.{key_of};
ghost use Rattle.gr_history.specs.Calls.{call_gives};
ghost use Rattle.gr_history.specs.Turned.{turned};
ghost use Rattle.gr_history.specs.Verdicts.{verdict};
ghost use Rattle.gr_shard.specs.Calls.{IsNextCall, call_with};
ghost use Rattle.gr_shard.specs.View.{after_deed, with_spare};

use super::Shard;
use crate::Publisher;
use crate::entering::applied;
use crate::making::{done_of, note};
use crate::telling::come_in_published;
use gr_history::{Ask, Done, Entry, Verdict, lent};
use gr_stamp::Change;
use gr_value::{Copied, Memory, Shared};
use std::alloc::Global;

impl Shard {
    /// Does a client's step as `call` does, once what it turns is published.
    pub fn call_published<P: Publisher>(
        &mut self,
        alloc: Global,
        client: u8,
        seq: u32,
        ask: &Ask,
        published: &mut P::Published,
        by: &P::By,
    ) -> Result<Done, Memory>
        requires here { shard_of (key_of ask.now) self.old.id.shards ≡ self.old.id.shard }
        requires ready { P.ready published.old by.now }
        ensures given { IfOk result (λ done. done ≡ call_gives self.old.id self.old.opening (reverse self.old.deeds) ask.now) }
        ensures added { IfOk result (λ done. self.new ≡ after_deed self.old (call_with client seq ask.now done)) }
        ensures turned { IfOk result (λ done. P.note published.new
            ≡ P.adds (P.note published.old) (turned (call_with client seq ask.now done) (reverse self.old.deeds))) }
        ensures err { OnErr result (self.new ≡ with_spare self.new.spare self.old) }
        ensures unpublished { OnErr result (P.note published.new ≡ P.note published.old) }
    {
        let asked = ask.copy(alloc)?;
        let deed = self.answered(alloc, client, seq, asked)?;
        let done = done_of(alloc, &deed)?;
        self.enter_published::<P>(alloc, deed, published, by)?;
        Ok(done)
    }

    // Adds the deed of a call to the history, and what it made to what the shard keeps, once what it turns
    // is published.
    fn enter_published<P: Publisher>(
        &mut self,
        alloc: Global,
        deed: Entry,
        published: &mut P::Published,
        by: &P::By,
    ) -> Result<(), Memory>
        requires call { IsNextCall self.old deed }
        requires ready { P.ready published.old by.now }
        ensures added { OnOk result (self.new ≡ after_deed self.old deed) }
        ensures turned { OnOk result (P.note published.new ≡ P.adds (P.note published.old) (turned deed (reverse self.old.deeds))) }
        ensures err { OnErr result (self.new ≡ with_spare self.new.spare self.old) }
        ensures unpublished { OnErr result (P.note published.new ≡ P.note published.old) }
    {
        self.roomy = false;
        self.history.reserve(1)?;
        self.vector.reserve()?;
        let made = lent(deed.made());
        let (slots, queries) = (&mut self.slots, &mut self.queries);
        come_in_published::<P>(alloc, slots, queries, self.clock, made, published, by)?;
        note(&mut self.vector, made);
        let _ = self.history.push(deed);
        Ok(())
    }

    /// Takes in a change as `take_in` does, once what it turns is published.
    pub fn take_in_published<P: Publisher>(
        &mut self,
        alloc: Global,
        change: &Shared<Change>,
        published: &mut P::Published,
        by: &P::By,
    ) -> Result<Verdict, Memory>
        requires here { shard_of change.now.key self.old.id.shards ≡ self.old.id.shard }
        requires ready { P.ready published.old by.now }
        ensures verdict { IfOk result (λ told. told ≡ verdict (reverse self.old.deeds) change.now) }
        ensures added { IfOk result (λ told. self.new ≡ after_deed self.old (deed.Taken change.now told)) }
        ensures turned { IfOk result (λ told. P.note published.new
            ≡ P.adds (P.note published.old) (turned (deed.Taken change.now told) (reverse self.old.deeds))) }
        ensures err { OnErr result (self.new ≡ with_spare self.new.spare self.old) }
        ensures unpublished { OnErr result (P.note published.new ≡ P.note published.old) }
    {
        let coming = change.get();
        let verdict = self.verdict(coming);
        self.roomy = false;
        self.history.reserve(1)?;
        self.vector.reserve()?;
        let taken = change.copy(alloc)?;
        let came = applied(verdict, coming);
        let (slots, queries) = (&mut self.slots, &mut self.queries);
        come_in_published::<P>(alloc, slots, queries, self.clock, came, published, by)?;
        note(&mut self.vector, Some(coming));
        self.looked = 0;
        let _ = self.history.push(Entry::taken_in(taken, verdict));
        Ok(verdict)
    }
}
