ghost use Rattle.std.specs.Prelude.{◌≡◌, ◌≤◌, IfOk, OnOk};
ghost use Rattle.gr_value.specs.Shard.{shard_of};
ghost use Rattle.gr_history.specs.Asks.{key_of};
ghost use Rattle.gr_shard.specs.declared.next.Next.TheVariants as next;
ghost use Rattle.gr_shard.specs.Prepared.{IsPrepared, IsPreparedFor};
ghost use Rattle.gr_shard.specs.View.{with_spare};

use super::Shard;
use crate::effect::{Effect, IdsAfter};
use crate::entering::{applied, arriving, copied, noting};
use crate::making::done_of;
use crate::telling::turned_by;
use crate::{Came, Prepared};
use gr_history::{Ask, Entry, lent};
use gr_stamp::Change;
use gr_value::{Copied, Memory, Shared};
use std::alloc::Global;

impl Shard {
    // Prepares a client's step. What is told is a copy of what is noted.
    pub(super) fn prepare_call(
        &mut self,
        alloc: Global,
        client: u8,
        seq: u32,
        ask: &Ask,
    ) -> Result<Prepared, Memory>
        requires { shard_of (key_of ask.now) self.old.id.shards ≡ self.old.id.shard }
        ensures same { self.new ≡ with_spare self.new.spare self.old }
        ensures grows { self.old.spare ≤ self.new.spare }
        ensures room { OnOk result (1 ≤ self.new.spare) }
        ensures prepared { IfOk result (IsPrepared self.old (next.Call client seq ask.entry)) }
        ensures made { IfOk result (IsPreparedFor self.new) }
    {
        let asked = ask.copy(alloc)?;
        let deed = self.answered(alloc, client, seq, asked)?;
        let done = done_of(alloc, &deed)?;
        let made = lent(deed.made());
        let turned = turned_by(alloc, &self.slots, made)?;
        let arrival = copied(alloc, made)?;
        let clock = self.clock;
        let queries = self.tell_ahead(alloc, turned.as_slice())?;
        let slots = arriving(clock, arrival);
        let ids = noting(made);
        Ok(Prepared {
            deed,
            came: Came::Done(done),
            turned,
            effect: Effect {
                slots,
                ids,
                queries,
                ..Effect::none()
            },
        })
    }

    // Prepares that a change is taken in.
    pub(super) fn prepare_taking(
        &mut self,
        alloc: Global,
        change: &Shared<Change>,
    ) -> Result<Prepared, Memory>
        requires { shard_of change.now.key self.old.id.shards ≡ self.old.id.shard }
        ensures same { self.new ≡ with_spare self.new.spare self.old }
        ensures grows { self.old.spare ≤ self.new.spare }
        ensures room { OnOk result (1 ≤ self.new.spare) }
        ensures prepared { IfOk result (IsPrepared self.old (next.TakeIn change.entry)) }
        ensures made { IfOk result (IsPreparedFor self.new) }
    {
        let coming = change.get();
        let verdict = self.verdict(coming);
        let taken = change.copy(alloc)?;
        let came = applied(verdict, coming);
        let turned = turned_by(alloc, &self.slots, came)?;
        let arrival = copied(alloc, came)?;
        let clock = self.clock;
        let queries = self.tell_ahead(alloc, turned.as_slice())?;
        let slots = arriving(clock, arrival);
        Ok(Prepared {
            deed: Entry::taken_in(taken, verdict),
            came: Came::Verdict(verdict),
            turned,
            effect: Effect {
                slots,
                ids: IdsAfter::With(coming.stamp),
                queries,
                ..Effect::none()
            },
        })
    }
}
