ghost use Rattle.std.specs.Prelude.{◌≡◌, ◌≤◌, reverse, IfOk, OnOk};
ghost use Rattle.gr_cq.specs.Entries.{noted};
ghost use Rattle.gr_history.specs.Queries.{query_gives};
ghost use Rattle.gr_shard.specs.Asking.{twice};
ghost use Rattle.gr_shard.specs.Effects.{IsMadeAt, needs, queries_after};
ghost use Rattle.gr_shard.specs.InStep.{opened, served};
ghost use Rattle.gr_shard.specs.Prepared.{Belongs, IsPrepared, IsPreparedFor};
ghost use Rattle.gr_shard.specs.View.{after_deed, with_spare};

use super::Shard;
use crate::asking::{Foretold, foretell};
use crate::committing::{aimed, carry_out, either, keep, know, moved, settle};
use crate::effect::{Effect, QueriesAfter};
use crate::sweeping::looked_after;
use crate::telling::foretell_turned;
use crate::{Came, Next, Prepared};
use gr_cq::Turned;
use gr_history::QueryAsk;
use gr_value::Memory;
use std::alloc::Global;

impl Shard {
    /// Adds a deed that was prepared to the history, and answers what the call of its name answers. This
    /// takes no memory.
    pub fn commit(&mut self, prepared: Prepared) -> Came
        requires { IsPreparedFor self.old prepared }
        ensures came { result ≡ prepared.came }
        ensures added { self.new ≡ after_deed self.old prepared.deed }
    {
        let Prepared {
            deed,
            came,
            turned: _,
            effect,
        } = prepared;
        let Effect {
            slots,
            ids,
            queries,
            heard,
            to,
            floor,
            clock,
            joined,
        } = effect;
        self.slots.has_keys_in_order();
        self.roomy = false;
        settle(&mut self.slots, slots);
        know(&mut self.vector, ids);
        carry_out(&mut self.queries, queries);
        keep(&mut self.heard, heard);
        self.to = aimed(self.id, to, self.to);
        self.floor = moved(floor, self.floor);
        self.clock = moved(clock, self.clock);
        self.joined = either(joined, self.joined);
        self.looked = looked_after(&deed, self.clock, self.looked);
        let _ = self.history.push(deed);
        came
    }

    /// Makes all that what is to be done next takes memory for, and changes nothing yet.
    pub fn prepare(&mut self, alloc: Global, next: &Next) -> Result<Prepared, Memory>
        requires { Belongs self.old.id next.now }
        ensures same { self.new ≡ with_spare self.new.spare self.old }
        ensures grows { self.old.spare ≤ self.new.spare }
        ensures room { OnOk result (1 ≤ self.new.spare) }
        ensures prepared { IfOk result (IsPrepared self.old next.now) }
        ensures made { IfOk result (IsPreparedFor self.new) }
    {
        match next {
            Next::Call { client, seq, ask } => self.prepare_call(alloc, *client, *seq, ask),
            Next::TakeIn { change } => self.prepare_taking(alloc, change),
            Next::Query { client, seq, ask } => self.prepare_query(alloc, *client, *seq, ask),
            Next::Give { to, what } => self.prepare_gift(alloc, *to, *what),
            Next::Merge { image } => self.prepare_merge(alloc, image),
            Next::Tell => self.prepare_report(alloc),
            Next::Hear { report } => self.prepare_hearing(alloc, report),
            Next::Sweep { moment } => self.prepare_sweep(alloc, *moment),
        }
    }

    // Makes room for a deed, where there is none.
    pub(super) fn make_room(&mut self) -> Result<(), Memory>
        ensures same { self.new ≡ with_spare self.new.spare self.old }
        ensures grows { self.old.spare ≤ self.new.spare }
        ensures room { OnOk result (1 ≤ self.new.spare) }
    {
        if self.roomy {
            return Ok(());
        }
        self.history.reserve(1)?;
        self.vector.reserve()?;
        self.slots.reserve(self.clock)?;
        self.roomy = true;
        Ok(())
    }

    // Makes room for a deed that turns these keys, and ready what the open queries are told of them.
    pub(super) fn tell_ahead(
        &mut self,
        alloc: Global,
        turned: &[Turned],
    ) -> Result<QueriesAfter, Memory>
        ensures same { self.new ≡ with_spare self.new.spare self.old }
        ensures grows { self.old.spare ≤ self.new.spare }
        ensures after { IfOk result
            (λ after. queries_after after (opened (reverse self.old.deeds)) ≡ noted turned.now (opened (reverse self.old.deeds))) }
        ensures made { IfOk result (IsMadeAt (opened (reverse self.old.deeds))) }
        ensures room { IfOk result (λ after. needs after ≤ self.new.spare) }
    {
        self.make_room()?;
        Ok(foretell_turned(alloc, &mut self.queries, turned)?)
    }

    // Makes room for a client's step on one of its queries, and ready what it is answered.
    pub(super) fn ask_ahead(
        &mut self,
        alloc: Global,
        client: u8,
        ask: &QueryAsk,
    ) -> Result<Foretold, Memory>
        ensures same { self.new ≡ with_spare self.new.spare self.old }
        ensures grows { self.old.spare ≤ self.new.spare }
        ensures replies { IfOk result (λ told. told.replies ≡ twice (query_gives client ask.now (reverse self.old.deeds))) }
        ensures after { IfOk result
            (λ told. queries_after told.after (opened (reverse self.old.deeds)) ≡ served client ask.now (opened (reverse self.old.deeds))) }
        ensures made { IfOk result (λ told. IsMadeAt (opened (reverse self.old.deeds)) told.after) }
        ensures room { IfOk result (λ told. needs told.after ≤ self.new.spare) }
    {
        self.make_room()?;
        Ok(foretell(alloc, &mut self.queries, &self.slots, client, ask)?)
    }
}
