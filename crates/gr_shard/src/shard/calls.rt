ghost use Rattle.std.specs.Prelude.{◌≡◌, ◌≤◌, ◌<◌, ◌^◌, reverse, Some, IfOk, OnOk, OnErr, option_map};
ghost use Rattle.gr_value.specs.Shard.{shard_of};
ghost use Rattle.gr_history.specs.declared.deed.Deed.TheVariants as deed;
ghost use Rattle.gr_history.specs.declared.reply.Reply.{Reply};
ghost use Rattle.gr_stamp.specs.declared.change.Kind.{Kind};
ghost use Rattle.gr_history.specs.Asks.{key_of};
ghost use Rattle.gr_history.specs.Calls.{call_gives, given, ver_of};
ghost use Rattle.gr_history.specs.Recipients.{recipients};
ghost use Rattle.std.specs.List.{AllByRecursion};
ghost use Rattle.std.specs.Option.{option_to_list};
ghost use Rattle.gr_history.specs.Standing.{standing};
ghost use Rattle.gr_shard.specs.Calls.{IsNextCall, call_with, given_with, served};
ghost use Rattle.gr_shard.specs.View.{after_deed, with_spare};

use super::Shard;
use crate::entering::{is_there, value_of, ver_of};
use crate::making::{done_of, note};
use crate::served::Served;
use crate::telling::come_in;
use crate::told::{Answer, answers};
use gr_history::{Ask, Done, Entry, Reply, lent};
use gr_stamp::{LIMIT, Stamp};
use gr_value::{Copied, Key, Memory};
use std::alloc::Global;

impl Shard {
    /// Does a client's step and adds it to the history.
    pub fn call(&mut self, alloc: Global, client: u8, seq: u32, ask: &Ask) -> Result<Done, Memory>
        requires { shard_of (key_of ask.now) self.old.id.shards ≡ self.old.id.shard }
        ensures given { IfOk result (λ done. done ≡ call_gives self.old.id self.old.opening (reverse self.old.deeds) ask.now) }
        ensures members { IfOk result (λ done. done.to < 2 ^ self.old.id.members) }
        ensures here { IfOk result
            (λ done. AllByRecursion (λ change. shard_of change.key self.old.id.shards ≡ self.old.id.shard) (option_to_list done.made)) }
        ensures added { IfOk result
            (λ done. self.new ≡ after_deed self.old (deed.Call client done.to seq ask.now done.reply done.made)) }
        ensures err { OnErr result (self.new ≡ with_spare self.new.spare self.old) }
    {
        // So that what the shard keeps of the members is known to the proof.
        let _ = &self.id;
        let asked = ask.copy(alloc)?;
        let deed = self.answered(alloc, client, seq, asked)?;
        let done = done_of(alloc, &deed)?;
        self.enter_call(alloc, deed)?;
        Ok(done)
    }

    /// Does a client's step as `call` does, of which it keeps what was asked, and answers what the
    /// client is told alone.
    pub fn serve(&mut self, alloc: Global, client: u8, seq: u32, ask: Ask) -> Result<Served, Memory>
        requires { shard_of (key_of ask) self.old.id.shards ≡ self.old.id.shard }
        ensures told { IfOk result (λ told. told ≡ served (call_gives self.old.id self.old.opening (reverse self.old.deeds) ask)) }
        ensures added { OnOk result
            (self.new ≡ after_deed self.old
            (call_with client seq ask (call_gives self.old.id self.old.opening (reverse self.old.deeds) ask))) }
        ensures err { OnErr result (self.new ≡ with_spare self.new.spare self.old) }
    {
        let deed = self.answered(alloc, client, seq, ask)?;
        let reply = deed.reply(alloc)?;
        let made = deed.made().is_some();
        self.enter_call(alloc, deed)?;
        Ok(Served { reply, made })
    }

    // Adds the deed of a call to the history, and what it made to what the shard keeps.
    #[inline(always)]
    fn enter_call(&mut self, alloc: Global, deed: Entry) -> Result<(), Memory>
        requires { IsNextCall self.old deed }
        ensures added { OnOk result (self.new ≡ after_deed self.old deed) }
        ensures err { OnErr result (self.new ≡ with_spare self.new.spare self.old) }
    {
        self.roomy = false;
        self.history.reserve(1)?;
        self.vector.reserve()?;
        let made = lent(deed.made());
        come_in(alloc, &mut self.slots, &mut self.queries, self.clock, made)?;
        note(&mut self.vector, made);
        let _ = self.history.push(deed);
        Ok(())
    }

    // The deed of the call that would be done now.
    #[inline(always)]
    pub(super) fn answered(
        &self,
        alloc: Global,
        client: u8,
        seq: u32,
        ask: Ask,
    ) -> Result<Entry, Memory>
        ensures { IfOk result (λ deed. deed
            ≡ call_with client seq ask (call_gives self.now.id self.now.opening (reverse self.now.deeds) ask)) }
    {
        if !self.ready() {
            return Entry::answered(alloc, client, seq, ask, Reply::NotReady);
        }
        let held = self.find(ask.key());
        // The version may stand in another line of memory than the value: both are fetched at once.
        let ver = ver_of(held);
        let Answer { reply, changes } = answers(alloc, &ask, is_there(held), value_of(held))?;
        if !changes {
            return Entry::answered(alloc, client, seq, ask, reply);
        }
        match self.next_stamp(ask.key(), ver) {
            Some(stamp) => Entry::changed(alloc, client, self.to, seq, ask, reply, stamp),
            None => Entry::answered(alloc, client, seq, ask, Reply::Limit),
        }
    }

    // The stamp of a change that is made where this version stands, if there are numbers for it.
    fn next_stamp(&self, key: &Key, ver: u64) -> Option<Stamp>
        requires stands { ver ≡ ver_of (standing key.now (reverse self.now.deeds)) }
        requires within { ver ≤ LIMIT }
        ensures { (reply : Reply) (kind : Kind) → given_with (recipients self.now.id (reverse self.now.deeds)) reply
            (option_map (λ stamp. record { key = key.now; kind = kind; stamp = stamp }) result)
            ≡ given self.now.id self.now.opening (reverse self.now.deeds) key.now reply (Some kind) }
    {
        let base = ver.max(self.floor);
        let last = self.vector.top(self.id.member);
        Stamp::new(base + 1, self.id.member, last + 1)
    }
}
