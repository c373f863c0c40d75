ghost use Rattle.std.specs.Prelude.{◌≡◌, ◌≤◌, [], reverse, IfOk, OnOk, OnErr, option_copied, length};
ghost use Rattle.std.specs.Prelude.{option_and_then, filter, List, ℕ};
ghost use Rattle.gr_value.specs.Shard.{shard_of};
ghost use Rattle.gr_history.specs.declared.deed.Deed.TheVariants as deed;
ghost use Rattle.gr_slots.specs.Slots.{slot_at};
ghost use Rattle.gr_history.specs.Ids.{known};
ghost use Rattle.gr_history.specs.Calls.{ver_of};
ghost use Rattle.gr_history.specs.Lawful.{IsLawful, IsOfShard};
ghost use Rattle.gr_history.specs.Standing.{standing, there, present};
ghost use Rattle.gr_history.specs.Floor.{floor};
ghost use Rattle.gr_history.specs.Clock.{since};
ghost use Rattle.gr_history.specs.Verdicts.{verdict};
ghost use Rattle.gr_history.specs.Recipients.{NamesMembers, is_ready};
ghost use Rattle.std.specs.List.{AllByRecursion};
ghost use Rattle.gr_history.specs.Room.{HasNoRoom};
ghost use Rattle.gr_history.specs.Queries.{query_gives};
ghost use Rattle.gr_history.specs.Gifts.{IsGiftOf, IsImageOf, IsReportOf};
ghost use Rattle.gr_stamp.specs.Winner.{put_value};
ghost use Rattle.gr_shard.specs.Entries.{slot_of, slot_ver};
ghost use Rattle.gr_history.specs.Stable.{due};
ghost use Rattle.gr_shard.specs.Merges.{IsGiftFor, IsImageFor};
ghost use Rattle.gr_shard.specs.Records.{IsRecordOf};
ghost use Rattle.gr_shard.specs.Sweeps.{stands_stable};
ghost use Rattle.gr_shard.specs.Telling.{slot_there};
ghost use Rattle.gr_shard.specs.View.{IsPlace, after_deed, with_spare};

mod calls;
mod changing;
mod expiring;
mod halves;
mod preparing;
mod publishing;

use crate::asking::{Foretold, Replies, foretell};
use crate::committing::carry_out;
use crate::entering::{applied, is_there, value_of, verdict_at};
use crate::giving::{own_changes, standing};
use crate::making::{first_recipients, note, with_recipient};
use crate::merging::merged;
use crate::regions::region;
use crate::sweeping::{drop_all, looked_after, risen};
use crate::telling::{come_in, take_over};
use gr_cq::Registry;
use gr_history::{
    Deed, Entry, Gift, History, Identity, Image, QueryAsk, QueryReply, ShardRecord, Verdict, What,
};
use gr_slots::{Slot, Slots};
use gr_stable::Heard;
use gr_stamp::Change;
use gr_value::{Copied, Key, KeyList, Memory, Shared, Value};
use gr_vector::{Report, Vector};
use std::alloc::Global;
use std::marker::Model;

/// One shard of one member. Contracts see its identity, the floor that it began with, its deeds, and the
/// number `spare`, which is at least 1 where there is room for a deed that was prepared.
#[derive(Drop)]
pub struct Shard {
    id: Identity,
    opening: u64,
    roomy: bool,
    floor: u64,
    clock: u64,
    joined: bool,
    to: u8,
    /// No removal that came in before this moment is stable.
    looked: u64,
    slots: Slots,
    vector: Vector,
    heard: Heard,
    queries: Registry,
    history: History,
}

impl Model for Shard {
    ghost use Rattle.std.specs.Prelude.{reverse};
    ghost use Rattle.std.specs.Coded.{codes};
    ghost use Rattle.gr_oql.specs.Question.{question_code};
    ghost use Rattle.gr_shard.specs.Looked.{IsLooked};
    ghost use Rattle.gr_shard.specs.View.{Account, IsKept, IsStocked, kept, spare_of};

    ghost Value = { Account };

    ghost coded = { Prim.hlevel (codes, question_code) };

    ghost view = { λ shard. record {
      id = shard.id;
      opening = shard.opening;
      deeds = shard.history.deeds;
      spare = spare_of shard.roomy shard.queries.spare;
    } };

    ghost invariant = { λ shard. IsKept shard.id shard.opening (kept shard.slots.entries shard.vector.ids shard.floor shard.clock shard.joined shard.to
        shard.heard shard.queries.entries) (reverse shard.history.deeds)
        × IsStocked shard.roomy shard.history.spare shard.vector.spare shard.slots.room shard.clock shard.queries.entries (reverse shard.history.deeds)
        × IsLooked shard.id shard.looked (reverse shard.history.deeds) };
}

impl Shard {
    /// A shard with no deeds. The floor is the one that its versions begin with.
    pub fn new(alloc: Global, id: Identity, floor: u64) -> Result<Shard, Memory>
        requires { IsPlace id floor }
        ensures { IfOk result (λ shard. shard ≡ record { id = id; opening = floor; deeds = []; spare = 0 }) }
    {
        Ok(Shard {
            id,
            opening: floor,
            roomy: false,
            floor,
            clock: 0,
            joined: false,
            to: first_recipients(id),
            looked: 0,
            history: History::new(alloc)?,
            vector: Vector::new(alloc)?,
            heard: Heard::new(alloc)?,
            queries: Registry::new(alloc)?,
            slots: Slots::new(alloc),
        })
    }

    /// Takes in a change that another member made, in whatever order and however often it comes, and
    /// adds that to the history.
    pub fn take_in(&mut self, alloc: Global, change: &Shared<Change>) -> Result<Verdict, Memory>
        requires { shard_of change.now.key self.old.id.shards ≡ self.old.id.shard }
        ensures verdict { IfOk result (λ told. told ≡ verdict (reverse self.old.deeds) change.now) }
        ensures added { IfOk result (λ told. self.new ≡ after_deed self.old (deed.Taken change.now told)) }
        ensures err { OnErr result (self.new ≡ with_spare self.new.spare self.old) }
    {
        let coming = change.get();
        let verdict = self.verdict(coming);
        self.roomy = false;
        self.history.reserve(1)?;
        self.vector.reserve()?;
        let taken = change.copy(alloc)?;
        let came = applied(verdict, coming);
        come_in(alloc, &mut self.slots, &mut self.queries, self.clock, came)?;
        note(&mut self.vector, Some(coming));
        self.looked = 0;
        let _ = self.history.push(Entry::taken_in(taken, verdict));
        Ok(verdict)
    }

    /// Does a client's step on one of its queries, and adds it to the history. A query is opened whether
    /// or not calls are answered here. An opening takes time in proportion to the slots, and a fetch to
    /// what it hands out.
    pub fn query(
        &mut self,
        alloc: Global,
        client: u8,
        seq: u32,
        ask: &QueryAsk,
    ) -> Result<QueryReply, Memory>
        ensures reply { IfOk result (λ reply. reply ≡ query_gives client ask.now (reverse self.old.deeds)) }
        ensures added { IfOk result
            (λ reply. self.new ≡ after_deed self.old (deed.Asked client seq ask.now reply)) }
        ensures err { OnErr result (self.new ≡ with_spare self.new.spare self.old) }
    {
        let asked = ask.copy(alloc)?;
        self.roomy = false;
        self.history.reserve(1)?;
        let Foretold { replies, after } = foretell(
            alloc,
            &mut self.queries,
            &self.slots,
            client,
            ask,
        )?;
        let Replies { noted, told } = replies;
        let deed = Entry::of(
            alloc,
            Deed::Asked {
                client,
                seq,
                ask: asked,
                reply: noted,
            },
        )?;
        carry_out(&mut self.queries, after);
        let _ = self.history.push(deed);
        Ok(told)
    }

    /// Says what this member knows of the shard, and adds that to the history.
    pub fn report(&mut self, alloc: Global) -> Result<Report, Memory>
        ensures report { IfOk result (IsReportOf self.old.id (reverse self.old.deeds)) }
        ensures room { IfOk result (λ report. report.vector.spare ≡ 0) }
        ensures added { IfOk result (λ report. self.new ≡ after_deed self.old (deed.Reported report)) }
        ensures err { OnErr result (self.new ≡ with_spare self.new.spare self.old) }
    {
        let report = self.reported(alloc)?;
        let noted = report.copy(alloc)?;
        let deed = Entry::of(alloc, Deed::Reported { report: noted })?;
        self.roomy = false;
        self.history.reserve(1)?;
        let _ = self.history.push(deed);
        Ok(report)
    }

    /// Hears a report that another member made of this shard, and adds that to the history.
    pub fn hear(&mut self, alloc: Global, report: &Report) -> Result<(), Memory>
        ensures added { OnOk result (self.new ≡ after_deed self.old (deed.Heard report.now)) }
        ensures err { OnErr result (self.new ≡ with_spare self.new.spare self.old) }
    {
        self.roomy = false;
        self.history.reserve(1)?;
        let noted = report.copy(alloc)?;
        let deed = Entry::of(alloc, Deed::Heard { report: noted })?;
        self.heard.hear(alloc, report)?;
        self.looked = 0;
        let _ = self.history.push(deed);
        Ok(())
    }

    /// Gives a joiner an image of the shard, or the changes that were made here, and adds that to the
    /// history. From then on changes go to it. The own changes take time in proportion to the history.
    pub fn give(&mut self, alloc: Global, to: u8, what: What) -> Result<Gift, Memory>
        requires from { 1 ≤ to }
        requires stated { to ≤ self.old.id.members }
        ensures gift { IfOk result (IsGiftOf self.old.id.member self.old.opening (reverse self.old.deeds) what) }
        ensures fits { IfOk result (IsGiftFor self.old.id) }
        ensures room { IfOk result HasNoRoom }
        ensures added { OnOk result (self.new ≡ after_deed self.old (deed.Gave to what)) }
        ensures err { OnErr result (self.new ≡ with_spare self.new.spare self.old) }
    {
        let gift = self.gift(alloc, what)?;
        let deed = Entry::of(alloc, Deed::Gave { to, what })?;
        self.roomy = false;
        self.history.reserve(1)?;
        self.to = with_recipient(self.id, to, self.to);
        self.looked = 0;
        let _ = self.history.push(deed);
        Ok(gift)
    }

    /// Merges an image that another member gave of this shard, and adds that to the history. From then
    /// on calls are answered here. Each row and each slot takes the logarithm of the slots, or of the
    /// blocks of the image's vector.
    pub fn merge(&mut self, alloc: Global, image: &Image) -> Result<(), Memory>
        requires { IsImageFor self.old.id image.now }
        ensures added { OnOk result (self.new ≡ after_deed self.old (deed.Imaged image.now)) }
        ensures err { OnErr result (self.new ≡ with_spare self.new.spare self.old) }
    {
        self.roomy = false;
        self.history.reserve(1)?;
        let noted = image.copy(alloc)?;
        let deed = Entry::of(alloc, Deed::Imaged { image: noted })?;
        let slots = merged(alloc, &self.slots, image, &self.vector, self.clock)?;
        let (old, ids) = (&mut self.slots, &mut self.vector);
        take_over(alloc, old, ids, &mut self.queries, slots, &image.vector)?;
        self.floor = image.floor.max(self.floor);
        self.joined = true;
        self.looked = 0;
        let _ = self.history.push(deed);
        Ok(())
    }

    /// Drops the tombstones that have timed out at a moment, in seconds, or at the greatest moment so
    /// far, and are stable. Adds that to the history, and answers how many they are.
    pub fn sweep(&mut self, alloc: Global, moment: u64) -> Result<u64, Memory>
        ensures expired { IfOk result (λ count. count ≡ length (due self.old.id moment (reverse self.old.deeds))) }
        ensures added { OnOk result
            (self.new ≡ after_deed self.old (deed.Swept moment (due self.old.id moment (reverse self.old.deeds)))) }
        ensures err { OnErr result (self.new ≡ with_spare self.new.spare self.old) }
    {
        self.roomy = false;
        let clock = moment.max(self.clock);
        let timed_out = self.slots.timed_out(alloc, self.looked, clock)?;
        let expired = self.stable_among(alloc, timed_out.as_slice())?;
        let named = expired.copy(alloc)?;
        let count = expired.len() as u64;
        let swept = Deed::Swept {
            moment,
            expired: named,
        };
        let deed = Entry::of(alloc, swept)?;
        self.history.reserve(1)?;
        self.floor = risen(&self.slots, self.floor, expired.as_slice());
        drop_all(&mut self.slots, expired.as_slice());
        self.clock = clock;
        self.looked = looked_after(&deed, clock, self.looked);
        let _ = self.history.push(deed);
        Ok(count)
    }

    /// Whether calls are answered here.
    pub fn ready(&self) -> bool
        ensures { result ≡ is_ready self.now.id (reverse self.now.deeds) }
    {
        self.id.member <= self.id.founders || self.joined
    }

    pub fn present(&self, key: &Key) -> Option<&Value>
        ensures { option_copied result ≡ present key.now (reverse self.now.deeds) }
    {
        value_of(self.find(key))
    }

    /// Whether the key is there, with a value or without.
    pub fn known(&self, key: &Key) -> bool
        ensures { result ≡ there key.now (reverse self.now.deeds) }
    {
        is_there(self.find(key))
    }

    pub fn floor(&self) -> u64
        ensures { result ≡ floor self.now.opening (reverse self.now.deeds) }
    {
        self.floor
    }

    /// What stands at the keys, with the clock when it came in.
    pub fn slots(&self) -> &Slots
        ensures { (key : List ℕ)
            → slot_at key result.now.entries ≡ slot_of (standing key (reverse self.now.deeds)) (since key (reverse self.now.deeds)) }
    {
        &self.slots
    }

    /// All ids that are known.
    pub fn vector(&self) -> &Vector
        ensures { result.now.ids ≡ known (reverse self.now.deeds) }
    {
        &self.vector
    }

    pub fn history(&self) -> &History
        ensures deeds { result.now.deeds ≡ self.now.deeds }
        ensures lawful { IsLawful self.now.id self.now.opening (reverse self.now.deeds) }
        ensures of_shard { IsOfShard self.now.id (reverse self.now.deeds) }
        ensures named { AllByRecursion (NamesMembers self.now.id) (reverse self.now.deeds) }
    {
        &self.history
    }

    /// What this shard leaves, with a copy of its history.
    pub fn taken_out(&self, alloc: Global) -> Result<ShardRecord, Memory>
        ensures { IfOk result (IsRecordOf self.now) }
    {
        Ok(ShardRecord {
            history: self.history.copy(alloc)?,
            region: region(alloc, &self.slots, self.floor, self.vector.copy(alloc)?)?,
        })
    }

    /// What this shard leaves.
    pub fn into_record(self, alloc: Global) -> Result<ShardRecord, Memory>
        ensures record_of { IfOk result (IsRecordOf self) }
        ensures lawful { OnOk result (IsLawful self.id self.opening (reverse self.deeds)) }
    {
        let Shard {
            slots,
            floor,
            vector,
            history,
            ..
        } = self;
        let region = region(alloc, &slots, floor, vector)?;
        Ok(ShardRecord { history, region })
    }

    // What this member knows of the shard now.
    fn reported(&self, alloc: Global) -> Result<Report, Memory>
        ensures report { IfOk result (IsReportOf self.now.id (reverse self.now.deeds)) }
        ensures room { IfOk result (λ report. report.vector.spare ≡ 0) }
    {
        Ok(Report {
            member: self.id.member,
            at: self.history.len(),
            own: self.vector.top(self.id.member),
            to: self.to,
            vector: Shared::new(alloc, self.vector.copy(alloc)?)?,
        })
    }

    // What is given now.
    fn gift(&self, alloc: Global, what: What) -> Result<Gift, Memory>
        ensures gift { IfOk result (IsGiftOf self.now.id.member self.now.opening (reverse self.now.deeds) what) }
        ensures fits { IfOk result (IsGiftFor self.now.id) }
        ensures room { IfOk result HasNoRoom }
    {
        match what {
            What::Image => Ok(Gift::Image(self.image(alloc)?)),
            What::Own => Ok(Gift::Own(own_changes(alloc, self.history.as_slice())?)),
        }
    }

    // All that stands, removals too.
    fn image(&self, alloc: Global) -> Result<Image, Memory>
        ensures image { IfOk result (IsImageOf self.now.id.member self.now.opening (reverse self.now.deeds)) }
        ensures fits { IfOk result (IsImageFor self.now.id) }
        ensures room { IfOk result (λ image. image.vector.spare ≡ 0) }
    {
        Ok(Image {
            from: self.id.member,
            at: self.history.len(),
            rows: Shared::new(alloc, standing(alloc, &self.slots)?)?,
            vector: self.vector.copy(alloc)?,
            floor: self.floor,
        })
    }

    // Those of the keys at which what stands is stable.
    fn stable_among(&self, alloc: Global, keys: &[Key]) -> Result<KeyList, Memory>
        ensures { IfOk result
            (λ stable. stable
            ≡ filter (λ key. stands_stable self.now.id (reverse self.now.deeds) (standing key (reverse self.now.deeds))) keys.now) }
    {
        let mut stable = KeyList::new(alloc)?;
        for key in keys {
            if self.is_stable(key) {
                stable.push(key.copy(alloc)?)?;
            }
        }
        Ok(stable)
    }

    // Whether what stands at the key is stable.
    fn is_stable(&self, key: &Key) -> bool
        ensures { result ≡ stands_stable self.now.id (reverse self.now.deeds) (standing key.now (reverse self.now.deeds)) }
    {
        let Some(slot) = self.find(key) else {
            return false;
        };
        let Identity {
            member,
            founders,
            ..
        } = self.id;
        // To whom changes go says of the others who was given something, as founders count anyway.
        self.heard
            .stable(&slot.stamp, member, founders, self.to, &self.vector)
    }

    // What becomes of a change that is taken in now.
    fn verdict(&self, change: &Change) -> Verdict
        ensures { result ≡ verdict (reverse self.now.deeds) change.now }
    {
        let stamp = &change.stamp;
        let known = self.vector.holds(stamp.member(), stamp.rv());
        verdict_at(known, self.find(&change.key), stamp)
    }

    // What stands at the key.
    fn find(&self, key: &Key) -> Option<&Slot>
        ensures slot { option_copied result ≡ slot_of (standing key.now (reverse self.now.deeds))
            (since key.now (reverse self.now.deeds)) }
        ensures ver { slot_ver (option_copied result) ≡ ver_of (standing key.now (reverse self.now.deeds)) }
        ensures value { option_and_then (λ s. put_value s.kind) (option_copied result) ≡ present key.now (reverse self.now.deeds) }
        ensures there { slot_there (option_copied result) ≡ there key.now (reverse self.now.deeds) }
    {
        self.slots.find(key)
    }
}
