ghost use Rattle.std.specs.Prelude.{◌≡◌, ◌≤◌, [], IfOk, OnOk};
ghost use Rattle.gr_shard.specs.declared.next.Next.TheVariants as next;
ghost use Rattle.gr_shard.specs.Merges.{IsImageFor};
ghost use Rattle.gr_shard.specs.Prepared.{IsPrepared, IsPreparedFor};
ghost use Rattle.gr_shard.specs.View.{with_spare};

use super::Shard;
use crate::asking::{Foretold, Replies};
use crate::effect::{Effect, IdsAfter, SlotsAfter};
use crate::merging::merged;
use crate::telling::turned_between;
use crate::{Came, Prepared};
use gr_cq::Turned;
use gr_history::{Deed, Entry, Image, QueryAsk, What};
use gr_value::{Copied, Memory};
use gr_vector::Report;
use std::alloc::Global;

// No key is turned.
fn none_turned(alloc: Global) -> Vec<Turned>
    ensures { result.items ≡ [] }
{
    Vec::new(alloc)
}

impl Shard {
    // Prepares a client's step on one of its queries.
    pub(super) fn prepare_query(
        &mut self,
        alloc: Global,
        client: u8,
        seq: u32,
        ask: &QueryAsk,
    ) -> Result<Prepared, Memory>
        ensures same { self.new ≡ with_spare self.new.spare self.old }
        ensures grows { self.old.spare ≤ self.new.spare }
        ensures room { OnOk result (1 ≤ self.new.spare) }
        ensures prepared { IfOk result (IsPrepared self.old (next.Query client seq ask.entry)) }
        ensures made { IfOk result (IsPreparedFor self.new) }
    {
        let asked = ask.copy(alloc)?;
        let Foretold { replies, after } = self.ask_ahead(alloc, client, ask)?;
        let Replies { noted, told } = replies;
        let deed = Entry::of(
            alloc,
            Deed::Asked {
                client,
                seq,
                ask: asked,
                reply: noted,
            },
        )?;
        Ok(Prepared {
            deed,
            came: Came::Reply(told),
            turned: none_turned(alloc),
            effect: Effect {
                queries: after,
                ..Effect::none()
            },
        })
    }

    // Prepares a report.
    pub(super) fn prepare_report(&mut self, alloc: Global) -> Result<Prepared, Memory>
        ensures same { self.new ≡ with_spare self.new.spare self.old }
        ensures grows { self.old.spare ≤ self.new.spare }
        ensures room { OnOk result (1 ≤ self.new.spare) }
        ensures prepared { IfOk result (IsPrepared self.old next.Tell) }
        ensures made { IfOk result (IsPreparedFor self.new) }
    {
        let report = self.reported(alloc)?;
        let noted = report.copy(alloc)?;
        let deed = Entry::of(alloc, Deed::Reported { report: noted })?;
        self.make_room()?;
        Ok(Prepared {
            deed,
            came: Came::Told(report),
            turned: none_turned(alloc),
            effect: Effect::none(),
        })
    }

    // Prepares that a report is heard.
    pub(super) fn prepare_hearing(
        &mut self,
        alloc: Global,
        report: &Report,
    ) -> Result<Prepared, Memory>
        ensures same { self.new ≡ with_spare self.new.spare self.old }
        ensures grows { self.old.spare ≤ self.new.spare }
        ensures room { OnOk result (1 ≤ self.new.spare) }
        ensures prepared { IfOk result (IsPrepared self.old (next.Hear report.entry)) }
        ensures made { IfOk result (IsPreparedFor self.new) }
    {
        let noted = report.copy(alloc)?;
        let heard = report.copy(alloc)?;
        let deed = Entry::of(alloc, Deed::Heard { report: noted })?;
        self.make_room()?;
        Ok(Prepared {
            deed,
            came: Came::Heard,
            turned: none_turned(alloc),
            effect: Effect {
                heard: Some(heard),
                ..Effect::none()
            },
        })
    }

    // Prepares that a joiner is given something.
    pub(super) fn prepare_gift(
        &mut self,
        alloc: Global,
        to: u8,
        what: What,
    ) -> Result<Prepared, Memory>
        requires from { 1 ≤ to }
        requires stated { to ≤ self.old.id.members }
        ensures same { self.new ≡ with_spare self.new.spare self.old }
        ensures grows { self.old.spare ≤ self.new.spare }
        ensures room { OnOk result (1 ≤ self.new.spare) }
        ensures prepared { IfOk result (IsPrepared self.old (next.Give to what)) }
        ensures made { IfOk result (IsPreparedFor self.new) }
    {
        // So that what the shard keeps of the members is known to the proof.
        let _ = &self.id;
        let gift = self.gift(alloc, what)?;
        let deed = Entry::of(alloc, Deed::Gave { to, what })?;
        self.make_room()?;
        Ok(Prepared {
            deed,
            came: Came::Gift(gift),
            turned: none_turned(alloc),
            effect: Effect {
                to: Some(to),
                ..Effect::none()
            },
        })
    }

    // Prepares that an image is merged.
    pub(super) fn prepare_merge(&mut self, alloc: Global, image: &Image) -> Result<Prepared, Memory>
        requires { IsImageFor self.old.id image.now }
        ensures same { self.new ≡ with_spare self.new.spare self.old }
        ensures grows { self.old.spare ≤ self.new.spare }
        ensures room { OnOk result (1 ≤ self.new.spare) }
        ensures prepared { IfOk result (IsPrepared self.old (next.Merge image.entry)) }
        ensures made { IfOk result (IsPreparedFor self.new) }
    {
        let kept = image.copy(alloc)?;
        let mut ids = self.vector.copy(alloc)?;
        ids.unite(&image.vector)?;
        let slots = merged(alloc, &self.slots, image, &self.vector, self.clock)?;
        let turned = turned_between(alloc, &self.slots, &slots)?;
        let new_slots = Box::new(alloc, slots)?;
        let new_ids = Box::new(alloc, ids)?;
        let floor = image.floor.max(self.floor);
        let deed = Entry::of(alloc, Deed::Imaged { image: kept })?;
        let queries = self.tell_ahead(alloc, turned.as_slice())?;
        Ok(Prepared {
            deed,
            came: Came::Merged,
            turned,
            effect: Effect {
                slots: SlotsAfter::New(new_slots),
                ids: IdsAfter::New(new_ids),
                queries,
                floor: Some(floor),
                joined: true,
                ..Effect::none()
            },
        })
    }
}
