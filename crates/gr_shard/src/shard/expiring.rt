ghost use Rattle.std.specs.Prelude.{◌≡◌, ◌≤◌, ◌∷◌, reverse, max, IfOk, OnOk};
ghost use Rattle.gr_stamp.specs.declared.stamp.TheConstants.{LIMIT};
ghost use Rattle.gr_history.specs.declared.deed.Deed.TheVariants as deed;
ghost use Rattle.gr_history.specs.Clock.{clock};
ghost use Rattle.gr_history.specs.Floor.{floor};
ghost use Rattle.gr_history.specs.Stable.{due};
ghost use Rattle.gr_shard.specs.declared.next.Next.TheVariants as next;
ghost use Rattle.gr_shard.specs.Prepared.{IsPrepared, IsPreparedFor};
ghost use Rattle.gr_shard.specs.View.{with_spare};

use super::Shard;
use crate::effect::{Effect, SlotsAfter};
use crate::sweeping::{risen, valueless};
use crate::{Came, Prepared};
use gr_history::{Deed, Entry};
use gr_value::{Copied, Key, KeyList, Memory};
use std::alloc::Global;

impl Shard {
    // The clock once a sweep was done at a moment.
    fn clock_at(&self, moment: u64) -> u64
        ensures { result ≡ max moment (clock (reverse self.now.deeds)) }
    {
        moment.max(self.clock)
    }

    // The floor once what is due at a moment has expired.
    fn floor_after(&self, moment: u64, expired: &[Key]) -> u64
        requires { expired.now ≡ due self.now.id moment (reverse self.now.deeds) }
        ensures floor { result ≡ floor self.now.opening (deed.Swept moment expired.now ∷ reverse self.now.deeds) }
        ensures low { result ≤ LIMIT }
    {
        risen(&self.slots, self.floor, expired)
    }

    // The keys that are due at a moment, in order.
    fn due(&mut self, alloc: Global, moment: u64) -> Result<KeyList, Memory>
        ensures same { self.new ≡ self.old }
        ensures due { IfOk result (λ keys. keys ≡ due self.old.id moment (reverse self.old.deeds)) }
    {
        self.slots.has_keys_in_order();
        let clock = moment.max(self.clock);
        let late = self.slots.timed_out(alloc, self.looked, clock)?;
        Ok(self.stable_among(alloc, late.as_slice())?)
    }

    // Prepares a sweep.
    pub(super) fn prepare_sweep(&mut self, alloc: Global, moment: u64) -> Result<Prepared, Memory>
        ensures same { self.new ≡ with_spare self.new.spare self.old }
        ensures grows { self.old.spare ≤ self.new.spare }
        ensures room { OnOk result (1 ≤ self.new.spare) }
        ensures prepared { IfOk result (IsPrepared self.old (next.Sweep moment)) }
        ensures made { IfOk result (IsPreparedFor self.new) }
    {
        let expired = self.due(alloc, moment)?;
        let turned = valueless(alloc, expired.as_slice())?;
        let named = expired.copy(alloc)?;
        let floor = self.floor_after(moment, expired.as_slice());
        let clock = self.clock_at(moment);
        let count = expired.len() as u64;
        let swept = Deed::Swept {
            moment,
            expired: named,
        };
        let deed = Entry::of(alloc, swept)?;
        self.make_room()?;
        Ok(Prepared {
            deed,
            came: Came::Swept(count),
            turned,
            effect: Effect {
                slots: SlotsAfter::Without(expired),
                floor: Some(floor),
                clock: Some(clock),
                ..Effect::none()
            },
        })
    }
}
