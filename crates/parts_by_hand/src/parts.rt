ghost use Rattle.std.specs.Prelude.{◌≡◌, ◌≤◌, Some, IfOk, OnOk};
ghost use Rattle.gr_cq.specs.Foresight.{IsMadeFor};

use crate::making::{named, one_key};
use crate::seen::{Beside, Seen};
use crate::stop::Stop;
use gr_cq::{Coming, Foreseen, QueryEnd, Registry, Turned};
use gr_history::{History, Image};
use gr_slots::{Slot, Slots};
use gr_stable::Heard;
use gr_stamp::{Change, ChangeList, Kind, Stamp};
use gr_value::{Copied, Key, Memory, Shared, Value};
use gr_vector::{Report, Vector};
use std::alloc::Global;

/// The client whose queries are open.
pub const ASKING: u8 = 2;

/// How many founders there are.
const FOUNDERS: u8 = 2;

/// The parts that a member keeps of a shard, by hand.
#[derive(Drop)]
pub struct Parts {
    pub me: u8,
    pub to: u8,
    pub key: Key,
    pub p: Key,
    pub q: Key,
    pub history: History,
    pub slots: Slots,
    pub vector: Vector,
    pub heard: Heard,
    pub registry: Registry,
    pub floor: u64,
    pub clock: u64,
    ghost some: { 1 ≤ me },
    ghost most: { me ≤ 8 },
}

impl Parts {
    pub fn new(alloc: Global, me: u8) -> Result<Parts, Stop>
        requires some { 1 ≤ me }
        requires most { me ≤ 8 }
    {
        Ok(Parts {
            me,
            to: if me > FOUNDERS { 3 } else { 3 - me },
            key: one_key(alloc)?,
            p: named(alloc, "p")?,
            q: named(alloc, "q")?,
            history: anew!(History::new(alloc))?,
            slots: Slots::new(alloc),
            vector: anew!(Vector::new(alloc))?,
            heard: anew!(Heard::new(alloc))?,
            registry: anew!(Registry::new(alloc))?,
            floor: 0,
            clock: 0,
        })
    }

    /// What a shard with these parts has.
    pub fn seen(&self) -> Seen {
        Seen::of(
            &self.history,
            &self.slots,
            &self.vector,
            self.floor,
            &self.key,
        )
    }

    /// What these parts have.
    pub fn beside(&self) -> Beside {
        Beside {
            seen: self.seen(),
            stable: self.is_stable(),
            p: self.registry.runs(ASKING, &self.p),
            q: self.registry.runs(ASKING, &self.q),
        }
    }

    // Whether what stands is stable.
    fn is_stable(&self) -> bool {
        match self.slots.find(&self.key) {
            None => false,
            Some(slot) => self
                .heard
                .stable(&slot.stamp, self.me, FOUNDERS, self.to, &self.vector),
        }
    }

    /// Adds what a shard added to its history.
    pub fn add(&mut self, alloc: Global, deeds: &History) -> Result<(), Stop> {
        twice!(self.beside(), self.history.reserve(1))?;
        let Some(deed) = deeds.get(self.history.len()) else {
            return Err(Stop::Otherwise);
        };
        let deed = anew!(deed.copy(alloc))?;
        self.history.push(deed).map_err(|_| Stop::Otherwise)
    }

    /// Notes the id of a change.
    pub fn note(&mut self, stamp: &Stamp) -> Result<(), Stop> {
        twice!(self.beside(), self.vector.reserve())?;
        match self.vector.note(stamp.member(), stamp.rv()) {
            Ok(true) => Ok(()),
            Ok(false) | Err(Memory) => Err(Stop::Otherwise),
        }
    }

    /// Has the change stand at its key, and tells the queries.
    pub fn set(&mut self, alloc: Global, change: &Change) -> Result<(), Stop> {
        self.tell(alloc, change)?;
        let key = anew!(change.key.copy(alloc))?;
        let kind = anew!(change.kind.copy(alloc))?;
        self.make_room()?;
        let slot = Slot {
            kind,
            taken_at: self.clock,
            stamp: change.stamp,
        };
        self.slots.set_reserved(key, slot);
        Ok(())
    }

    fn make_room(&mut self) -> Result<(), Stop>
        ensures { OnOk result (self.new.slots.room ≡ Some self.new.clock) }
    {
        let before = self.beside();
        if let Ok(()) = self.slots.reserve(self.clock) {
            return Ok(());
        }
        before.is_still(self.beside())?;
        Ok(self.slots.reserve(self.clock)?)
    }

    fn tell(&mut self, alloc: Global, change: &Change) -> Result<(), Stop> {
        let turned = [anew!(self.turned(alloc, change))?];
        match self.foresee(alloc, &Coming::Note { turned: &turned })? {
            Ok(foreseen) => {
                self.registry.apply(foreseen);
                Ok(())
            }
            Err(_) => Err(Stop::Otherwise),
        }
    }

    fn turned(&self, alloc: Global, change: &Change) -> Result<Turned, Memory> {
        let held = self.slots.find(&change.key);
        Ok(Turned {
            key: change.key.copy(alloc)?,
            old: copied(alloc, held.and_then(Slot::value))?,
            new: copied(alloc, value_of(&change.kind))?,
            had: held.is_some_and(Slot::is_there),
            has: change.kind.keeps_key(),
        })
    }

    /// What is foreseen of a coming call, or why it will be refused.
    pub fn foresee(
        &mut self,
        alloc: Global,
        coming: &Coming,
    ) -> Result<Result<Foreseen, QueryEnd>, Stop>
        ensures { IfOk result (λ told. IfOk told (IsMadeFor self.new.registry)) }
    {
        let before = self.beside();
        if let Ok(foreseen) = self.registry.foresee(alloc, coming) {
            return Ok(Ok(foreseen));
        }
        before.is_still(self.beside())?;
        Ok(self.registry.foresee(alloc, coming))
    }

    /// Hears a report.
    pub fn hear(&mut self, alloc: Global, report: &Report) -> Result<(), Stop> {
        Ok(twice!(self.beside(), self.heard.hear(alloc, report))?)
    }

    /// Lets the tombstone expire that has timed out, if it is stable, and answers how many did.
    pub fn sweep(&mut self, alloc: Global, moment: u64) -> Result<u64, Stop> {
        let clock = moment.max(self.clock);
        let late = twice!(self.beside(), self.slots.timed_out(alloc, 0, clock))?;
        self.clock = clock;
        Ok(u64::from(late.len() == 1 && self.expire()))
    }

    fn expire(&mut self) -> bool {
        let Some(slot) = self.slots.find(&self.key) else {
            return false;
        };
        let ver = slot.stamp.ver();
        if !self.is_stable() {
            return false;
        }
        self.floor = self.floor.max(ver);
        self.slots.drop_slot(&self.key)
    }

    /// Merges an image without rows.
    pub fn merge(&mut self, image: &Image) -> Result<(), Stop> {
        let vector = &image.vector;
        let is_known = match self.slots.find(&self.key) {
            None => false,
            Some(slot) => vector.holds(slot.stamp.member(), slot.stamp.rv()),
        };
        twice!(self.beside(), self.vector.unite(vector))?;
        if is_known {
            self.slots.drop_slot(&self.key);
        }
        self.floor = self.floor.max(image.floor);
        Ok(())
    }

    /// What is known here.
    pub fn report(&self, alloc: Global) -> Result<Report, Memory> {
        Ok(Report {
            member: self.me,
            at: self.history.len(),
            own: self.vector.top(self.me),
            to: self.to,
            vector: Shared::new(alloc, self.vector.copy(alloc)?)?,
        })
    }

    /// What is known here, where nothing stands.
    pub fn image(&self, alloc: Global) -> Result<Image, Memory> {
        Ok(Image {
            from: self.me,
            at: self.history.len(),
            rows: Shared::new(alloc, ChangeList::new(alloc)?)?,
            vector: self.vector.copy(alloc)?,
            floor: self.floor,
        })
    }
}

fn value_of(kind: &Kind) -> Option<&Value> {
    match kind {
        Kind::Put(value) => Some(value),
        Kind::Invalid | Kind::Remove => None,
    }
}

fn copied(alloc: Global, value: Option<&Value>) -> Result<Option<Value>, Memory> {
    match value {
        None => Ok(None),
        Some(value) => Ok(Some(value.copy(alloc)?)),
    }
}
