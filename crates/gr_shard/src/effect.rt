ghost use Rattle.std.specs.Prelude.{◌≡◌};
ghost use Rattle.gr_shard.specs.Effects.{unchanged};

use gr_cq::Foreseen;
use gr_slots::{Slot, Slots};
use gr_stamp::Stamp;
use gr_value::{Key, KeyList};
use gr_vector::{Report, Vector};

/// What becomes of the slots.
#[derive(Drop)]
pub enum SlotsAfter {
    Same,
    With { key: Key, slot: Slot },
    New(Box<Slots>),
    Without(KeyList),
}

/// What becomes of the ids that are known.
#[derive(Drop)]
pub enum IdsAfter {
    Same,
    With(Stamp),
    New(Box<Vector>),
}

/// What becomes of the open queries.
#[derive(Drop)]
pub enum QueriesAfter {
    Same,
    Told(Foreseen),
    Stopped { client: u8, name: Key },
    Closed { client: u8, name: Key },
}

/// What a deed changes of what a shard keeps.
#[derive(Drop)]
pub struct Effect {
    pub slots: SlotsAfter,
    pub ids: IdsAfter,
    pub queries: QueriesAfter,
    pub heard: Option<Report>,
    pub to: Option<u8>,
    pub floor: Option<u64>,
    pub clock: Option<u64>,
    pub joined: bool,
}

impl Effect {
    /// Nothing changes but the history.
    pub fn none() -> Effect
        ensures { result ≡ unchanged }
    {
        Effect {
            slots: SlotsAfter::Same,
            ids: IdsAfter::Same,
            queries: QueriesAfter::Same,
            heard: None,
            to: None,
            floor: None,
            clock: None,
            joined: false,
        }
    }
}
