ghost use Rattle.std.specs.Prelude.{◌≡◌, not};
ghost use Rattle.gr_stamp.specs.Winner.{is_removal};

use crate::Stamp;
use gr_value::{Copied, ItemList, Key, Memory, Value};
use std::alloc::Global;

/// What a change does to its key.
#[derive(Drop)]
pub enum Kind {
    Put(Value),
    /// The key stays, without a value.
    Invalid,
    Remove,
}

impl Kind {
    /// Whether the key is there where this stands, with a value or without.
    pub fn keeps_key(&self) -> bool
        ensures { result ≡ not (is_removal self.now) }
    {
        match self {
            Kind::Put(_) | Kind::Invalid => true,
            Kind::Remove => false,
        }
    }
}

impl Copied for Kind {
    fn copy(&self, alloc: Global) -> Result<Kind, Memory> {
        match self {
            Kind::Put(value) => Ok(Kind::Put(value.copy(alloc)?)),
            Kind::Invalid => Ok(Kind::Invalid),
            Kind::Remove => Ok(Kind::Remove),
        }
    }
}

/// A change of one key, with the stamp that names it.
#[derive(Drop)]
pub struct Change {
    pub key: Key,
    pub kind: Kind,
    pub stamp: Stamp,
}

pub type ChangeList = ItemList<Change>;

impl Copied for Change {
    fn copy(&self, alloc: Global) -> Result<Change, Memory> {
        Ok(Change {
            key: self.key.copy(alloc)?,
            kind: self.kind.copy(alloc)?,
            stamp: self.stamp,
        })
    }
}
