ghost use Rattle.std.specs.Prelude.{◌≡◌};

use gr_stamp::{Change, ChangeList};
use gr_value::{Copied, ItemList, Memory, Shared};
use gr_vector::Vector;
use std::alloc::Global;

/// What stands at a shard and all that is known there, at a place of its history.
#[derive(Drop)]
pub struct Image {
    /// The member that gives it.
    pub from: u8,
    /// How many deeds its history had.
    pub at: u64,
    /// What stands, removals too, in the order of the keys.
    pub rows: Shared<ChangeList>,
    pub vector: Vector,
    pub floor: u64,
}

impl Copied for Image {
    fn copy(&self, alloc: Global) -> Result<Image, Memory> {
        Ok(Image {
            from: self.from,
            at: self.at,
            rows: self.rows.copy(alloc)?,
            vector: Copied::copy(&self.vector, alloc)?,
            floor: self.floor,
        })
    }
}

/// What a joiner is to be given.
#[derive(Clone, Copy)]
pub enum What {
    Image,
    /// The changes that the giver made.
    Own,
}

/// What a joiner is given.
#[derive(Drop)]
pub enum Gift {
    Image(Image),
    /// The changes that the giver made, the oldest first.
    Own(ItemList<Shared<Change>>),
}

impl Copied for Gift {
    fn copy(&self, alloc: Global) -> Result<Gift, Memory> {
        match self {
            Gift::Image(image) => Ok(Gift::Image(image.copy(alloc)?)),
            Gift::Own(changes) => Ok(Gift::Own(changes.copy(alloc)?)),
        }
    }
}
