ghost use Rattle.std.specs.Prelude.{◌≡◌, not, option_copied};
ghost use Rattle.gr_stamp.specs.Winner.{is_removal, put_value};

use gr_stamp::{Kind, Stamp};
use gr_value::{Copied, Memory, Value};
use std::alloc::Global;

/// What stands at a key: a put, an invalidation, or a removal as a tombstone, with its stamp and the
/// shard's clock when it came in, in seconds.
#[derive(Drop)]
pub struct Slot {
    pub kind: Kind,
    pub taken_at: u64,
    pub stamp: Stamp,
}

impl Slot {
    /// The value, where a put stands.
    pub fn value(&self) -> Option<&Value>
        ensures { option_copied result ≡ put_value self.now.kind }
    {
        match &self.kind {
            Kind::Put(value) => Some(value),
            Kind::Invalid | Kind::Remove => None,
        }
    }

    /// Whether the key is there, with a value or without.
    pub fn is_there(&self) -> bool
        ensures { result ≡ not (is_removal self.now.kind) }
    {
        self.kind.keeps_key()
    }
}

impl Copied for Slot {
    fn copy(&self, alloc: Global) -> Result<Slot, Memory> {
        Ok(Slot {
            kind: self.kind.copy(alloc)?,
            stamp: self.stamp,
            taken_at: self.taken_at,
        })
    }
}
