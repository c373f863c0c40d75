ghost use Rattle.std.specs.Prelude.{◌≡◌, IfOk, replicate};
ghost use Rattle.std.specs.FinMap as finite;
ghost use Rattle.gr_peek.specs.Parts.{found_in};

use super::Store;
use super::parts::Parts;
use crate::told::Told;
use gr_value::{Copied, Key, Memory, Value};
use std::alloc::Global;

impl Store {
    /// Nothing is present.
    pub(crate) fn new(alloc: Global, told: &Told) -> Result<Store, Memory>
        ensures { IfOk result (λ store. store ≡ record { alloc = alloc; entries = replicate 64 finite.empty; told = told.now }) }
    {
        Ok(Store {
            alloc,
            entries: Parts::new(alloc)?,
            told: told.again(),
        })
    }

    /// A copy of the value that is present at the key.
    pub(crate) fn value(&self, alloc: Global, key: &Key) -> Result<Option<Value>, Memory>
        ensures { IfOk result (λ value. value ≡ found_in self.now.entries key.now) }
    {
        match self.entries.get(key) {
            None => Ok(None),
            Some(value) => Ok(Some(value.copy(alloc)?)),
        }
    }
}
