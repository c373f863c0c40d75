ghost use Rattle.std.specs.Prelude.{◌≡◌, IfOk};

use crate::{Copied, Memory};
use std::alloc::Global;
use std::marker::Model;
use std::sync::Arc;

/// A value that changes no more. Contracts see it as that value. Copies share it.
#[derive(Drop)]
pub struct Shared<T> {
    value: Arc<T>,
}

impl<T> Model for Shared<T> {
    ghost Value = { T };

    ghost view = { λ s. s.value.value };
}

impl<T> Shared<T> {
    #[inline(always)]
    pub fn new(alloc: Global, value: T) -> Result<Shared<T>, Memory>
    where
        T: Drop,
        ensures { IfOk result (λ shared. shared ≡ value) }
    {
        Ok(Shared {
            value: Arc::new(alloc, value)?,
        })
    }

    #[inline(always)]
    pub fn get(&self) -> &T
        ensures { result.now ≡ self.now }
    {
        &self.value
    }
}

impl<T> Copied for Shared<T> {
    #[inline(always)]
    fn copy(&self, _alloc: Global) -> Result<Shared<T>, Memory> {
        let value = Arc::try_clone(&self.value)?;
        Ok(Shared { value })
    }
}
