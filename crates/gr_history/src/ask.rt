ghost use Rattle.std.specs.Prelude.{◌≡◌, IfOk};
ghost use Rattle.gr_history.specs.Asks.{key_of};
ghost use Rattle.gr_history.specs.Entries.{kind_of};

use gr_stamp::Kind;
use gr_value::{Copied, Key, Memory, Value};
use std::alloc::Global;

/// What a client asks of one key.
#[derive(Drop)]
pub enum Ask {
    Get { key: Key },
    Put { key: Key, value: Value },
    /// Puts where no value is present.
    PutIfAbsent { key: Key, value: Value },
    /// Puts where a value is present.
    Replace { key: Key, value: Value },
    /// Puts the new value where the old one is present.
    ReplaceIf { key: Key, old: Value, new: Value },
    Destroy { key: Key },
    /// Removes where this value is present.
    Remove { key: Key, value: Value },
    /// Takes away the value that is present, and keeps the key.
    Invalidate { key: Key },
}

impl Ask {
    pub fn key(&self) -> &Key
        ensures { result.now ≡ key_of self.now }
    {
        match self {
            Ask::Get { key } => key,
            Ask::Put { key, .. } => key,
            Ask::PutIfAbsent { key, .. } => key,
            Ask::Replace { key, .. } => key,
            Ask::ReplaceIf { key, .. } => key,
            Ask::Destroy { key } => key,
            Ask::Remove { key, .. } => key,
            Ask::Invalidate { key } => key,
        }
    }

    /// What it does to its key, where it changes it.
    pub fn kind(&self, alloc: Global) -> Result<Kind, Memory>
        ensures { IfOk result (λ kind. kind ≡ kind_of self.now) }
    {
        match self {
            Ask::Put { value, .. }
            | Ask::PutIfAbsent { value, .. }
            | Ask::Replace { value, .. }
            | Ask::ReplaceIf { new: value, .. } => Ok(Kind::Put(value.copy(alloc)?)),
            Ask::Destroy { .. } | Ask::Remove { .. } => Ok(Kind::Remove),
            Ask::Get { .. } | Ask::Invalidate { .. } => Ok(Kind::Invalid),
        }
    }
}

impl Copied for Ask {
    fn copy(&self, alloc: Global) -> Result<Ask, Memory> {
        let key = self.key().copy(alloc)?;
        match self {
            Ask::Get { .. } => Ok(Ask::Get { key }),
            Ask::Put { value, .. } => Ok(Ask::Put {
                key,
                value: value.copy(alloc)?,
            }),
            Ask::PutIfAbsent { value, .. } => Ok(Ask::PutIfAbsent {
                key,
                value: value.copy(alloc)?,
            }),
            Ask::Replace { value, .. } => Ok(Ask::Replace {
                key,
                value: value.copy(alloc)?,
            }),
            Ask::ReplaceIf { old, new, .. } => Ok(Ask::ReplaceIf {
                key,
                old: old.copy(alloc)?,
                new: new.copy(alloc)?,
            }),
            Ask::Destroy { .. } => Ok(Ask::Destroy { key }),
            Ask::Remove { value, .. } => Ok(Ask::Remove {
                key,
                value: value.copy(alloc)?,
            }),
            Ask::Invalidate { .. } => Ok(Ask::Invalidate { key }),
        }
    }
}
