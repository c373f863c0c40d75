ghost use Rattle.std.specs.Prelude.{◌≡◌, IfOk};
ghost use Rattle.gr_history.specs.Entries.{asked_by, putting, replied_by};

use crate::{Ask, Reply};
use gr_stamp::Kind;
use gr_value::{Copied, Key, Memory, Value};
use std::alloc::Global;

/// What made a change, beside its key and the value that it put: the operation, with the value that it
/// replied or named.
#[derive(Drop)]
pub enum Cause {
    Put,
    /// A put over the value that it replied.
    PutOver(Value),
    PutIfAbsent,
    /// A replacement of a key without a value.
    Replace,
    /// A replacement of the value that it replied.
    ReplaceOver(Value),
    /// A replacement of the value that it named.
    ReplaceIf(Value),
    Destroy,
    /// A removal of the value that it named.
    Remove(Value),
    Invalidate,
}

// The operation that puts this value.
fn putting(alloc: Global, cause: &Cause, key: Key, value: Value) -> Result<Ask, Memory>
    ensures { IfOk result (λ ask. ask ≡ putting cause.now key value) }
{
    match cause {
        Cause::PutIfAbsent => Ok(Ask::PutIfAbsent { key, value }),
        Cause::Replace | Cause::ReplaceOver(_) => Ok(Ask::Replace { key, value }),
        Cause::ReplaceIf(old) => Ok(Ask::ReplaceIf {
            key,
            old: old.copy(alloc)?,
            new: value,
        }),
        _ => Ok(Ask::Put { key, value }),
    }
}

impl Cause {
    /// What was asked, where this made a change of this key and kind.
    pub fn asked(&self, alloc: Global, key: &Key, kind: &Kind) -> Result<Ask, Memory>
        ensures { IfOk result (λ ask. ask ≡ asked_by self.now key.now kind.now) }
    {
        let key = key.copy(alloc)?;
        match (self, kind) {
            (Cause::Destroy, _) => Ok(Ask::Destroy { key }),
            (Cause::Remove(value), _) => Ok(Ask::Remove {
                key,
                value: value.copy(alloc)?,
            }),
            (Cause::Invalidate, _) => Ok(Ask::Invalidate { key }),
            (_, Kind::Put(value)) => putting(alloc, self, key, value.copy(alloc)?),
            _ => Ok(Ask::Get { key }),
        }
    }

    /// What was replied.
    pub fn replied(&self, alloc: Global) -> Result<Reply, Memory>
        ensures { IfOk result (λ reply. reply ≡ replied_by self.now) }
    {
        match self {
            Cause::PutOver(before) | Cause::ReplaceOver(before) => {
                Ok(Reply::Value(before.copy(alloc)?))
            }
            Cause::ReplaceIf(_) | Cause::Remove(_) => Ok(Reply::Yes),
            Cause::Destroy | Cause::Invalidate => Ok(Reply::Done),
            Cause::Put | Cause::PutIfAbsent | Cause::Replace => Ok(Reply::Null),
        }
    }
}

impl Copied for Cause {
    fn copy(&self, alloc: Global) -> Result<Cause, Memory> {
        match self {
            Cause::Put => Ok(Cause::Put),
            Cause::PutOver(before) => Ok(Cause::PutOver(before.copy(alloc)?)),
            Cause::PutIfAbsent => Ok(Cause::PutIfAbsent),
            Cause::Replace => Ok(Cause::Replace),
            Cause::ReplaceOver(before) => Ok(Cause::ReplaceOver(before.copy(alloc)?)),
            Cause::ReplaceIf(old) => Ok(Cause::ReplaceIf(old.copy(alloc)?)),
            Cause::Destroy => Ok(Cause::Destroy),
            Cause::Remove(value) => Ok(Cause::Remove(value.copy(alloc)?)),
            Cause::Invalidate => Ok(Cause::Invalidate),
        }
    }
}
