ghost use Rattle.std.specs.Prelude.{◌≡◌, None, Some, IfOk, option_copied};
ghost use Rattle.gr_history.specs.declared.deed.Deed.TheVariants as deed;
ghost use Rattle.gr_history.specs.Deeds.{is_of_client, is_discarded, is_repeat, kind_of_deed, taken_in};
ghost use Rattle.gr_history.specs.Entries.{asked_change};
ghost use Rattle.gr_history.specs.Made.{made_in, reply_in, to_in};

use crate::{Ask, Cause, Deed, DeedKind, Reply, Verdict};
use gr_stamp::{Change, Kind, Stamp};
use gr_value::{Copied, Key, Memory, Shared, Value};
use std::alloc::Global;
use std::marker::Model;

// What is there most often stands in few bytes: of a call that changed something its key and the value
// that it put stand in the change alone, which copies share.
#[derive(Drop)]
enum Kept {
    /// A call that changed something.
    Changed {
        client: u8,
        to: u8,
        seq: u32,
        change: Shared<Change>,
        cause: Cause,
    },
    /// A get that found a value.
    Found {
        client: u8,
        seq: u32,
        key: Key,
        value: Value,
    },
    /// A get that found none.
    Missed {
        client: u8,
        seq: u32,
        key: Key,
    },
    Taken {
        verdict: Verdict,
        change: Shared<Change>,
    },
    Rest(Shared<Deed>),
}

/// A deed as a history keeps it. Contracts see it as that deed. Copies share all that is large.
#[derive(Drop)]
pub struct Entry {
    kept: Kept,
}

const _: () = prove!(size_of::<Entry>() == 32);

impl Model for Entry {
    ghost use Rattle.std.specs.Coded.{codes};
    ghost use Rattle.gr_oql.specs.Question.{question_code};
    ghost use Rattle.gr_history.specs.declared.deed.Deed.{Deed};
    ghost use Rattle.gr_history.specs.Entries.{deed_in};

    ghost Value = { Deed };

    ghost coded = { Prim.hlevel (codes, question_code) };

    ghost view = { λ entry. deed_in entry.kept };
}

/// What is lent of a change that is shared, if there is one.
#[inline(always)]
pub fn lent(change: Option<&Shared<Change>>) -> Option<&Change>
    ensures { option_copied result ≡ option_copied change.entry }
{
    match change {
        None => None,
        Some(change) => Some(change.get()),
    }
}

// The change that a call with this ask makes, in its words.
fn asked_change(alloc: Global, ask: &Ask, stamp: Stamp) -> Result<Change, Memory>
    ensures { IfOk result (λ change. change ≡ asked_change ask.now stamp) }
{
    Ok(Change {
        key: ask.key().copy(alloc)?,
        kind: ask.kind(alloc)?,
        stamp,
    })
}

impl Entry {
    /// Any deed.
    pub fn of(alloc: Global, deed: Deed) -> Result<Entry, Memory>
        ensures { IfOk result (λ entry. entry ≡ deed) }
    {
        let kept = Kept::Rest(Shared::new(alloc, deed)?);
        Ok(Entry { kept })
    }

    /// A change that came.
    #[inline(always)]
    pub fn taken_in(change: Shared<Change>, verdict: Verdict) -> Entry
        ensures { result ≡ deed.Taken change verdict }
    {
        let kept = Kept::Taken { verdict, change };
        Entry { kept }
    }

    /// A call that changes nothing.
    #[inline(always)]
    pub fn answered(
        alloc: Global,
        client: u8,
        seq: u32,
        ask: Ask,
        reply: Reply,
    ) -> Result<Entry, Memory>
        ensures { IfOk result (λ entry. entry ≡ deed.Call client 0 seq ask reply None) }
    {
        let kept = match (ask, reply) {
            (Ask::Get { key }, Reply::Value(value)) => Kept::Found {
                client,
                seq,
                key,
                value,
            },
            (Ask::Get { key }, Reply::Null) => Kept::Missed { client, seq, key },
            (ask, reply) => return Entry::of(alloc, Deed::answered(client, seq, ask, reply)),
        };
        Ok(Entry { kept })
    }

    // A call with a reply beside which it changes nothing by the table.
    fn odd(
        alloc: Global,
        client: u8,
        to: u8,
        seq: u32,
        ask: Ask,
        reply: Reply,
        stamp: Stamp,
    ) -> Result<Entry, Memory>
        ensures { IfOk result
            (λ entry. entry ≡ deed.Call client to seq ask reply (Some (asked_change ask stamp))) }
    {
        let change = Shared::new(alloc, asked_change(alloc, &ask, stamp)?)?;
        Entry::of(
            alloc,
            Deed::Call {
                client,
                to,
                seq,
                ask,
                reply,
                made: Some(change),
            },
        )
    }

    /// A call that makes the change that is asked, with this stamp, which goes to the members with
    /// these bits.
    #[inline(always)]
    pub fn changed(
        alloc: Global,
        client: u8,
        to: u8,
        seq: u32,
        ask: Ask,
        reply: Reply,
        stamp: Stamp,
    ) -> Result<Entry, Memory>
        ensures { IfOk result
            (λ entry. entry ≡ deed.Call client to seq ask reply (Some (asked_change ask stamp))) }
    {
        let (key, kind, cause) = match (ask, reply) {
            (Ask::Put { key, value }, Reply::Null) => (key, Kind::Put(value), Cause::Put),
            (Ask::Put { key, value }, Reply::Value(before)) => {
                (key, Kind::Put(value), Cause::PutOver(before))
            }
            (Ask::PutIfAbsent { key, value }, Reply::Null) => {
                (key, Kind::Put(value), Cause::PutIfAbsent)
            }
            (Ask::Replace { key, value }, Reply::Null) => (key, Kind::Put(value), Cause::Replace),
            (Ask::Replace { key, value }, Reply::Value(before)) => {
                (key, Kind::Put(value), Cause::ReplaceOver(before))
            }
            (Ask::ReplaceIf { key, old, new }, Reply::Yes) => {
                (key, Kind::Put(new), Cause::ReplaceIf(old))
            }
            (Ask::Destroy { key }, Reply::Done) => (key, Kind::Remove, Cause::Destroy),
            (Ask::Remove { key, value }, Reply::Yes) => (key, Kind::Remove, Cause::Remove(value)),
            (Ask::Invalidate { key }, Reply::Done) => (key, Kind::Invalid, Cause::Invalidate),
            (ask, reply) => return Entry::odd(alloc, client, to, seq, ask, reply, stamp),
        };
        let change = Shared::new(alloc, Change { key, kind, stamp })?;
        let kept = Kept::Changed {
            client,
            to,
            seq,
            change,
            cause,
        };
        Ok(Entry { kept })
    }

    /// The deed that it is.
    pub fn deed(&self, alloc: Global) -> Result<Deed, Memory>
        ensures { IfOk result (λ deed. deed ≡ self.now) }
    {
        match &self.kept {
            Kept::Changed {
                client,
                to,
                seq,
                change,
                cause,
            } => Ok(Deed::Call {
                client: *client,
                to: *to,
                seq: *seq,
                ask: cause.asked(alloc, &change.get().key, &change.get().kind)?,
                reply: cause.replied(alloc)?,
                made: Some(change.copy(alloc)?),
            }),
            Kept::Found {
                client,
                seq,
                key,
                value,
            } => {
                let key = key.copy(alloc)?;
                let reply = Reply::Value(value.copy(alloc)?);
                Ok(Deed::answered(*client, *seq, Ask::Get { key }, reply))
            }
            Kept::Missed { client, seq, key } => {
                let key = key.copy(alloc)?;
                Ok(Deed::answered(*client, *seq, Ask::Get { key }, Reply::Null))
            }
            Kept::Taken { verdict, change } => Ok(Deed::Taken {
                change: change.copy(alloc)?,
                verdict: *verdict,
            }),
            Kept::Rest(deed) => deed.get().copy(alloc),
        }
    }

    #[inline(always)]
    pub fn kind(&self) -> DeedKind
        ensures { result ≡ kind_of_deed self.now }
    {
        match &self.kept {
            Kept::Changed { .. } | Kept::Found { .. } | Kept::Missed { .. } => DeedKind::Call,
            Kept::Taken { .. } => DeedKind::Taken,
            Kept::Rest(deed) => deed.get().kind(),
        }
    }

    /// What a call replied, and nothing of another deed.
    #[inline(always)]
    pub fn reply(&self, alloc: Global) -> Result<Reply, Memory>
        ensures { IfOk result (λ reply. reply ≡ reply_in self.now) }
    {
        match &self.kept {
            Kept::Changed { cause, .. } => cause.replied(alloc),
            Kept::Found { value, .. } => Ok(Reply::Value(value.copy(alloc)?)),
            Kept::Missed { .. } | Kept::Taken { .. } => Ok(Reply::Null),
            Kept::Rest(deed) => deed.get().reply(alloc),
        }
    }

    /// The members that what it made goes to, with bit m - 1 for member m.
    #[inline(always)]
    pub fn to(&self) -> u8
        ensures { result ≡ to_in self.now }
    {
        match &self.kept {
            Kept::Changed { to, .. } => *to,
            Kept::Rest(deed) => deed.get().to(),
            _ => 0,
        }
    }

    /// The change that it made, if it made one.
    #[inline(always)]
    pub fn made(&self) -> Option<&Shared<Change>>
        ensures { option_copied result ≡ made_in self.now }
    {
        match &self.kept {
            Kept::Changed { change, .. } => Some(change),
            Kept::Rest(deed) => deed.get().made(),
            _ => None,
        }
    }

    /// The change that came, if one did.
    pub fn taken(&self) -> Option<&Shared<Change>>
        ensures { option_copied result ≡ taken_in self.now }
    {
        match &self.kept {
            Kept::Taken { change, .. } => Some(change),
            Kept::Rest(deed) => deed.get().taken(),
            _ => None,
        }
    }

    /// Whether it is a step of this client.
    pub fn is_of(&self, client: u8) -> bool
        ensures { result ≡ is_of_client client self.now }
    {
        match &self.kept {
            Kept::Changed { client: own, .. } => *own == client,
            Kept::Found { client: own, .. } => *own == client,
            Kept::Missed { client: own, .. } => *own == client,
            Kept::Taken { .. } => false,
            Kept::Rest(deed) => deed.get().is_of(client),
        }
    }

    /// Whether it takes in a change that loses to what stands.
    #[inline(always)]
    pub fn is_discarded(&self) -> bool
        ensures { result ≡ is_discarded self.now }
    {
        match &self.kept {
            Kept::Taken { verdict, .. } => matches!(verdict, Verdict::Discarded),
            Kept::Rest(deed) => deed.get().is_discarded(),
            _ => false,
        }
    }

    /// Whether it takes in a change that came in before.
    #[inline(always)]
    pub fn is_repeat(&self) -> bool
        ensures { result ≡ is_repeat self.now }
    {
        match &self.kept {
            Kept::Taken { verdict, .. } => matches!(verdict, Verdict::Repeat),
            Kept::Rest(deed) => deed.get().is_repeat(),
            _ => false,
        }
    }
}

impl Copied for Entry {
    fn copy(&self, alloc: Global) -> Result<Entry, Memory> {
        let kept = match &self.kept {
            Kept::Changed {
                client,
                to,
                seq,
                change,
                cause,
            } => Kept::Changed {
                client: *client,
                to: *to,
                seq: *seq,
                change: change.copy(alloc)?,
                cause: cause.copy(alloc)?,
            },
            Kept::Found {
                client,
                seq,
                key,
                value,
            } => Kept::Found {
                client: *client,
                seq: *seq,
                key: key.copy(alloc)?,
                value: value.copy(alloc)?,
            },
            Kept::Missed { client, seq, key } => Kept::Missed {
                client: *client,
                seq: *seq,
                key: key.copy(alloc)?,
            },
            Kept::Taken { verdict, change } => Kept::Taken {
                verdict: *verdict,
                change: change.copy(alloc)?,
            },
            Kept::Rest(deed) => Kept::Rest(deed.copy(alloc)?),
        };
        Ok(Entry { kept })
    }
}
