ghost use Rattle.std.specs.Prelude.{◌≡◌, None, IfOk, option_copied};
ghost use Rattle.gr_history.specs.declared.deed.Deed.TheVariants.{Call};
ghost use Rattle.gr_history.specs.Deeds.{is_of_client, is_discarded, is_repeat, kind_of_deed, taken_in};
ghost use Rattle.gr_history.specs.Made.{made_in, reply_in, to_in};

use crate::{Ask, DeedKind, Image, QueryAsk, QueryReply, Reply, Verdict, What};
use gr_stamp::Change;
use gr_value::{Copied, KeyList, Memory, Shared};
use gr_vector::Report;
use std::alloc::Global;

/// One deed of a history.
#[derive(Drop)]
pub enum Deed {
    /// A client's step on a key: what was replied, the change that was made, and the members that it
    /// goes to, with bit m - 1 for member m. What is small stands first, beside the kind of the deed.
    Call {
        client: u8,
        to: u8,
        seq: u32,
        ask: Ask,
        reply: Reply,
        made: Option<Shared<Change>>,
    },
    /// A client's step on one of its queries.
    Asked {
        client: u8,
        seq: u32,
        ask: QueryAsk,
        reply: QueryReply,
    },
    /// A change came, and what became of it.
    Taken {
        change: Shared<Change>,
        verdict: Verdict,
    },
    /// A joiner was given something.
    Gave {
        to: u8,
        what: What,
    },
    /// An image was merged.
    Imaged {
        image: Image,
    },
    /// A report was made.
    Reported {
        report: Report,
    },
    /// Another member's report was heard.
    Heard {
        report: Report,
    },
    /// A sweep at a moment, and the keys whose tombstones expired, in order.
    Swept {
        moment: u64,
        expired: KeyList,
    },
}

impl Deed {
    /// A call that changes nothing.
    pub fn answered(client: u8, seq: u32, ask: Ask, reply: Reply) -> Deed
        ensures { result ≡ Call client 0 seq ask reply None }
    {
        Deed::Call {
            client,
            to: 0,
            seq,
            ask,
            reply,
            made: None,
        }
    }

    pub fn kind(&self) -> DeedKind
        ensures { result ≡ kind_of_deed self.now }
    {
        match self {
            Deed::Call { .. } => DeedKind::Call,
            Deed::Asked { .. } => DeedKind::Asked,
            Deed::Taken { .. } => DeedKind::Taken,
            Deed::Gave { .. } => DeedKind::Gave,
            Deed::Imaged { .. } => DeedKind::Imaged,
            Deed::Reported { .. } => DeedKind::Reported,
            Deed::Heard { .. } => DeedKind::Heard,
            Deed::Swept { .. } => DeedKind::Swept,
        }
    }

    /// What a call replied, and nothing of another deed.
    pub fn reply(&self, alloc: Global) -> Result<Reply, Memory>
        ensures { IfOk result (λ reply. reply ≡ reply_in self.now) }
    {
        match self {
            Deed::Call { reply, .. } => reply.copy(alloc),
            _ => Ok(Reply::Null),
        }
    }

    /// The members that what it made goes to, with bit m - 1 for member m.
    pub fn to(&self) -> u8
        ensures { result ≡ to_in self.now }
    {
        match self {
            Deed::Call { to, .. } => *to,
            _ => 0,
        }
    }

    /// The change that it made, if it made one.
    pub fn made(&self) -> Option<&Shared<Change>>
        ensures { option_copied result ≡ made_in self.now }
    {
        match self {
            Deed::Call { made, .. } => made.as_ref(),
            _ => None,
        }
    }

    /// The change that came, if one did.
    pub fn taken(&self) -> Option<&Shared<Change>>
        ensures { option_copied result ≡ taken_in self.now }
    {
        match self {
            Deed::Taken { change, .. } => Some(change),
            _ => None,
        }
    }

    /// Whether it is a step of this client.
    pub fn is_of(&self, client: u8) -> bool
        ensures { result ≡ is_of_client client self.now }
    {
        match self {
            Deed::Call { client: own, .. } => *own == client,
            Deed::Asked { client: own, .. } => *own == client,
            _ => false,
        }
    }

    /// Whether it takes in a change that loses to what stands.
    pub fn is_discarded(&self) -> bool
        ensures { result ≡ is_discarded self.now }
    {
        matches!(
            self,
            Deed::Taken {
                verdict: Verdict::Discarded,
                ..
            }
        )
    }

    /// Whether it takes in a change that came in before.
    pub fn is_repeat(&self) -> bool
        ensures { result ≡ is_repeat self.now }
    {
        matches!(
            self,
            Deed::Taken {
                verdict: Verdict::Repeat,
                ..
            }
        )
    }
}

impl Copied for Deed {
    fn copy(&self, alloc: Global) -> Result<Deed, Memory> {
        match self {
            Deed::Call {
                client,
                to,
                seq,
                ask,
                reply,
                made,
            } => Ok(Deed::Call {
                client: *client,
                to: *to,
                seq: *seq,
                ask: ask.copy(alloc)?,
                reply: reply.copy(alloc)?,
                made: made.copy(alloc)?,
            }),
            Deed::Asked {
                client,
                seq,
                ask,
                reply,
            } => Ok(Deed::Asked {
                client: *client,
                seq: *seq,
                ask: ask.copy(alloc)?,
                reply: reply.copy(alloc)?,
            }),
            Deed::Taken { change, verdict } => Ok(Deed::Taken {
                change: change.copy(alloc)?,
                verdict: *verdict,
            }),
            Deed::Gave { to, what } => Ok(Deed::Gave {
                to: *to,
                what: *what,
            }),
            Deed::Imaged { image } => Ok(Deed::Imaged {
                image: image.copy(alloc)?,
            }),
            Deed::Reported { report } => Ok(Deed::Reported {
                report: report.copy(alloc)?,
            }),
            Deed::Heard { report } => Ok(Deed::Heard {
                report: report.copy(alloc)?,
            }),
            Deed::Swept { moment, expired } => Ok(Deed::Swept {
                moment: *moment,
                expired: expired.copy(alloc)?,
            }),
        }
    }
}
