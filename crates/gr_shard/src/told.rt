ghost use Rattle.std.specs.Prelude.{◌≡◌, true, false, IfOk, option_copied};
ghost use Rattle.gr_value.specs.Fields.{value_eq};
ghost use Rattle.gr_history.specs.Asks.{at_key, reply_of, told};
ghost use Rattle.gr_shard.specs.Calls.{told_by};

use gr_history::{Ask, Reply};
use gr_value::{Copied, Memory, Value};
use std::alloc::Global;

/// What an operation answers by its table: the reply, and whether what it asks for is to change.
#[derive(Drop)]
pub(crate) struct Answer {
    pub reply: Reply,
    pub changes: bool,
}

// A reply beside which nothing changes.
fn unchanged(reply: Reply) -> Answer
    ensures { result ≡ record { reply = reply; changes = false } }
{
    Answer {
        reply,
        changes: false,
    }
}

// A reply beside which what is asked for is to change.
fn changing(reply: Reply) -> Answer
    ensures { result ≡ record { reply = reply; changes = true } }
{
    Answer {
        reply,
        changes: true,
    }
}

fn reply_of(alloc: Global, present: Option<&Value>) -> Result<Reply, Memory>
    ensures { IfOk result (λ reply. reply ≡ reply_of (option_copied present.entry)) }
{
    match present {
        None => Ok(Reply::Null),
        Some(value) => Ok(Reply::Value(value.copy(alloc)?)),
    }
}

// What an ask gives at a key that is there or isn't, with the value that is present.
#[inline(always)]
pub(crate) fn answers(
    alloc: Global,
    ask: &Ask,
    there: bool,
    present: Option<&Value>,
) -> Result<Answer, Memory>
    ensures { IfOk result (λ answer. told_by ask.now answer ≡ told ask.now (at_key there (option_copied present.entry))) }
{
    match (ask, present) {
        (Ask::Get { .. }, _) | (Ask::PutIfAbsent { .. }, Some(_)) => {
            Ok(unchanged(reply_of(alloc, present)?))
        }
        (Ask::Replace { .. }, None) if !there => Ok(unchanged(Reply::Null)),
        (Ask::Put { .. } | Ask::Replace { .. }, _) | (Ask::PutIfAbsent { .. }, None) => {
            Ok(changing(reply_of(alloc, present)?))
        }
        (Ask::ReplaceIf { old, .. }, Some(here)) if here.same(old) => Ok(changing(Reply::Yes)),
        (Ask::Remove { value, .. }, Some(here)) if here.same(value) => Ok(changing(Reply::Yes)),
        (Ask::ReplaceIf { .. } | Ask::Remove { .. }, _) => Ok(unchanged(Reply::No)),
        (Ask::Destroy { .. } | Ask::Invalidate { .. }, None) if !there => {
            Ok(unchanged(Reply::NotFound))
        }
        (Ask::Destroy { .. }, _) => Ok(changing(Reply::Done)),
        (Ask::Invalidate { .. }, None) => Ok(unchanged(Reply::Done)),
        (Ask::Invalidate { .. }, Some(_)) => Ok(changing(Reply::Done)),
    }
}
