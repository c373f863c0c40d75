ghost use Rattle.std.specs.Prelude.{◌≡◌, ◌≤◌, ◌+◌, List, [], Some, IfOk, OnOk, OnErr, option_map};
ghost use Rattle.gr_cq.specs.Entries.{find};
ghost use Rattle.gr_history.specs.declared.deed.Deed.{Deed};
ghost use Rattle.gr_history.specs.declared.query_ask.QueryAsk.TheVariants as asks;
ghost use Rattle.gr_history.specs.Queries.{name_of, rows_of};
ghost use Rattle.gr_shard.specs.declared.effect.QueriesAfter.TheVariants as queries_;
ghost use Rattle.gr_shard.specs.Asking.{Hold, close_said, refusal, stop_said, twice};
ghost use Rattle.gr_shard.specs.Effects.{IsMadeAt, needs, queries_after};
ghost use Rattle.gr_shard.specs.InStep.{rows_of_ask, reply_by, runs_in, served};

use crate::committing::carry_out;
use crate::effect::QueriesAfter;
use crate::opening::rows_of;
use gr_cq::{Coming, QueryEnd, Registry};
use gr_history::{QueryAsk, QueryReply};
use gr_oql::Query;
use gr_slots::Slots;
use gr_value::{Copied, Key, Memory, Shared};
use std::alloc::Global;

/// A reply that is noted in the history, and told to the client.
#[derive(Drop)]
pub struct Replies {
    pub noted: QueryReply,
    pub told: QueryReply,
}

/// What a client is answered, and what becomes of the queries then.
#[derive(Drop)]
pub struct Foretold {
    pub replies: Replies,
    pub after: QueriesAfter,
}

/// Makes ready what a client asks of its query, and changes nothing yet.
pub fn foretell(
    alloc: Global,
    queries: &mut Registry,
    slots: &Slots,
    client: u8,
    ask: &QueryAsk,
) -> Result<Foretold, Memory>
    ensures entries { queries.new.entries ≡ queries.old.entries }
    ensures grows { queries.old.spare ≤ queries.new.spare }
    ensures replies { IfOk result (λ told. (past : List Deed) → Hold slots.now.entries past
        → told.replies ≡ twice (reply_by ask.now (rows_of_ask ask.now past) (find client (name_of ask.now) queries.old.entries))) }
    ensures after { IfOk result (λ told. queries_after told.after queries.old.entries ≡ served client ask.now queries.old.entries) }
    ensures made { IfOk result (λ told. IsMadeAt queries.old.entries told.after) }
    ensures room { IfOk result (λ told. needs told.after ≤ 1 + queries.new.spare) }
{
    match ask {
        QueryAsk::Enrol { name, query } => enrol(alloc, queries, slots, client, name, query),
        QueryAsk::Stop { name } => stop(alloc, queries, client, name),
        QueryAsk::Close { name } => close(alloc, queries, client, name),
        QueryAsk::Fetch { name } => fetch(alloc, queries, client, name),
    }
}

// Opens a query. Where one of that name is open, no row is looked at.
fn enrol(
    alloc: Global,
    queries: &mut Registry,
    slots: &Slots,
    client: u8,
    name: &Key,
    query: &Query,
) -> Result<Foretold, Memory>
    ensures entries { queries.new.entries ≡ queries.old.entries }
    ensures grows { queries.old.spare ≤ queries.new.spare }
    ensures replies { IfOk result (λ told. (past : List Deed) → Hold slots.now.entries past
        → told.replies ≡ twice (reply_by (asks.Enrol name.now query.now) (rows_of query.now past) (find client name.now queries.old.entries))) }
    ensures after { IfOk result
        (λ told. queries_after told.after queries.old.entries ≡ served client (asks.Enrol name.now query.now) queries.old.entries) }
    ensures made { IfOk result (λ told. IsMadeAt queries.old.entries told.after) }
    ensures room { IfOk result (λ told. needs told.after ≤ 1 + queries.new.spare) }
{
    let coming = Coming::Enrol {
        client,
        name,
        query,
    };
    match queries.foresee(alloc, &coming) {
        Err(end) => refused(end),
        Ok(foreseen) => {
            let rows = Shared::new(alloc, rows_of(alloc, query, slots)?)?;
            let noted = QueryReply::Opened(rows.copy(alloc)?);
            Ok(Foretold {
                replies: Replies {
                    noted,
                    told: QueryReply::Opened(rows),
                },
                after: QueriesAfter::Told(foreseen),
            })
        }
    }
}

// Stops a query. Its waiting events stay.
fn stop(alloc: Global, queries: &Registry, client: u8, name: &Key) -> Result<Foretold, Memory>
    ensures replies { IfOk result (λ told. told.replies ≡ twice (stop_said (runs_in (find client name.now queries.now.entries)))) }
    ensures after { IfOk result
        (λ told. queries_after told.after queries.now.entries ≡ served client (asks.Stop name.now) queries.now.entries) }
    ensures made { IfOk result (λ told. IsMadeAt queries.now.entries told.after) }
    ensures room { IfOk result (λ told. needs told.after ≡ 1) }
{
    let runs = queries.runs(client, name);
    Ok(Foretold {
        replies: Replies {
            noted: stop_said(runs),
            told: stop_said(runs),
        },
        after: QueriesAfter::Stopped {
            client,
            name: name.copy(alloc)?,
        },
    })
}

// What is answered where a query is to be stopped that runs, was stopped, or isn't open.
fn stop_said(runs: Option<bool>) -> QueryReply
    ensures { result ≡ stop_said runs }
{
    match runs {
        None => QueryReply::Unknown,
        Some(true) => QueryReply::Stopped,
        Some(false) => QueryReply::NotRunning,
    }
}

// Closes a query and drops its waiting events.
fn close(alloc: Global, queries: &Registry, client: u8, name: &Key) -> Result<Foretold, Memory>
    ensures replies { IfOk result (λ told. told.replies ≡ twice (close_said (runs_in (find client name.now queries.now.entries)))) }
    ensures after { IfOk result
        (λ told. queries_after told.after queries.now.entries ≡ served client (asks.Close name.now) queries.now.entries) }
    ensures made { IfOk result (λ told. IsMadeAt queries.now.entries told.after) }
    ensures room { IfOk result (λ told. needs told.after ≡ 1) }
{
    let runs = queries.runs(client, name);
    Ok(Foretold {
        replies: Replies {
            noted: close_said(runs),
            told: close_said(runs),
        },
        after: QueriesAfter::Closed {
            client,
            name: name.copy(alloc)?,
        },
    })
}

// What is answered where a query is to be closed that is open, or isn't.
fn close_said(runs: Option<bool>) -> QueryReply
    ensures { result ≡ close_said runs }
{
    match runs {
        None => QueryReply::Unknown,
        Some(_) => QueryReply::Closed,
    }
}

// Hands out the waiting events of a query, whether it runs or was stopped.
fn fetch(alloc: Global, queries: &mut Registry, client: u8, name: &Key) -> Result<Foretold, Memory>
    ensures entries { queries.new.entries ≡ queries.old.entries }
    ensures grows { queries.old.spare ≤ queries.new.spare }
    ensures replies { IfOk result (λ told. told.replies ≡ twice (reply_by (asks.Fetch name.now) [] (find client name.now queries.old.entries))) }
    ensures after { IfOk result
        (λ told. queries_after told.after queries.old.entries ≡ served client (asks.Fetch name.now) queries.old.entries) }
    ensures made { IfOk result (λ told. IsMadeAt queries.old.entries told.after) }
    ensures room { IfOk result (λ told. needs told.after ≤ 1 + queries.new.spare) }
{
    match queries.foresee(alloc, &Coming::Take { client, name }) {
        Err(end) => refused(end),
        Ok(foreseen) => {
            let events = Shared::new(alloc, queries.waiting(alloc, client, name)?)?;
            let noted = QueryReply::Fetched(events.copy(alloc)?);
            Ok(Foretold {
                replies: Replies {
                    noted,
                    told: QueryReply::Fetched(events),
                },
                after: QueriesAfter::Told(foreseen),
            })
        }
    }
}

// What a refusal is answered, where it isn't for want of memory.
fn refused(end: QueryEnd) -> Result<Foretold, Memory>
    ensures replies { IfOk result (λ told. option_map twice (refusal end) ≡ Some told.replies) }
    ensures after { IfOk result (λ told. told.after ≡ queries_.Same) }
{
    Ok(Foretold {
        replies: Replies {
            noted: refusal(end)?,
            told: refusal(end)?,
        },
        after: QueriesAfter::Same,
    })
}

fn refusal(end: QueryEnd) -> Result<QueryReply, Memory>
    ensures { IfOk result (λ reply. refusal end ≡ Some reply) }
{
    match end {
        QueryEnd::Unknown => Ok(QueryReply::Unknown),
        QueryEnd::Taken => Ok(QueryReply::Taken),
        QueryEnd::NotRunning => Ok(QueryReply::NotRunning),
        QueryEnd::Memory => Err(Memory),
    }
}
