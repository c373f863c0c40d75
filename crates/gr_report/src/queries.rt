ghost use Rattle.std.specs.Prelude.{◌≡◌, ◌++◌, ◌+◌, ◌<◌, ◌≤◌, ◌^◌, [], ◌∷◌, length, flat_map, IfOk, OnOk, option_copied};
ghost use Rattle.std.specs.List.{fold};
ghost use Rattle.gr_report.specs.Queries.{query_step_text, query_line, shard_line, opened_rows, fetched_events};
ghost use Rattle.gr_report.specs.Queries.{op_text, base_text, new_text, row_text, event_text, events_told, told_by_all, replies_text};
ghost use Rattle.gr_report.specs.Queries.{all_rows};
ghost use Rattle.gr_report.specs.Rows.{with_row, by_key};
ghost use Rattle.gr_report.specs.Shown.{shown};

use crate::counts::sum;
use crate::put::{put_counted, put_text};
use crate::rows::{Keyed, gather, put_gathered};
use crate::written::{Written, put_all};
use gr_history::{QueryAsk, QueryReply, Row};
use gr_oql::{BaseOp, Event, QueryOp};
use gr_script::put_query_ask;
use gr_value::{Key, Memory, Value};
use std::alloc::Global;
use std::collections::BTreeMap;

fn put_named(out: &mut Vec<u8>, word: &str, name: &Key) -> Result<(), Memory>
    ensures { OnOk result (out.new.items ≡ out.old.items ++ word.now ++ name.now) }
{
    put_text(out, word)?;
    out.extend_from_slice(name.bytes())?;
    Ok(())
}

/// Puts a step of a client on a query last.
pub fn put_query_step(out: &mut Vec<u8>, client: u8, seq: u32, ask: &QueryAsk) -> Result<(), Memory>
    ensures { OnOk result (out.new.items ≡ out.old.items ++ query_step_text client seq ask.now) }
{
    put_counted(out, "ask ", u128::from(client))?;
    put_counted(out, ".", u128::from(seq))?;
    put_text(out, " ")?;
    put_query_ask(ask, out)
}

// The first line of what was told, of this many rows or events.
fn put_line(out: &mut Vec<u8>, reply: &QueryReply, number: u128) -> Result<(), Memory>
    ensures { OnOk result (out.new.items ≡ out.old.items ++ query_line reply.now number) }
{
    match reply {
        QueryReply::Opened(_) => put_counted(out, "opened ", number),
        QueryReply::Stopped => put_text(out, "stopped"),
        QueryReply::Closed => put_text(out, "closed"),
        QueryReply::Fetched(_) => put_counted(out, "fetched ", number),
        QueryReply::Unknown => put_text(out, "unknown"),
        QueryReply::Taken => put_text(out, "taken"),
        QueryReply::NotRunning => put_text(out, "not-running"),
    }
}

/// Puts what one shard told last, without its rows and events.
pub fn put_shard_line(out: &mut Vec<u8>, reply: &QueryReply) -> Result<(), Memory>
    ensures { OnOk result (out.new.items ≡ out.old.items ++ shard_line reply.now) }
{
    match reply {
        QueryReply::Opened(rows) => put_line(out, reply, rows.get().len() as u128),
        QueryReply::Fetched(events) => put_line(out, reply, events.get().len() as u128),
        _ => put_line(out, reply, 0),
    }
}

fn put_op(out: &mut Vec<u8>, op: QueryOp) -> Result<(), Memory>
    ensures { OnOk result (out.new.items ≡ out.old.items ++ op_text op) }
{
    match op {
        QueryOp::Create => put_text(out, "create"),
        QueryOp::Update => put_text(out, "update"),
        QueryOp::Destroy => put_text(out, "destroy"),
    }
}

fn put_base(out: &mut Vec<u8>, base: BaseOp) -> Result<(), Memory>
    ensures { OnOk result (out.new.items ≡ out.old.items ++ base_text base) }
{
    match base {
        BaseOp::Create => put_text(out, "create"),
        BaseOp::Update => put_text(out, "update"),
        BaseOp::Destroy => put_text(out, "destroy"),
        BaseOp::Invalidate => put_text(out, "invalidate"),
    }
}

fn put_new(alloc: Global, out: &mut Vec<u8>, value: Option<&Value>) -> Result<(), Memory>
    ensures { OnOk result (out.new.items ≡ out.old.items ++ new_text (option_copied value.entry)) }
{
    match value {
        None => put_text(out, "-"),
        Some(value) => value.print_to(alloc, out),
    }
}

impl Keyed for Row {
    ghost key = { λ row. row.key };

    fn key(&self) -> &Key {
        &self.key
    }
}

impl Written for Row {
    ghost text = { row_text };

    #[tactic(auto, unfolding(crate::specs::Queries::row_text))]
    fn put(&self, alloc: Global, out: &mut Vec<u8>) -> Result<(), Memory> {
        put_named(out, "\n ", &self.key)?;
        put_text(out, " ")?;
        self.value.print_to(alloc, out)
    }
}

impl Written for Event {
    ghost text = { event_text };

    #[tactic(auto, unfolding(crate::specs::Queries::event_text))]
    fn put(&self, alloc: Global, out: &mut Vec<u8>) -> Result<(), Memory> {
        put_text(out, "\n ")?;
        put_op(out, self.op)?;
        put_text(out, " ")?;
        put_base(out, self.base)?;
        put_named(out, " ", &self.key)?;
        put_text(out, " ")?;
        put_new(alloc, out, self.value.as_ref())
    }
}

fn gather_reply<'a>(
    alloc: Global,
    rows: &mut BTreeMap<Key, &'a Row>,
    reply: &'a QueryReply,
) -> Result<(), Memory>
    ensures { OnOk result (shown rows.new.entries ≡ fold (with_row (λ row. row.key)) (shown rows.old.entries) (opened_rows reply.now)) }
{
    match reply {
        QueryReply::Opened(more) => gather(alloc, rows, more.get().as_slice()),
        _ => Ok(()),
    }
}

fn gather_replies(alloc: Global, replies: &[QueryReply]) -> Result<BTreeMap<Key, &Row>, Memory>
    ensures { IfOk result (λ rows. shown rows.entries ≡ by_key (λ row. row.key) (flat_map opened_rows replies.now)) }
{
    let mut rows = BTreeMap::new(alloc);
    for reply in replies {
        gather_reply(alloc, &mut rows, reply)?;
    }
    Ok(rows)
}

fn put_opened(
    alloc: Global,
    out: &mut Vec<u8>,
    first: &QueryReply,
    replies: &[QueryReply],
) -> Result<(), Memory>
    ensures { OnOk result
        (out.new.items ≡ out.old.items ++ query_line first.now (length (all_rows replies.now)) ++ flat_map row_text (all_rows replies.now)) }
{
    let rows = gather_replies(alloc, replies)?;
    put_line(out, first, rows.len() as u128)?;
    put_gathered(alloc, out, &rows)
}

fn put_told(alloc: Global, out: &mut Vec<u8>, reply: &QueryReply) -> Result<(), Memory>
    ensures { OnOk result (out.new.items ≡ out.old.items ++ flat_map event_text (fetched_events reply.now)) }
{
    match reply {
        QueryReply::Fetched(events) => put_all(alloc, out, events.get().as_slice()),
        _ => Ok(()),
    }
}

fn told_of(reply: &QueryReply) -> u64
    ensures { result ≡ length (fetched_events reply.now) }
{
    match reply {
        QueryReply::Fetched(events) => events.get().len() as u64,
        _ => 0,
    }
}

fn events_told(replies: &[QueryReply]) -> u128
    ensures { result ≡ events_told replies.now }
{
    let mut total = 0;
    for reply in replies {
        total = sum(total, told_of(reply));
    }
    total
}

fn put_events(alloc: Global, out: &mut Vec<u8>, replies: &[QueryReply]) -> Result<(), Memory>
    ensures { OnOk result
        (out.new.items ≡ out.old.items ++ flat_map event_text (flat_map fetched_events replies.now)) }
{
    for reply in replies {
        put_told(alloc, out, reply)?;
    }
    Ok(())
}

/// Puts what all shards told last, from shard 0 on.
pub fn put_replies(alloc: Global, out: &mut Vec<u8>, replies: &[QueryReply]) -> Result<(), Memory>
    ensures { OnOk result (out.new.items ≡ out.old.items ++ replies_text replies.now) }
{
    let Some(first) = replies.first() else {
        return Ok(());
    };
    match first {
        QueryReply::Opened(_) => put_opened(alloc, out, first, replies),
        QueryReply::Fetched(_) => {
            put_line(out, first, events_told(replies))?;
            put_events(alloc, out, replies)
        }
        _ => put_line(out, first, 0),
    }
}
