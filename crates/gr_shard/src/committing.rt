ghost use Rattle.std.specs.Prelude.{◌≡◌, ◌≤◌, ◌||◌, unwrap_or};
ghost use Rattle.gr_history.specs.declared.query_ask.QueryAsk.TheVariants as asks;
ghost use Rattle.gr_shard.specs.InStep.{served};
ghost use Rattle.gr_shard.specs.Effects.{IsOneOfEight, IsReadyFor, IsRoomed, heard_after, ids_after, queries_after, slots_after, to_after};

use crate::effect::{IdsAfter, QueriesAfter, SlotsAfter};
use crate::making::with_recipient;
use crate::sweeping::drop_all;
use gr_cq::Registry;
use gr_history::Identity;
use gr_slots::Slots;
use gr_stable::Heard;
use gr_value::Key;
use gr_vector::{Report, Vector};

/// Makes the slots what they are to be. This takes no memory.
pub fn settle(slots: &mut Slots, after: SlotsAfter)
    requires { IsRoomed slots.old.room after }
    ensures { slots.new.entries ≡ slots_after after slots.old.entries }
{
    match after {
        SlotsAfter::Same => {}
        SlotsAfter::With { key, slot } => slots.set_reserved(key, slot),
        SlotsAfter::New(new) => *slots = Box::into_inner(new),
        SlotsAfter::Without(keys) => drop_all(slots, keys.as_slice()),
    }
}

/// Makes the ids what they are to be, for which there is room.
pub fn know(vector: &mut Vector, after: IdsAfter)
    requires { 1 ≤ vector.old.spare }
    ensures { vector.new.ids ≡ ids_after after vector.old.ids }
{
    match after {
        IdsAfter::Same => {}
        IdsAfter::With(stamp) => {
            let _ = vector.note(stamp.member(), stamp.rv());
        }
        IdsAfter::New(new) => *vector = Box::into_inner(new),
    }
}

// Stops a query, if it runs.
fn stop(queries: &mut Registry, client: u8, name: &Key)
    ensures { queries.new.entries ≡ served client (asks.Stop name.now) queries.old.entries }
{
    let _ = queries.stop(client, name);
}

// Closes a query, if it is open.
fn close(queries: &mut Registry, client: u8, name: &Key)
    ensures { queries.new.entries ≡ served client (asks.Close name.now) queries.old.entries }
{
    let _ = queries.close(client, name);
}

/// Makes the open queries what they are to be. This takes no memory.
pub fn carry_out(queries: &mut Registry, after: QueriesAfter)
    requires { IsReadyFor queries.old after }
    ensures { queries.new.entries ≡ queries_after after queries.old.entries }
{
    match after {
        QueriesAfter::Same => {}
        QueriesAfter::Told(foreseen) => {
            queries.apply(foreseen);
        }
        QueriesAfter::Stopped { client, name } => stop(queries, client, &name),
        QueriesAfter::Closed { client, name } => close(queries, client, &name),
    }
}

/// Keeps a report that was heard, if one was.
pub fn keep(heard: &mut Heard, report: Option<Report>)
    ensures { heard.new ≡ heard_after report heard.old }
{
    if let Some(report) = report {
        heard.keep(report);
    }
}

/// The members that a change goes to, where one is given something now if any is.
pub fn aimed(id: Identity, to: Option<u8>, before: u8) -> u8
    requires { IsOneOfEight to }
    ensures { result ≡ to_after id to before }
{
    match to {
        None => before,
        Some(other) => with_recipient(id, other, before),
    }
}

/// The floor or the clock that is to be, or the one before.
pub fn moved(to: Option<u64>, before: u64) -> u64
    ensures { result ≡ unwrap_or to before }
{
    to.unwrap_or(before)
}

/// Whether an image was merged, now or before.
pub fn either(now: bool, before: bool) -> bool
    ensures { result ≡ now || before }
{
    now || before
}
