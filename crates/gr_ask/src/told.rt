ghost use Rattle.std.specs.Prelude.{◌≡◌, ◌+◌, ◌<◌, ◌≤◌, ◌^◌, ℕ, IfOk, OnOk, length};
ghost use Rattle.gr_ask.specs.Told.{events_at, events_among, events_of, events_or, events_told};

use gr_oql::Event;
use gr_route::{Opening, OpeningList};
use gr_value::Memory;
use std::alloc::Global;
use std::collections::BTreeMap;

// Puts the events of an opening under its step, where the client opened it.
fn put_step<'a>(
    told: &mut BTreeMap<u32, &'a [Event]>,
    opening: &'a Opening,
    client: u8,
) -> Result<(), Memory>
    ensures { OnOk result ((seq : ℕ) → events_at seq told.new.entries ≡ events_or client seq opening.now (events_at seq told.old.entries)) }
{
    if opening.client == client {
        told.insert(opening.seq, opening.events.as_slice())?;
    }
    Ok(())
}

// What the queries were told at one shard that a client opened, by the steps that opened them. Of two
// openings by one step the first stands.
fn told_at(
    alloc: Global,
    openings: &[Opening],
    client: u8,
) -> Result<BTreeMap<u32, &[Event]>, Memory>
    ensures { IfOk result (λ told. (seq : ℕ) → events_at seq told.entries ≡ events_of client seq openings.now) }
{
    let mut told = BTreeMap::new(alloc);
    for place in (0..openings.len()).rev() {
        put_step(&mut told, &openings[place], client)?;
    }
    Ok(told)
}

/// The same at each shard.
pub(crate) fn told_by_shard(
    alloc: Global,
    shards: &[OpeningList],
    client: u8,
) -> Result<Vec<BTreeMap<u32, &[Event]>>, Memory>
    ensures { IfOk result (λ all. (seq : ℕ) → events_among seq all.items ≡ events_told client seq shards.now) }
{
    let mut all = Vec::with_capacity(alloc, shards.len())?;
    for openings in shards {
        all.push(told_at(alloc, openings.as_slice(), client)?)?;
    }
    Ok(all)
}

/// What the query was told at one shard that this step opened.
pub(crate) fn events_at<'a>(told: &BTreeMap<u32, &'a [Event]>, seq: u32) -> &'a [Event]
    ensures { result.now ≡ events_at seq told.now.entries }
{
    match told.get(&seq) {
        Some(events) => *events,
        None => &[],
    }
}

fn sum(total: u128, more: usize) -> u128
    requires { total < 2 ^ 127 }
    ensures sum { result ≡ total + more }
    ensures most { result ≤ total + 2 ^ 64 }
{
    total + more as u128
}

/// How many events it was told at all shards.
pub(crate) fn number_told(shards: &[BTreeMap<u32, &[Event]>], seq: u32) -> u128
    ensures { result ≡ length (events_among seq shards.now) }
{
    let mut total = 0;
    for told in shards {
        total = sum(total, events_at(told, seq).len());
    }
    total
}
