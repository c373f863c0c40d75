ghost use Rattle.std.specs.Prelude.{◌≡◌, ◌++◌, IfOk, OnOk, flat_map};
ghost use Rattle.gr_report.specs.Queries.{event_text};
ghost use Rattle.gr_ask.specs.Told.{client_text, events_among, head_text, openings_at, openings_text, text_if_at, text_if_found};
ghost use Rattle.gr_ask.specs.Told.{told_text};

use crate::told::{events_at, number_told, told_by_shard};
use gr_history::{ClientRecord, ShardRecord};
use gr_oql::Event;
use gr_report::{put_all, put_number, put_text};
use gr_route::{Opening, OpeningList, events};
use gr_value::Memory;
use std::alloc::Global;
use std::collections::BTreeMap;

// The openings at each shard.
fn openings_at(alloc: Global, shards: &[ShardRecord]) -> Result<Vec<OpeningList>, Memory>
    ensures { IfOk result (λ all. all.items ≡ openings_at shards.now) }
{
    let mut all = Vec::with_capacity(alloc, shards.len())?;
    for shard in shards {
        all.push(events(alloc, &shard.history)?)?;
    }
    Ok(all)
}

// Puts what a query was told at all shards last.
fn put_told(
    alloc: Global,
    out: &mut Vec<u8>,
    shards: &[BTreeMap<u32, &[Event]>],
    seq: u32,
) -> Result<(), Memory>
    ensures { OnOk result (out.new.items ≡ out.old.items ++ flat_map event_text (events_among seq shards.now)) }
{
    for told in shards {
        put_all(alloc, out, events_at(told, seq))?;
    }
    Ok(())
}

// Puts the step and the name of an opening last, and how many events there are.
fn put_head(out: &mut Vec<u8>, opening: &Opening, number: u128) -> Result<(), Memory>
    ensures { OnOk result (out.new.items ≡ out.old.items ++ head_text opening.now number) }
{
    put_text(out, "query ")?;
    put_number(out, u128::from(opening.client))?;
    put_text(out, ".")?;
    put_number(out, u128::from(opening.seq))?;
    put_text(out, " ")?;
    out.extend_from_slice(opening.name.bytes())?;
    put_text(out, " events ")?;
    put_number(out, number)
}

fn put_opening(
    alloc: Global,
    out: &mut Vec<u8>,
    shards: &[BTreeMap<u32, &[Event]>],
    opening: &Opening,
) -> Result<(), Memory>
    ensures { OnOk result (out.new.items ≡ out.old.items ++ told_text opening.now (events_among opening.now.seq shards.now)) }
{
    put_head(out, opening, number_told(shards, opening.seq))?;
    put_told(alloc, out, shards, opening.seq)?;
    put_text(out, "\n")
}

// Puts an opening last where it is a client's, by what its queries were told at each shard.
fn put_own(
    alloc: Global,
    out: &mut Vec<u8>,
    shards: &[BTreeMap<u32, &[Event]>],
    client: u8,
    opening: &Opening,
) -> Result<(), Memory>
    ensures { OnOk result (out.new.items ≡ out.old.items ++ text_if_found client shards.now opening.now) }
{
    if opening.client != client {
        return Ok(());
    }
    put_opening(alloc, out, shards, opening)
}

fn put_all_own(
    alloc: Global,
    out: &mut Vec<u8>,
    shards: &[BTreeMap<u32, &[Event]>],
    client: u8,
    openings: &[Opening],
) -> Result<(), Memory>
    ensures { OnOk result (out.new.items ≡ out.old.items ++ flat_map (text_if_found client shards.now) openings.now) }
{
    for opening in openings {
        put_own(alloc, out, shards, client, opening)?;
    }
    Ok(())
}

// Puts the openings of a client last. Each shard has the same, in their order.
#[tactic(auto, using(crate::proofs::Finding::same_texts))]
fn put_client(
    alloc: Global,
    out: &mut Vec<u8>,
    shards: &[OpeningList],
    client: u8,
) -> Result<(), Memory>
    ensures { OnOk result (out.new.items ≡ out.old.items ++ client_text shards.now client) }
{
    let [first, ..] = shards else {
        return Ok(());
    };
    let told = told_by_shard(alloc, shards, client)?;
    put_all_own(alloc, out, &told, client, first.as_slice())
}

fn put_clients(
    alloc: Global,
    out: &mut Vec<u8>,
    shards: &[OpeningList],
    member: u8,
    clients: &[ClientRecord],
) -> Result<(), Memory>
    ensures { OnOk result (out.new.items ≡ out.old.items ++ flat_map (text_if_at member shards.now) clients.now) }
{
    for client in clients {
        if client.member == member {
            put_client(alloc, out, shards, client.client)?;
        }
    }
    Ok(())
}

/// The text of what all queries were told that were opened at a member.
pub(crate) fn openings_text(
    alloc: Global,
    member: u8,
    shards: &[ShardRecord],
    clients: &[ClientRecord],
) -> Result<Vec<u8>, Memory>
    ensures { IfOk result (λ text. text.items ≡ openings_text member (openings_at shards.now) clients.now) }
{
    let shards = openings_at(alloc, shards)?;
    let mut out = Vec::new(alloc);
    put_clients(alloc, &mut out, &shards, member, clients)?;
    put_text(&mut out, "end\n")?;
    Ok(out)
}
