ghost use Rattle.std.specs.Prelude.{◌≡◌, IfOk, OnOk, map, reverse};
ghost use Rattle.std.specs.FinMap as finite;
ghost use Rattle.gr_history.specs.Queries.{name_of};
ghost use Rattle.gr_durable.specs.Tables.{held_after, held_by, put_table, with_deed, with_reply};

use crate::playing::{Rows, after_reply};
use gr_by_key::ByKey;
use gr_history::{Deed, Entry, QueryAsk, QueryReply, ShardRecord};
use gr_value::{Copied, ItemList, Key, Memory};
use std::alloc::Global;

/// A client's tables by the names of its queries, as far as one shard is concerned.
pub type Held = ByKey<Rows>;

pub type HeldList = ItemList<Held>;

fn name_of(ask: &QueryAsk) -> &Key
    ensures { result.now ≡ name_of ask.now }
{
    match ask {
        QueryAsk::Enrol { name, .. } => name,
        QueryAsk::Stop { name } => name,
        QueryAsk::Close { name } => name,
        QueryAsk::Fetch { name } => name,
    }
}

// A reply comes for the query of this name.
fn take_reply(alloc: Global, held: &mut Held, name: &Key, reply: &QueryReply) -> Result<(), Memory>
    ensures { OnOk result (held.new ≡ put_table name.now (with_reply reply.now (finite.get held.old name.now)) held.old) }
{
    let before = held.take(name);
    let rows = after_reply(alloc, before, reply)?;
    if let Some(rows) = rows {
        held.put(name.copy(alloc)?, rows)?;
    }
    Ok(())
}

// Takes a deed in, which is made by value only where it is a step of the client.
#[tactic(auto, using(crate::proofs::Others::no_step))]
fn take_deed(alloc: Global, held: &mut Held, client: u8, deed: &Entry) -> Result<(), Memory>
    ensures { OnOk result (held.new ≡ with_deed client deed.now held.old) }
{
    if !deed.is_of(client) {
        return Ok(());
    }
    if let Deed::Asked {
        client: own,
        ask,
        reply,
        ..
    } = &deed.deed(alloc)?
    {
        if *own == client {
            take_reply(alloc, held, name_of(ask), reply)?;
        }
    }
    Ok(())
}

// What a client holds by the deeds of one shard.
fn held_after(alloc: Global, client: u8, deeds: &[Entry]) -> Result<Held, Memory>
    ensures { IfOk result (λ held. held ≡ held_after client (reverse deeds.now)) }
{
    let mut held = Held::new(alloc);
    for deed in deeds {
        take_deed(alloc, &mut held, client, deed)?;
    }
    Ok(held)
}

/// What a client holds by each of these shards.
pub fn held_by_all(alloc: Global, client: u8, shards: &[ShardRecord]) -> Result<HeldList, Memory>
    ensures { IfOk result (λ all. all ≡ map (held_by client) shards.now) }
{
    let mut all = HeldList::new(alloc)?;
    for shard in shards {
        all.push(held_after(alloc, client, shard.history.as_slice())?)?;
    }
    Ok(all)
}
