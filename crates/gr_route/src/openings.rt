ghost use Rattle.std.specs.Prelude.{◌≡◌, ◌+◌, ◌<◌, ◌≤◌, ◌++◌, flat_map, List, IfOk, IfSome, OnOk, length, position};
ghost use Rattle.std.specs.List.{position_or_len};
ghost use Rattle.std.specs.Option.{option_to_list};
ghost use Rattle.gr_oql.specs.Events.{told_all};
ghost use Rattle.gr_history.specs.declared.deed.Deed.{Deed};
ghost use Rattle.gr_history.specs.declared.deed.Deed.TheVariants.{Asked};
ghost use Rattle.gr_history.specs.declared.query_reply.Row.{Row};
ghost use Rattle.gr_history.specs.declared.query_reply.QueryReply.TheVariants.{Opened};
ghost use Rattle.gr_history.specs.Queries.{name_of};
ghost use Rattle.gr_route.specs.Openings.{ends, opened_by, openings};
ghost use Rattle.gr_route.specs.Turning.{turned_each};

use crate::turning::{TurnedList, turned_each};
use gr_history::{Deed, History, QueryAsk, QueryReply};
use gr_oql::{Event, EventList, Query, Turned};
use gr_value::{Copied, ItemList, Key, Memory};
use std::alloc::Global;

/// An opening of a query: the client and its step, the query's name, and what the query was told until
/// it was stopped or closed.
#[derive(Drop)]
pub struct Opening {
    pub client: u8,
    pub seq: u32,
    pub name: Key,
    pub events: EventList,
}

pub type OpeningList = ItemList<Opening>;

// Adds what a query is told of turned keys.
fn tell(
    alloc: Global,
    query: &Query,
    turned: &[Turned],
    events: &mut EventList,
) -> Result<(), Memory>
    ensures { OnOk result (events.new ≡ events.old ++ told_all query.now turned.now) }
{
    for one in turned {
        if let Some(event) = Event::of(alloc, query, one)? {
            events.push(event)?;
        }
    }
    Ok(())
}

// What a query is told of the keys that several deeds turn.
#[tactic(auto, using(crate::proofs::Adding::told_more))]
fn told_of(alloc: Global, query: &Query, lists: &[TurnedList]) -> Result<EventList, Memory>
    ensures { IfOk result (λ events. events ≡ flat_map (told_all query.now) lists.now) }
{
    let mut events = EventList::new(alloc)?;
    for turned in lists {
        tell(alloc, query, turned.as_slice(), &mut events)?;
    }
    Ok(events)
}

// Whether a deed stops or closes the query of that client and name.
fn ends(client: u8, name: &Key, deed: &Deed) -> bool
    ensures { result ≡ ends client name.now deed.now }
{
    match deed {
        Deed::Asked {
            client: own,
            ask,
            reply: QueryReply::Stopped | QueryReply::Closed,
            ..
        } => *own == client && name_of(ask) == name,
        _ => false,
    }
}

fn name_of(ask: &QueryAsk) -> &Key
    ensures { result.now ≡ name_of ask.now }
{
    match ask {
        QueryAsk::Enrol { name, .. } => name,
        QueryAsk::Stop { name } => name,
        QueryAsk::Close { name } => name,
        QueryAsk::Fetch { name } => name,
    }
}

// Where the first of the deeds stands that stops or closes the query.
fn end_at(client: u8, name: &Key, deeds: &[Deed]) -> Option<usize>
    ensures place { result ≡ position (ends client name.now) deeds.now }
    ensures within { IfSome result (λ place. place < length deeds.now) }
{
    deeds.iter().position(|deed| ends(client, name, deed))
}

// How many of the deeds stand before it.
fn before_end(client: u8, name: &Key, deeds: &[Deed]) -> usize
    ensures count { result ≡ position_or_len (ends client name.now) deeds.now }
    ensures within { result ≤ length deeds.now }
{
    match end_at(client, name, deeds) {
        Some(place) => place,
        None => deeds.len(),
    }
}

// What a step opens that is answered with rows, by the keys that each deed turns.
fn opened_at(
    alloc: Global,
    lists: &[TurnedList],
    place: usize,
    client: u8,
    seq: u32,
    ask: &QueryAsk,
    behind: &[Deed],
) -> Result<Option<Opening>, Memory>
    requires { place + 1 + length behind.now ≤ length lists.now }
    ensures { IfOk result (λ opening. (history : List Deed) (rows : List Row) → lists.now ≡ turned_each history
        → option_to_list opening ≡ opened_by history place (Asked client seq ask.now (Opened rows)) behind.now) }
{
    let QueryAsk::Enrol { name, query } = ask else {
        return Ok(None);
    };
    let from = place + 1;
    let count = before_end(client, name, behind);
    Ok(Some(Opening {
        client,
        seq,
        name: name.copy(alloc)?,
        events: told_of(alloc, query, &lists[from..from + count])?,
    }))
}

// What a deed opens, if anything, where these come behind it.
fn opened_by(
    alloc: Global,
    lists: &[TurnedList],
    place: usize,
    deed: &Deed,
    behind: &[Deed],
) -> Result<Option<Opening>, Memory>
    requires { place + 1 + length behind.now ≤ length lists.now }
    ensures { IfOk result (λ opening. (history : List Deed) → lists.now ≡ turned_each history
        → option_to_list opening ≡ opened_by history place deed.now behind.now) }
{
    match deed {
        Deed::Asked {
            client,
            seq,
            ask,
            reply: QueryReply::Opened(_),
        } => opened_at(alloc, lists, place, *client, *seq, ask, behind),
        _ => Ok(None),
    }
}

fn add(all: &mut OpeningList, opening: Option<Opening>) -> Result<(), Memory>
    ensures { OnOk result (all.new ≡ all.old ++ option_to_list opening) }
{
    match opening {
        None => Ok(()),
        Some(opening) => all.push(opening),
    }
}

/// What each query is told that the history opens, in the order of its openings. A query that is opened
/// again is an opening of its own.
#[tactic(auto, using(crate::proofs::Adding::open_more, crate::proofs::Adding::open_none))]
pub fn events(alloc: Global, history: &History) -> Result<OpeningList, Memory>
    ensures { IfOk result (λ all. all ≡ openings history.now.deeds) }
{
    let all_deeds = history.deeds(alloc)?;
    let deeds = all_deeds.as_slice();
    let lists = turned_each(alloc, deeds)?;
    let mut all = OpeningList::new(alloc)?;
    for place in 0..deeds.len() {
        let behind = &deeds[place + 1..];
        let opening = opened_by(alloc, &lists, place, &deeds[place], behind)?;
        add(&mut all, opening)?;
    }
    Ok(all)
}
