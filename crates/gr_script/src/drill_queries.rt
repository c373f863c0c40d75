ghost use Rattle.std.specs.Prelude.{◌≡◌, ◌≤◌, ◌+◌, ◌++◌, ◌∷◌, [], IfOk, OnOk};
ghost use Rattle.gr_oql.specs.Grammar.{Spells};
ghost use Rattle.gr_history.specs.declared.query_ask.QueryAsk.TheVariants.{Enrol, Fetch};
ghost use Rattle.gr_script.specs.declared.line.Act.TheVariants as act;
ghost use Rattle.gr_script.specs.declared.line.Line.TheVariants as line;
ghost use Rattle.gr_script.specs.Drill.{drill_region, drill_query, query_name, steps_made, asks_at};
ghost use Rattle.gr_script.specs.Rules.{IsWithin};

use crate::{Act, Line, LineList};
use gr_history::QueryAsk;
use gr_oql::Query;
use gr_value::{Copied, Key, Memory};
use std::alloc::Global;

/// The query of the drill. Its text is spelled right, so that it can only lack memory.
pub(crate) fn drill_query(alloc: Global) -> Result<Query, Memory>
    ensures spelled { IfOk result (Spells drill_query) }
    ensures region { IfOk result (λ query. query.asked.region ≡ drill_region) }
{
    match Query::parse(alloc, "SELECT * FROM /drill WHERE n >= 500") {
        Ok(query) => Ok(query),
        Err(_) => Err(Memory),
    }
}

// What each client calls its query.
fn query_name(alloc: Global) -> Result<Key, Memory>
    ensures { IfOk result (λ name. name ≡ query_name) }
{
    match Key::read(alloc, b"q") {
        Ok(name) => Ok(name),
        Err(_) => Err(Memory),
    }
}

fn push_ask(
    alloc: Global,
    client: u8,
    seq: u32,
    ask: &QueryAsk,
    lines: &mut LineList,
) -> Result<(), Memory>
    ensures { OnOk result (lines.new ≡ lines.old ++ line.Step client seq (act.Query ask.now) ∷ []) }
{
    let act = Act::Query(ask.copy(alloc)?);
    lines.push(Line::Step { client, seq, act })?;
    Ok(())
}

/// The lines by which four clients open the query.
pub(crate) fn push_opens(alloc: Global, query: Query, lines: &mut LineList) -> Result<(), Memory>
    ensures { OnOk result (lines.new ≡ lines.old ++ asks_at (λ client. 1) (Enrol query_name query)) }
{
    let name = query_name(alloc)?;
    let ask = QueryAsk::Enrol { name, query };
    push_ask(alloc, 1, 1, &ask, lines)?;
    push_ask(alloc, 2, 1, &ask, lines)?;
    push_ask(alloc, 3, 1, &ask, lines)?;
    push_ask(alloc, 4, 1, &ask, lines)?;
    Ok(())
}

// How many steps of the drill a client makes, of so many.
fn steps_made(client: u8, steps: u32) -> u32
    requires client { IsWithin 1 16 client }
    requires steps { steps ≤ 50000 }
    ensures { result ≡ steps_made client steps }
{
    (steps + 16 - u32::from(client)) / 16
}

/// The lines by which they fetch its events, behind so many steps of the drill.
pub(crate) fn push_fetches(alloc: Global, steps: u32, lines: &mut LineList) -> Result<(), Memory>
    requires { steps ≤ 50000 }
    ensures { OnOk result (lines.new ≡ lines.old ++ asks_at (λ client. steps_made client steps + 2) (Fetch query_name)) }
{
    let name = query_name(alloc)?;
    let ask = QueryAsk::Fetch { name };
    push_ask(alloc, 1, steps_made(1, steps) + 2, &ask, lines)?;
    push_ask(alloc, 2, steps_made(2, steps) + 2, &ask, lines)?;
    push_ask(alloc, 3, steps_made(3, steps) + 2, &ask, lines)?;
    push_ask(alloc, 4, steps_made(4, steps) + 2, &ask, lines)?;
    Ok(())
}
