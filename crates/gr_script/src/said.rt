ghost use Rattle.std.specs.Prelude.{◌≡◌, ◌+◌, List, true};
ghost use Rattle.gr_script.specs.declared.saying.Saying.{Saying as ASaying};
ghost use Rattle.gr_script.specs.Forms.{is_step as is_step_kind};
ghost use Rattle.gr_script.specs.Narrow.{IsNarrowStep, IsNarrow};
ghost use Rattle.gr_script.specs.Past.{number as number_in, steps as steps_in};
ghost use Rattle.gr_script.specs.Said.{query_with, act_said, step_said, other_said, line_of};

use crate::forms::{LineKind, is_step};
use crate::items::Item;
use crate::parts::{Parts, parts_of};
use crate::saying::{Saying, number};
use crate::{Act, Line};
use gr_history::QueryAsk;
use gr_oql::Query;
use gr_value::{ItemList, Key};

// What a client asks of a query of this name at a line of this kind.
fn query_said(kind: LineKind, name: Key, query: Option<Query>) -> Option<Act>
    ensures { result ≡ query_with kind name query }
{
    match kind {
        LineKind::Open => Some(Act::Query(QueryAsk::Enrol {
            name,
            query: query?,
        })),
        LineKind::Stop => Some(Act::Query(QueryAsk::Stop { name })),
        LineKind::Close => Some(Act::Query(QueryAsk::Close { name })),
        LineKind::Fetch => Some(Act::Query(QueryAsk::Fetch { name })),
        _ => None,
    }
}

// What a client does at a line of this kind.
fn act_said(kind: LineKind, parts: Parts) -> Option<Act>
    ensures { result ≡ act_said kind parts }
{
    let key = parts.key?;
    match kind {
        LineKind::Call(operation) => {
            Some(Act::Call(operation.ask(key, parts.value, parts.other)?))
        }
        LineKind::Peek => Some(Act::Peek(key)),
        _ => query_said(kind, key, parts.query),
    }
}

// The step of this number.
fn step_said(seq: u32, kind: LineKind, items: ItemList<Item>) -> Option<Line>
    requires { IsNarrowStep items }
    ensures { result ≡ step_said seq kind items }
{
    let client = number(0, items.as_slice()) as u8;
    let act = act_said(kind, parts_of(items))?;
    Some(Line::Step { client, seq, act })
}

// A line that is no step.
fn other_said(kind: LineKind, items: &[Item]) -> Option<Line>
    requires { IsNarrow kind items.now }
    ensures { result ≡ other_said kind items.now }
{
    match kind {
        LineKind::Deliver => Some(Line::Deliver {
            to: number(0, items) as u8,
            client: number(1, items) as u8,
            seq: number(2, items) as u32,
        }),
        LineKind::Report => Some(Line::Report {
            member: number(0, items) as u8,
        }),
        LineKind::Hear => Some(Line::Hear {
            by: number(0, items) as u8,
            of: number(1, items) as u8,
            number: number(2, items) as u32,
        }),
        LineKind::Sweep => Some(Line::Sweep {
            member: number(0, items) as u8,
            moment: number(1, items) as u64,
        }),
        LineKind::Join => Some(Line::Join {
            member: number(0, items) as u8,
            from: number(1, items) as u8,
        }),
        LineKind::Depart => Some(Line::Depart {
            member: number(0, items) as u8,
        }),
        LineKind::Leave => Some(Line::Leave {
            client: number(0, items) as u8,
            moment: number(1, items) as u32,
        }),
        LineKind::Back => Some(Line::Back {
            client: number(0, items) as u8,
            moment: number(1, items) as u32,
        }),
        _ => None,
    }
}

/// The line that is said. Where it is a step, it has this number among its client's.
pub(crate) fn line_of(seq: u32, saying: Saying) -> Option<Line>
    requires step { is_step_kind saying.kind ≡ true → IsNarrowStep saying.items }
    requires other { IsNarrow saying.kind saying.items }
    ensures { (past : List ASaying) → (is_step_kind saying.kind ≡ true → seq ≡ steps_in (number_in 0 saying.items) past + 1)
        → result ≡ line_of past saying }
{
    if is_step(saying.kind) {
        step_said(seq, saying.kind, saying.items)
    } else {
        other_said(saying.kind, saying.items.as_slice())
    }
}
