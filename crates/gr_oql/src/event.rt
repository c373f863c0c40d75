ghost use Rattle.std.specs.Prelude.{◌≡◌, IfOk};
ghost use Rattle.std.specs.Option.{option_copied};
ghost use Rattle.gr_oql.specs.Events.{is_match, query_op, classify, base_op, told};

use crate::{Query, Truth};
use gr_value::{Copied, ItemList, Key, Memory, Value};
use std::alloc::Global;

/// What a change is to a query.
#[derive(Clone, Copy, Debug, PartialEq, Eq)]
pub enum QueryOp {
    Create,
    Update,
    Destroy,
}

/// What a change is to the region.
#[derive(Clone, Copy, Debug, PartialEq, Eq)]
pub enum BaseOp {
    Create,
    Update,
    Destroy,
    Invalidate,
}

/// A key with its value before and behind a deed, where there is one, and whether the key was there
/// and is there, with a value or without.
#[derive(Drop)]
pub struct Turned {
    pub key: Key,
    pub old: Option<Value>,
    pub new: Option<Value>,
    pub had: bool,
    pub has: bool,
}

/// What a query tells of a change. The value is the new one, absent where there is none.
#[derive(Drop)]
pub struct Event {
    pub op: QueryOp,
    pub base: BaseOp,
    pub key: Key,
    pub value: Option<Value>,
}

pub type EventList = ItemList<Event>;

impl Event {
    /// What a query tells of a turned key, if anything.
    pub fn of(alloc: Global, query: &Query, turned: &Turned) -> Result<Option<Event>, Memory>
        ensures { IfOk result (λ event. event ≡ told query.now turned.now) }
    {
        let (old, new) = (turned.old.as_ref(), turned.new.as_ref());
        let Some(op) = classify(query, old, new) else {
            return Ok(None);
        };
        Ok(Some(Event {
            op,
            base: base_op(turned.had, turned.has, new),
            key: turned.key.copy(alloc)?,
            value: copied(alloc, new)?,
        }))
    }
}

impl Copied for Event {
    fn copy(&self, alloc: Global) -> Result<Event, Memory> {
        Ok(Event {
            op: self.op,
            base: self.base,
            key: self.key.copy(alloc)?,
            value: copied(alloc, self.value.as_ref())?,
        })
    }
}

pub(crate) fn copied(alloc: Global, value: Option<&Value>) -> Result<Option<Value>, Memory>
    ensures { IfOk result (λ copy. copy ≡ option_copied value.entry) }
{
    match value {
        None => Ok(None),
        Some(value) => Ok(Some(value.copy(alloc)?)),
    }
}

// What happened to the key, by whether it was there and is there, and its new value.
fn base_op(had: bool, has: bool, new: Option<&Value>) -> BaseOp
    ensures { result ≡ base_op had has (option_copied new.entry) }
{
    match (had, has, new) {
        (_, false, _) => BaseOp::Destroy,
        (_, true, None) => BaseOp::Invalidate,
        (true, true, Some(_)) => BaseOp::Update,
        (false, true, Some(_)) => BaseOp::Create,
    }
}

fn is_match(query: &Query, value: Option<&Value>) -> bool
    ensures { result ≡ is_match query.now (option_copied value.entry) }
{
    match value {
        None => false,
        Some(value) => query.matches(value) == Truth::Holds,
    }
}

/// What a change is to a query, by its old and new value.
pub fn classify(query: &Query, old: Option<&Value>, new: Option<&Value>) -> Option<QueryOp>
    ensures { result ≡ classify query.now (option_copied old.entry) (option_copied new.entry) }
{
    match (is_match(query, old), is_match(query, new)) {
        (false, true) => Some(QueryOp::Create),
        (true, true) => Some(QueryOp::Update),
        (true, false) => Some(QueryOp::Destroy),
        (false, false) => None,
    }
}
