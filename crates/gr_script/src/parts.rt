ghost use Rattle.std.specs.Prelude.{◌≡◌};
ghost use Rattle.gr_script.specs.Said.{no_parts, parts_with, parts_of};

use crate::items::Item;
use gr_oql::Query;
use gr_value::{ItemList, Key, Value};

/// What the fields of a line say that are no numbers.
#[derive(Drop)]
pub(crate) struct Parts {
    pub(crate) key: Option<Key>,
    pub(crate) value: Option<Value>,
    /// The value behind the first one.
    pub(crate) other: Option<Value>,
    pub(crate) query: Option<Query>,
}

// The parts of a line with one field more in front.
fn parts_with(item: Item, parts: Parts) -> Parts
    ensures { result ≡ parts_with item parts }
{
    match item {
        Item::Key(key) => Parts {
            key: Some(key),
            ..parts
        },
        Item::Value(value) => Parts {
            value: Some(value),
            other: parts.value,
            ..parts
        },
        Item::Query(query) => Parts {
            query: Some(query),
            ..parts
        },
        _ => parts,
    }
}

/// The parts of a line with these fields.
#[tactic(auto, using(crate::proofs::PartLemmas::onto_last, crate::proofs::PartLemmas::onto_none))]
pub(crate) fn parts_of(items: ItemList<Item>) -> Parts
    ensures { result ≡ parts_of items }
{
    let mut parts = Parts {
        key: None,
        value: None,
        other: None,
        query: None,
    };
    let mut left = items;
    while let Some(item) = left.pop() {
        parts = parts_with(item, parts);
    }
    parts
}
