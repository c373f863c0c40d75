ghost use Rattle.std.specs.Prelude.{◌≡◌, ◌≤◌, ◌∷◌, ◌++◌, [], bytes_eq, IfOk};
ghost use Rattle.std.specs.Bool.{OnTrue};
ghost use Rattle.gr_script.specs.Halts.{Yields};
ghost use Rattle.gr_script.specs.Suiting.{IsClient};
ghost use Rattle.gr_script.specs.Items.{number_at, within, number_in, stated_client, dotted_numbers, key_at, value_at, is_own, text_at};
ghost use Rattle.gr_oql.specs.Questions.{question_of};
ghost use Rattle.gr_script.specs.Items.{query_from, own_query, query_at, region_at, number_item, item_at, items_at};
ghost use Rattle.gr_script.specs.Texts.{cut};

use crate::forms::FieldKind;
use crate::halt::Halt;
use crate::numeral::number_of;
use crate::reason::Reason;
use crate::region::is_region;
use crate::{layout, text};
use gr_oql::Query;
use gr_value::{ItemList, Key, Value};
use std::alloc::Global;

/// The greatest number of a client.
const MOST_CLIENTS: u128 = 64;

/// What a field of a line says.
#[derive(Drop)]
pub(crate) enum Item {
    /// No more than its word.
    Word,
    Number(u128),
    Member(u128),
    Client(u128),
    Ordinal(u128),
    Step { client: u128, seq: u128 },
    Key(Key),
    Value(Value),
    Query(Query),
}

/// What fields are compared with.
#[derive(Drop)]
pub(crate) struct Setting {
    pub(crate) region: Option<Key>,
    pub(crate) members: u128,
    pub(crate) clients: u128,
}

fn number_at(text: &[u8]) -> Result<u128, Halt>
    ensures { Yields (λ number. number) result (number_at text.now) }
{
    match number_of(text) {
        Some(number) => Ok(number),
        None => Err(Halt::Refused(Reason::Number)),
    }
}

fn within(least: u128, most: u128, number: u128) -> Result<u128, Halt>
    ensures { Yields (λ number. number) result (within least most number) }
{
    if number < least || most < number {
        Err(Halt::Refused(Reason::Range))
    } else {
        Ok(number)
    }
}

fn number_in(least: u128, most: u128, text: &[u8]) -> Result<u128, Halt>
    ensures { Yields (λ number. number) result (number_in least most text.now) }
{
    let number = number_at(text)?;
    Ok(within(least, most, number)?)
}

fn stated_client(setting: &Setting, number: u128) -> Result<u128, Halt>
    ensures { Yields (λ client. client) result (stated_client setting.now number) }
{
    let client = within(1, MOST_CLIENTS, number)?;
    if setting.clients < client {
        Err(Halt::Refused(Reason::Client))
    } else {
        Ok(client)
    }
}

/// Whether a line has stated the client.
pub(crate) fn is_stated(setting: &Setting, client: u8) -> bool
    ensures { OnTrue result (IsClient setting.now client) }
{
    let client = u128::from(client);
    1 <= client && client <= MOST_CLIENTS && client <= setting.clients
}

fn dotted_numbers(text: &[u8]) -> Result<(u128, u128), Halt>
    ensures { Yields (λ numbers. numbers) result (dotted_numbers (cut 0x2E text.now)) }
{
    match text::cut(b'.', text) {
        None => Err(Halt::Refused(Reason::Number)),
        Some((client, step)) => Ok((number_at(client)?, number_at(step)?)),
    }
}

fn key_at(alloc: Global, text: &[u8]) -> Result<Key, Halt>
    ensures { Yields (λ key. key) result (key_at text.now) }
{
    Ok(Key::read(alloc, text)?)
}

fn value_at(alloc: Global, text: &[u8]) -> Result<Value, Halt>
    ensures { Yields (λ value. value) result (value_at text.now) }
{
    Ok(Value::read(alloc, text)?)
}

// Whether this is the region's name.
fn is_own(setting: &Setting, region: &Key) -> bool
    ensures { result ≡ is_own setting.now region.now }
{
    match &setting.region {
        Some(own) => region.bytes() == own.bytes(),
        None => false,
    }
}

pub(crate) fn text_at(text: &[u8]) -> Result<&str, Halt>
    ensures { Yields (λ text. text.now) result (text_at text.now) }
{
    match str::from_utf8(text) {
        Ok(text) => Ok(text),
        Err(_) => Err(Halt::Refused(Reason::Utf8)),
    }
}

fn query_of(alloc: Global, text: &str) -> Result<Query, Halt>
    ensures { Yields (λ query. query) result (query_from (question_of text.now)) }
{
    match Query::parse(alloc, text) {
        Ok(query) => Ok(query),
        Err(fault) => Err(Halt::from(fault)),
    }
}

fn own_query(setting: &Setting, query: Query) -> Result<Query, Halt>
    ensures { Yields (λ query. query) result (own_query setting.now query) }
{
    if is_own(setting, query.region()) {
        Ok(query)
    } else {
        Err(Halt::Refused(Reason::Region))
    }
}

fn query_at(alloc: Global, setting: &Setting, text: &[u8]) -> Result<Query, Halt>
    ensures { Yields (λ query. query) result (query_at setting.now text.now) }
{
    let text = text_at(text)?;
    let query = query_of(alloc, text)?;
    Ok(own_query(setting, query)?)
}

// A region's name is a key, so that it can only lack memory.
fn region_at(alloc: Global, text: &[u8]) -> Result<Key, Halt>
    ensures { Yields (λ region. region) result (region_at text.now) }
{
    if !is_region(text) {
        return Err(Halt::Refused(Reason::Name));
    }
    match Key::read(alloc, text) {
        Ok(region) => Ok(region),
        Err(_) => Err(Halt::Memory),
    }
}

// What a field says that is a number.
fn number_item(setting: &Setting, kind: FieldKind, text: &[u8]) -> Result<Item, Halt>
    ensures { Yields (λ item. item) result (number_item setting.now kind text.now) }
{
    match kind {
        FieldKind::Number { least, most } => Ok(Item::Number(number_in(least, most, text)?)),
        FieldKind::Member => Ok(Item::Member(number_in(1, setting.members, text)?)),
        FieldKind::Client => Ok(Item::Client(stated_client(setting, number_at(text)?)?)),
        FieldKind::Ordinal => Ok(Item::Ordinal(number_at(text)?)),
        FieldKind::Step => {
            let (client, seq) = dotted_numbers(text)?;
            let client = stated_client(setting, client)?;
            Ok(Item::Step { client, seq })
        }
        _ => Ok(Item::Word),
    }
}

/// What a field of this kind says.
pub(crate) fn item_at(
    alloc: Global,
    setting: &Setting,
    kind: FieldKind,
    text: &[u8],
) -> Result<Item, Halt>
    ensures { Yields (λ item. item) result (item_at setting.now kind text.now) }
{
    match kind {
        FieldKind::Region => Ok(Item::Key(region_at(alloc, text)?)),
        FieldKind::Key => Ok(Item::Key(key_at(alloc, text)?)),
        FieldKind::Value => Ok(Item::Value(value_at(alloc, text)?)),
        FieldKind::Query => Ok(Item::Query(query_at(alloc, setting, text)?)),
        _ => Ok(number_item(setting, kind, text)?),
    }
}

/// What the fields say, from the left.
pub(crate) fn items_at(
    alloc: Global,
    setting: &Setting,
    kinds: &[FieldKind],
    text: &[u8],
) -> Result<ItemList<Item>, Halt>
    ensures { Yields (λ items. items) result (items_at setting.now kinds.now text.now) }
{
    let mut items = ItemList::new(alloc)?;
    let mut rest = text;
    for kind in kinds {
        let (piece, left) = layout::cut(*kind, rest);
        items.push(item_at(alloc, setting, *kind, piece)?)?;
        rest = left;
    }
    Ok(items)
}
