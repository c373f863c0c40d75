ghost use Rattle.std.specs.Prelude.{◌≡◌, ◌+◌, ◌++◌, ◌∷◌, [], ◌<◌, ◌≤◌, ◌^◌, List, IfOk, if◌then◌else◌};
ghost use Rattle.gr_script.specs.declared.forms.LineKind.TheVariants as kind;
ghost use Rattle.gr_script.specs.Forms.{is_kind};
ghost use Rattle.gr_script.specs.declared.saying.Saying.{Saying as ASaying};
ghost use Rattle.gr_script.specs.Past.{count_of, heard_on, homes as homes_of, next_rank, number, key_in, is_query, setting, sizes};

use crate::forms::{LineKind, is_kind, rank};
use crate::items::{Item, Setting};
use crate::past::Sizes;
use crate::saying::{Saying, number};
use gr_value::{Copied, ItemList, Key, Memory};
use std::alloc::Global;

/// The least rank of a line that may follow one of this kind.
pub(crate) fn next_rank(kind: LineKind) -> u8
    ensures { result ≡ next_rank kind }
{
    let rank = rank(kind);
    if rank < 7 { rank + 1 } else { rank }
}

/// The number that a line of this kind states, or what was stated before.
pub(crate) fn stated_with(kind: LineKind, place: usize, line: &Saying, before: u128) -> u128
    ensures { result ≡ (if is_kind kind line.now.kind then number place line.now.items else before) }
{
    if is_kind(kind, line.kind) {
        number(place, line.items.as_slice())
    } else {
        before
    }
}

fn key_in(alloc: Global, items: &[Item]) -> Result<Option<Key>, Memory>
    ensures { IfOk result (λ key. key ≡ key_in items.now) }
{
    for item in items {
        if let Item::Key(key) = item {
            return Ok(Some(key.copy(alloc)?));
        }
    }
    Ok(None)
}

/// The region that a line states, or what was stated before.
pub(crate) fn region_with(
    alloc: Global,
    line: &Saying,
    before: Option<Key>,
) -> Result<Option<Key>, Memory>
    ensures { IfOk result (λ region. region ≡ (if is_kind kind.Region line.now.kind then key_in line.now.items else before)) }
{
    if is_kind(LineKind::Region, line.kind) {
        Ok(key_in(alloc, line.items.as_slice())?)
    } else {
        Ok(before)
    }
}

/// The homes with that of a client that a line states.
pub(crate) fn homes_with(line: &Saying, homes: ItemList<u128>) -> Result<ItemList<u128>, Memory>
    ensures { IfOk result (λ all. all ≡ (if is_kind kind.Client line.now.kind then homes ++ number 1 line.now.items ∷ [] else homes)) }
{
    if !is_kind(LineKind::Client, line.kind) {
        return Ok(homes);
    }
    let mut homes = homes;
    homes.push(number(1, line.items.as_slice()))?;
    Ok(homes)
}

/// Whether the line is one of a query.
pub(crate) fn is_query(kind: LineKind) -> bool
    ensures { result ≡ is_query kind }
{
    is_kind(LineKind::Open, kind)
        || is_kind(LineKind::Stop, kind)
        || is_kind(LineKind::Close, kind)
        || is_kind(LineKind::Fetch, kind)
}

/// How many reports are heard on a line of this kind, behind lines on which so many members departed.
pub(crate) fn heard_on(form: LineKind, departs: u32) -> u64
    ensures exact { (past : List ASaying) → departs ≡ count_of kind.Depart past → result ≡ heard_on past form }
    ensures within { result ≤ departs + 1 }
{
    if is_kind(LineKind::Hear, form) {
        1
    } else if is_kind(LineKind::Sweep, form) {
        u64::from(departs)
    } else {
        0
    }
}

/// One more, where the test holds.
pub(crate) fn counted(test: bool, count: u32) -> u32
    requires { count + 1 < 2 ^ 32 }
    ensures { result ≡ (if test then 1 else 0) + count }
{
    if test { count + 1 } else { count }
}

/// What fields are compared with, where a line of the heading follows, and these are the clients then.
pub(crate) fn setting_with(
    alloc: Global,
    line: &Saying,
    before: Setting,
    homes: &ItemList<u128>,
) -> Result<Setting, Memory>
    ensures { IfOk result
        (λ set. (past : List ASaying) → before ≡ setting past → homes.now ≡ homes_of (line.now ∷ past) → set ≡ setting (line.now ∷ past)) }
{
    let members = stated_with(LineKind::Members, 0, line, before.members);
    Ok(Setting {
        region: region_with(alloc, line, before.region)?,
        members,
        clients: homes.len() as u128,
    })
}

/// The numbers of the heading that no line is compared with, where a line follows.
pub(crate) fn sizes_with(line: &Saying, before: Sizes) -> Sizes
    ensures { (past : List ASaying) → before ≡ sizes past → result ≡ sizes (line.now ∷ past) }
{
    Sizes {
        shards: stated_with(LineKind::Shards, 0, line, before.shards),
        inbox: stated_with(LineKind::Inbox, 0, line, before.inbox),
        trouble: stated_with(LineKind::Trouble, 0, line, before.trouble),
        floor: stated_with(LineKind::Floor, 0, line, before.floor),
    }
}
