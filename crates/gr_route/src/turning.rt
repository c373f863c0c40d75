ghost use Rattle.std.specs.Prelude.{◌≡◌, [], ◌∷◌, ◌++◌, List, map, filter, reverse, IfOk, OnOk, option_copied};
ghost use Rattle.std.specs.List.{fold};
ghost use Rattle.gr_history.specs.declared.deed.Deed.{Deed};
ghost use Rattle.gr_history.specs.Standing.{drops};
ghost use Rattle.gr_history.specs.Turned.{is_other, value_of, turned_by, turned};
ghost use Rattle.gr_stamp.specs.Winner.{is_there};
ghost use Rattle.gr_route.specs.Turning.{could_drop, left_by, mentioned, moved_by, touched, turned_in, turned_each, turns_by, winners, with_keys, with_move};
ghost use Rattle.gr_route.specs.Turning.{IsBehind};
ghost use Rattle.gr_by_key.specs.Maps.{with_value};

use crate::coming::{came, note, winners};
use gr_by_key::ByKey;
use gr_history::Deed;
use gr_oql::Turned;
use gr_stamp::{Change, Kind};
use gr_value::{Copied, ItemList, Key, KeyList, Memory, Value};
use gr_vector::Vector;
use std::alloc::Global;
use std::collections::BTreeSet;

/// The keys that a deed turns, in order.
pub type TurnedList = ItemList<Turned>;

/// What stands at the keys, and the ids that are known.
#[derive(Drop)]
struct Standing {
    changes: ByKey<Change>,
    known: Vector,
}

/// What a deed brings: the keys that it names, and what wins at the keys of what comes in.
#[derive(Drop)]
struct Brought {
    named: BTreeSet<Key>,
    won: ByKey<Change>,
}

// Whether another change stands than before.
fn is_other(before: Option<&Change>, behind: Option<&Change>) -> bool
    ensures { result ≡ is_other (option_copied before.entry) (option_copied behind.entry) }
{
    match (before, behind) {
        (None, None) => false,
        (Some(old), Some(new)) => {
            let (one, two) = (&old.stamp, &new.stamp);
            one.ver() != two.ver() || one.member() != two.member() || one.rv() != two.rv()
        }
        _ => true,
    }
}

fn value_of(alloc: Global, stands: Option<&Change>) -> Result<Option<Value>, Memory>
    ensures { IfOk result (λ value. value ≡ value_of (option_copied stands.entry)) }
{
    match stands {
        Some(
            Change {
                kind: Kind::Put(value),
                ..
            },
        ) => Ok(Some(value.copy(alloc)?)),
        _ => Ok(None),
    }
}

fn is_there(stands: Option<&Change>) -> bool
    ensures { result ≡ is_there (option_copied stands.entry) }
{
    match stands {
        None => false,
        Some(change) => change.kind.keeps_key(),
    }
}

fn turned_by(
    alloc: Global,
    key: &Key,
    before: Option<&Change>,
    behind: Option<&Change>,
) -> Result<Turned, Memory>
    ensures { IfOk result (λ one. one ≡ turned_by key.now (option_copied before.entry) (option_copied behind.entry)) }
{
    Ok(Turned {
        key: key.copy(alloc)?,
        old: value_of(alloc, before)?,
        new: value_of(alloc, behind)?,
        had: is_there(before),
        has: is_there(behind),
    })
}

// The keys that a deed could drop.
fn could_drop(alloc: Global, standing: &ByKey<Change>, deed: &Deed) -> Result<KeyList, Memory>
    ensures { IfOk result (λ keys. keys ≡ could_drop deed.now standing.now) }
{
    match deed {
        Deed::Swept { expired, .. } => expired.copy(alloc),
        Deed::Imaged { .. } => standing.keys(alloc),
        _ => Ok(KeyList::new(alloc)?),
    }
}

// Puts keys into a set.
#[tactic(auto, using(crate::proofs::Adding::key_added))]
fn add_keys(alloc: Global, set: &mut BTreeSet<Key>, keys: &[Key]) -> Result<(), Memory>
    ensures { OnOk result (set.new.keys ≡ with_keys set.old.keys keys.now) }
{
    for key in keys {
        set.insert(key.copy(alloc)?)?;
    }
    Ok(())
}

// Puts the keys of changes into a set.
#[tactic(auto, using(crate::proofs::Adding::changed_added))]
fn add_changed(alloc: Global, set: &mut BTreeSet<Key>, changes: &[Change]) -> Result<(), Memory>
    ensures { OnOk result (set.new.keys ≡ with_keys set.old.keys (map (λ change. change.key) changes.now)) }
{
    for change in changes {
        set.insert(change.key.copy(alloc)?)?;
    }
    Ok(())
}

// The keys that a deed can turn, in order and each once.
fn touched(
    alloc: Global,
    standing: &ByKey<Change>,
    deed: &Deed,
    came: &[Change],
) -> Result<BTreeSet<Key>, Memory>
    ensures { IfOk result (λ set. set.keys ≡ touched deed.now standing.now came.now) }
{
    let mut set = BTreeSet::new(alloc);
    let dropped = could_drop(alloc, standing, deed)?;
    add_keys(alloc, &mut set, dropped.as_slice())?;
    add_changed(alloc, &mut set, came)?;
    Ok(set)
}

// The keys that a sweep or an image names.
fn named(alloc: Global, deed: &Deed) -> Result<BTreeSet<Key>, Memory>
    ensures { IfOk result (λ set. set.keys ≡ with_keys [] (mentioned deed.now)) }
{
    let mut set = BTreeSet::new(alloc);
    match deed {
        Deed::Swept { expired, .. } => add_keys(alloc, &mut set, expired.as_slice())?,
        Deed::Imaged { image } => add_changed(alloc, &mut set, image.rows.get().as_slice())?,
        _ => {}
    }
    Ok(set)
}

// Whether a deed drops a key at which this stands.
#[tactic(auto, using(crate::proofs::Naming::named_has, crate::proofs::Naming::row_named))]
fn drops(key: &Key, deed: &Deed, named: &BTreeSet<Key>, stands: Option<&Change>) -> bool
    requires { named.now.keys ≡ with_keys [] (mentioned deed.now) }
    ensures { result ≡ drops key.now deed.now (option_copied stands.entry) }
{
    match (deed, stands) {
        (Deed::Swept { .. }, _) => named.contains(key),
        (Deed::Imaged { image }, Some(change)) => {
            let stamp = &change.stamp;
            !named.contains(key) && image.vector.holds(stamp.member(), stamp.rv())
        }
        _ => false,
    }
}

// What stands at a key behind a deed, by what it brings and what stood before it.
fn left_by<'a>(
    key: &Key,
    deed: &Deed,
    brought: &'a Brought,
    before: Option<&'a Change>,
) -> Option<&'a Change>
    requires { brought.now.named.keys ≡ with_keys [] (mentioned deed.now) }
    ensures { option_copied result ≡ left_by deed.now brought.now.won key.now (option_copied before.entry) }
{
    if drops(key, deed, &brought.named, before) {
        None
    } else {
        brought.won.get(key).or(before)
    }
}

/// The keys that a deed turns, and what it leaves at each of them.
#[derive(Drop)]
struct Turns {
    turned: TurnedList,
    moves: Vec<(Key, Option<Change>)>,
}

fn copied(alloc: Global, stands: Option<&Change>) -> Result<Option<Change>, Memory>
    ensures { IfOk result (λ copy. copy ≡ option_copied stands.entry) }
{
    match stands {
        None => Ok(None),
        Some(change) => Ok(Some(change.copy(alloc)?)),
    }
}

// Adds a key, where the deed turns it.
fn add_turn(
    alloc: Global,
    standing: &ByKey<Change>,
    deed: &Deed,
    brought: &Brought,
    key: &Key,
    turns: &mut Turns,
) -> Result<(), Memory>
    requires { brought.now.named.keys ≡ with_keys [] (mentioned deed.now) }
    ensures turned { OnOk result (turns.new.turned ≡ turns.old.turned
        ++ map (turned_in deed.now brought.now.won standing.now) (filter (turns_by deed.now brought.now.won standing.now) (key.now ∷ []))) }
    ensures moves { OnOk result (turns.new.moves.items ≡ turns.old.moves.items
        ++ map (moved_by deed.now brought.now.won standing.now) (filter (turns_by deed.now brought.now.won standing.now) (key.now ∷ []))) }
{
    let before = standing.get(key);
    let behind = left_by(key, deed, brought, before);
    if is_other(before, behind) {
        turns.turned.push(turned_by(alloc, key, before, behind)?)?;
        turns
            .moves
            .push((key.copy(alloc)?, copied(alloc, behind)?))?;
    }
    Ok(())
}

#[tactic(auto, using(crate::proofs::Adding::kept_more))]
fn find_turns(
    alloc: Global,
    standing: &ByKey<Change>,
    deed: &Deed,
    brought: &Brought,
    keys: &BTreeSet<Key>,
) -> Result<Turns, Memory>
    requires { brought.now.named.keys ≡ with_keys [] (mentioned deed.now) }
    ensures turned { IfOk result (λ turns. turns.turned
        ≡ map (turned_in deed.now brought.now.won standing.now) (filter (turns_by deed.now brought.now.won standing.now) keys.now.keys)) }
    ensures moves { IfOk result (λ turns. turns.moves.items
        ≡ map (moved_by deed.now brought.now.won standing.now) (filter (turns_by deed.now brought.now.won standing.now) keys.now.keys)) }
{
    let mut turns = Turns {
        turned: TurnedList::new(alloc)?,
        moves: Vec::new(alloc),
    };
    for key in keys {
        add_turn(alloc, standing, deed, brought, key, &mut turns)?;
    }
    Ok(turns)
}

// The keys that a deed turns, where these changes come in.
fn turns_of(
    alloc: Global,
    standing: &ByKey<Change>,
    deed: &Deed,
    came: &[Change],
) -> Result<Turns, Memory>
    ensures turned { IfOk result (λ turns. turns.turned ≡ map (turned_in deed.now (winners standing.now came.now) standing.now)
        (filter (turns_by deed.now (winners standing.now came.now) standing.now) (touched deed.now standing.now came.now))) }
    ensures moves { IfOk result (λ turns. turns.moves.items ≡ map (moved_by deed.now (winners standing.now came.now) standing.now)
        (filter (turns_by deed.now (winners standing.now came.now) standing.now) (touched deed.now standing.now came.now))) }
{
    let brought = Brought {
        named: named(alloc, deed)?,
        won: winners(alloc, standing, came)?,
    };
    let keys = touched(alloc, standing, deed, came)?;
    find_turns(alloc, standing, deed, &brought, &keys)
}

// Makes this change, or none, stand at a key.
fn set(standing: &mut ByKey<Change>, key: Key, change: Option<Change>) -> Result<(), Memory>
    ensures { OnOk result (standing.new ≡ with_value key change standing.old) }
{
    match change {
        None => {
            let _old = standing.take(&key);
            Ok(())
        }
        Some(change) => Ok(standing.put(key, change)?),
    }
}

// Makes at each of these keys what is beside it stand.
fn set_each(standing: &mut ByKey<Change>, moves: Vec<(Key, Option<Change>)>) -> Result<(), Memory>
    ensures { OnOk result (standing.new ≡ fold with_move standing.old moves.items) }
{
    for item in moves {
        let (key, change) = item;
        set(standing, key, change)?;
    }
    Ok(())
}

// Does a deed to what stands, and tells the keys that it turns.
fn turn(alloc: Global, standing: &mut Standing, deed: &Deed) -> Result<TurnedList, Memory>
    ensures turned { IfOk result (λ all. (past : List Deed) → IsBehind past standing.old → all ≡ turned deed.now past) }
    ensures stands { OnOk result ((past : List Deed) → IsBehind past standing.old → IsBehind (deed.now ∷ past) standing.new) }
{
    let came = came(alloc, deed, &standing.known)?;
    let Turns { turned, moves } = turns_of(alloc, &standing.changes, deed, came.as_slice())?;
    set_each(&mut standing.changes, moves)?;
    note(&mut standing.known, deed)?;
    Ok(turned)
}

/// The keys that each deed turns, the oldest deed first.
#[tactic(auto, using(crate::proofs::Adding::newest))]
pub fn turned_each(alloc: Global, deeds: &[Deed]) -> Result<Vec<TurnedList>, Memory>
    ensures { IfOk result (λ lists. lists.items ≡ turned_each (reverse deeds.now)) }
{
    let mut standing = Standing {
        changes: ByKey::new(alloc),
        known: Vector::new(alloc)?,
    };
    let mut lists = Vec::new(alloc);
    for deed in deeds {
        lists.push(turn(alloc, &mut standing, deed)?)?;
    }
    Ok(lists)
}
