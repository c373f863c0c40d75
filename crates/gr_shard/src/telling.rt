ghost use Rattle.std.specs.Prelude.{◌≡◌, ◌≤◌, ◌+◌, [], ◌∷◌, Some, IfOk, OnOk, OnErr, option_copied};
ghost use Rattle.gr_cq.specs.Entries.{noted};
ghost use Rattle.gr_vector.specs.Order.{united};
ghost use Rattle.gr_shard.specs.Effects.{IsMadeAt, needs, queries_after};
ghost use Rattle.gr_shard.specs.Entries.{with_change};
ghost use Rattle.gr_stamp.specs.Winner.{put_value};
ghost use Rattle.gr_shard.specs.Telling.{IsForeseen, IsReady, is_other_slot, slot_value, told_of, turned_between, turned_by_change, turned_slot, with_keys};

use crate::Publisher;
use crate::effect::QueriesAfter;
use crate::entering::{enter, is_there, slot_from, value_of};
use gr_cq::{Coming, Foreseen, Registry, Turned};
use gr_slots::{Slot, Slots};
use gr_stamp::{Change, Kind};
use gr_value::{Copied, Key, Memory, Value};
use gr_vector::Vector;
use std::alloc::Global;
use std::collections::BTreeSet;

// The value of what stands, where a put does.
fn slot_value(alloc: Global, slot: Option<&Slot>) -> Result<Option<Value>, Memory>
    ensures { IfOk result (λ value. value ≡ slot_value (option_copied slot.entry)) }
{
    match value_of(slot) {
        None => Ok(None),
        Some(value) => Ok(Some(value.copy(alloc)?)),
    }
}

// The value that is put, if one is.
fn put_value(alloc: Global, kind: &Kind) -> Result<Option<Value>, Memory>
    ensures { IfOk result (λ value. value ≡ put_value kind.now) }
{
    match kind {
        Kind::Put(value) => Ok(Some(value.copy(alloc)?)),
        Kind::Invalid | Kind::Remove => Ok(None),
    }
}

// The key of a change that comes in, with its values before and behind.
fn turned_one(alloc: Global, slots: &Slots, change: &Change) -> Result<Turned, Memory>
    ensures { IfOk result (λ turned. turned ∷ [] ≡ turned_by_change slots.now.entries (Some change.now)) }
{
    let held = slots.find(&change.key);
    Ok(Turned {
        key: change.key.copy(alloc)?,
        old: slot_value(alloc, held)?,
        new: put_value(alloc, &change.kind)?,
        had: is_there(held),
        has: change.kind.keeps_key(),
    })
}

/// The key that a change turns that comes in, if any does, with its values before and behind.
pub fn turned_by(alloc: Global, slots: &Slots, came: Option<&Change>) -> Result<Vec<Turned>, Memory>
    ensures { IfOk result (λ turned. turned.items ≡ turned_by_change slots.now.entries (option_copied came.entry)) }
{
    let mut turned = Vec::new(alloc);
    if let Some(change) = came {
        turned.push(turned_one(alloc, slots, change)?)?;
    }
    Ok(turned)
}

// What the open queries are to be told of these keys, if any is open.
fn foresee(
    alloc: Global,
    queries: &mut Registry,
    turned: &[Turned],
) -> Result<Option<Foreseen>, Memory>
    ensures entries { queries.new.entries ≡ queries.old.entries }
    ensures foreseen { IfOk result (IsForeseen turned.now queries.new) }
{
    if queries.is_empty() {
        return Ok(None);
    }
    match queries.foresee(alloc, &Coming::Note { turned }) {
        Ok(foreseen) => Ok(Some(foreseen)),
        Err(_) => Err(Memory),
    }
}

/// Makes ready what the open queries are to be told of these keys, if anything.
#[tactic(auto, using(crate::proofs::Turning::none_noted))]
pub fn foretell_turned(
    alloc: Global,
    queries: &mut Registry,
    turned: &[Turned],
) -> Result<QueriesAfter, Memory>
    ensures entries { queries.new.entries ≡ queries.old.entries }
    ensures grows { queries.old.spare ≤ queries.new.spare }
    ensures after { IfOk result (λ after. queries_after after queries.old.entries ≡ noted turned.now queries.old.entries) }
    ensures made { IfOk result (λ after. IsMadeAt queries.old.entries after) }
    ensures room { IfOk result (λ after. needs after ≤ 1 + queries.new.spare) }
{
    if queries.is_empty() {
        return Ok(QueriesAfter::Same);
    }
    if turned.is_empty() {
        return Ok(QueriesAfter::Same);
    }
    match queries.foresee(alloc, &Coming::Note { turned }) {
        Ok(foreseen) => Ok(QueriesAfter::Told(foreseen)),
        Err(_) => Err(Memory),
    }
}

// What the open queries are to be told of a change that comes in, over what stands at its key.
fn foresee_change(
    alloc: Global,
    queries: &mut Registry,
    slots: &Slots,
    came: Option<&Change>,
) -> Result<Option<Foreseen>, Memory>
    ensures entries { queries.new.entries ≡ queries.old.entries }
    ensures foreseen { IfOk result (IsForeseen (turned_by_change slots.now.entries (option_copied came.entry)) queries.new) }
{
    let Some(change) = came else {
        return Ok(None);
    };
    let turned = [turned_one(alloc, slots, change)?];
    foresee(alloc, queries, &turned)
}

// What the open queries are to be told where these slots come in the place of those before.
fn foresee_slots(
    alloc: Global,
    queries: &mut Registry,
    old: &Slots,
    new: &Slots,
) -> Result<Option<Foreseen>, Memory>
    ensures entries { queries.new.entries ≡ queries.old.entries }
    ensures foreseen { IfOk result (IsForeseen (turned_between old.now.entries new.now.entries) queries.new) }
{
    if queries.is_empty() {
        return Ok(None);
    }
    let turned = turned_between(alloc, old, new)?;
    foresee(alloc, queries, turned.as_slice())
}

// Tells the open queries what was foreseen. This takes no memory.
fn tell(queries: &mut Registry, foreseen: Option<Foreseen>)
    requires { IsReady queries.old foreseen }
    ensures { queries.new.entries ≡ told_of foreseen queries.old.entries }
{
    if let Some(foreseen) = foreseen {
        queries.apply(foreseen);
    }
}

// Sets what came in at this clock, if anything did, and tells the open queries.
#[inline(never)]
fn come_in_told(
    alloc: Global,
    slots: &mut Slots,
    queries: &mut Registry,
    clock: u64,
    came: Option<&Change>,
) -> Result<(), Memory>
    ensures slots { OnOk result (slots.new.entries ≡ with_change (option_copied came.entry) clock slots.old.entries) }
    ensures told { OnOk result (queries.new.entries ≡ noted (turned_by_change slots.old.entries (option_copied came.entry)) queries.old.entries) }
    ensures slots_err { OnErr result (slots.new.entries ≡ slots.old.entries) }
    ensures told_err { OnErr result (queries.new.entries ≡ queries.old.entries) }
{
    let foreseen = foresee_change(alloc, queries, slots, came)?;
    enter(alloc, slots, clock, came)?;
    tell(queries, foreseen);
    Ok(())
}

/// The same, for which nothing is made ready where no query is open.
#[inline(always)]
pub fn come_in(
    alloc: Global,
    slots: &mut Slots,
    queries: &mut Registry,
    clock: u64,
    came: Option<&Change>,
) -> Result<(), Memory>
    ensures slots { OnOk result (slots.new.entries ≡ with_change (option_copied came.entry) clock slots.old.entries) }
    ensures told { OnOk result (queries.new.entries ≡ noted (turned_by_change slots.old.entries (option_copied came.entry)) queries.old.entries) }
    ensures slots_err { OnErr result (slots.new.entries ≡ slots.old.entries) }
    ensures told_err { OnErr result (queries.new.entries ≡ queries.old.entries) }
{
    if queries.is_empty() {
        enter(alloc, slots, clock, came)
    } else {
        come_in_told(alloc, slots, queries, clock, came)
    }
}

/// The same, once the key that is turned was published.
pub fn come_in_published<P: Publisher>(
    alloc: Global,
    slots: &mut Slots,
    queries: &mut Registry,
    clock: u64,
    came: Option<&Change>,
    published: &mut P::Published,
    by: &P::By,
) -> Result<(), Memory>
    requires { P.ready published.old by.now }
    ensures slots { OnOk result (slots.new.entries ≡ with_change (option_copied came.entry) clock slots.old.entries) }
    ensures told { OnOk result (queries.new.entries ≡ noted (turned_by_change slots.old.entries (option_copied came.entry)) queries.old.entries) }
    ensures turned { OnOk result (P.note published.new
        ≡ P.adds (P.note published.old) (turned_by_change slots.old.entries (option_copied came.entry))) }
    ensures slots_err { OnErr result (slots.new.entries ≡ slots.old.entries) }
    ensures told_err { OnErr result (queries.new.entries ≡ queries.old.entries) }
    ensures unpublished { OnErr result (P.note published.new ≡ P.note published.old) }
{
    let Some(change) = came else {
        return P::publish(published, by, &[]);
    };
    slots.reserve(clock)?;
    let key = change.key.copy(alloc)?;
    let slot = slot_from(alloc, change, clock)?;
    let turned = [turned_one(alloc, slots, change)?];
    let foreseen = foresee(alloc, queries, &turned)?;
    P::publish(published, by, &turned)?;
    slots.set_reserved(key, slot);
    tell(queries, foreseen);
    Ok(())
}

/// Takes over slots in the place of those before and further ids, and tells the open queries.
pub fn take_over(
    alloc: Global,
    slots: &mut Slots,
    vector: &mut Vector,
    queries: &mut Registry,
    new: Slots,
    known: &Vector,
) -> Result<(), Memory>
    ensures slots { OnOk result (slots.new.entries ≡ new.entries) }
    ensures ids { OnOk result (vector.new.ids ≡ united vector.old.ids known.now.ids) }
    ensures told { OnOk result (queries.new.entries ≡ noted (turned_between slots.old.entries new.entries) queries.old.entries) }
    ensures slots_err { OnErr result (slots.new.entries ≡ slots.old.entries) }
    ensures ids_err { OnErr result (vector.new ≡ vector.old) }
    ensures told_err { OnErr result (queries.new.entries ≡ queries.old.entries) }
{
    let foreseen = foresee_slots(alloc, queries, slots, &new)?;
    vector.unite(known)?;
    *slots = new;
    tell(queries, foreseen);
    Ok(())
}

// Whether another change stands than before.
fn is_other(old: Option<&Slot>, new: Option<&Slot>) -> bool
    ensures { result ≡ is_other_slot (option_copied old.entry) (option_copied new.entry) }
{
    match (old, new) {
        (None, None) => false,
        (Some(old), Some(new)) => {
            let (one, two) = (&old.stamp, &new.stamp);
            one.ver() != two.ver() || one.member() != two.member() || one.rv() != two.rv()
        }
        _ => true,
    }
}

// Puts the keys of slots into a set.
fn add_keys(alloc: Global, keys: &mut BTreeSet<Key>, slots: &Slots) -> Result<(), Memory>
    ensures { OnOk result (keys.new.keys ≡ with_keys keys.old.keys slots.now.entries) }
{
    for (key, _) in slots.rows(alloc)? {
        keys.insert(key.copy(alloc)?)?;
    }
    Ok(())
}

// A key with its values among these slots before and now.
fn turned_at(alloc: Global, key: &Key, old: &Slots, new: &Slots) -> Result<Turned, Memory>
    ensures { IfOk result (λ turned. turned ≡ turned_slot old.now.entries new.now.entries key.now) }
{
    let (before, behind) = (old.find(key), new.find(key));
    Ok(Turned {
        key: key.copy(alloc)?,
        old: slot_value(alloc, before)?,
        new: slot_value(alloc, behind)?,
        had: is_there(before),
        has: is_there(behind),
    })
}

/// The keys at which other changes stand than before, with their values, in order.
pub fn turned_between(alloc: Global, old: &Slots, new: &Slots) -> Result<Vec<Turned>, Memory>
    ensures { IfOk result (λ turned. turned.items ≡ turned_between old.now.entries new.now.entries) }
{
    let mut keys = BTreeSet::new(alloc);
    add_keys(alloc, &mut keys, old)?;
    add_keys(alloc, &mut keys, new)?;
    let mut turned = Vec::new(alloc);
    for key in &keys {
        if is_other(old.find(key), new.find(key)) {
            turned.push(turned_at(alloc, key, old, new)?)?;
        }
    }
    Ok(turned)
}
