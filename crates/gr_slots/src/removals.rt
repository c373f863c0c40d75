ghost use Rattle.std.specs.Prelude.{◌≡◌, ℕ, List, true, ◌==◌, [], ◌∷◌, ◌++◌, OnOk, OnErr, IfOk, if◌then◌else◌, filter, option_copied};
ghost use Rattle.std.specs.Ordering.{nat_cmp};
ghost use Rattle.std.specs.BTreeMap.{keys, IsOrdered};
ghost use Rattle.gr_slots.specs.Slots.{removed_at, is_late};
ghost use Rattle.gr_slots.specs.Removals.{keys_at, is_listed, is_moment};

use crate::Slot;
use gr_stamp::Kind;
use gr_value::{Copied, Key, KeyList, Memory};
use std::alloc::Global;
use std::collections::{BTreeMap, BTreeSet};

/// How many seconds after it came in a removal has timed out.
pub const TIMEOUT: u64 = 600;

/// When what stands came in, where it is a removal.
pub fn removed_at(slot: Option<&Slot>) -> Option<u64>
    ensures { result ≡ removed_at (option_copied slot.entry) }
{
    match slot {
        Some(
            Slot {
                kind: Kind::Remove,
                taken_at,
                ..
            },
        ) => Some(*taken_at),
        _ => None,
    }
}

// Puts a key last in the list of a moment.
#[inline(always)]
fn append(
    alloc: Global,
    removals: &mut BTreeMap<u64, Vec<Key>>,
    at: u64,
    key: Key,
) -> Result<(), Memory>
    ensures ok { OnOk result ((moment : ℕ) → keys_at removals.new moment
        ≡ keys_at removals.old moment ++ (if at == moment then key ∷ [] else [])) }
    ensures err { OnErr result ((moment : ℕ) → keys_at removals.new moment ≡ keys_at removals.old moment) }
    ensures ordered { IsOrdered nat_cmp removals.old → IsOrdered nat_cmp removals.new }
{
    match removals.get_mut(&at) {
        Some(keys) => keys.push(key)?,
        None => {
            let mut keys = Vec::new(alloc);
            keys.push(key)?;
            removals.insert(at, keys)?;
        }
    }
    Ok(())
}

/// Lists a key at the moment when its removal came in, if that is what is to stand there.
#[inline(always)]
pub fn note(
    alloc: Global,
    removals: &mut BTreeMap<u64, Vec<Key>>,
    at: Option<u64>,
    key: &Key,
) -> Result<(), Memory>
    ensures listed { OnOk result ((moment : ℕ) → is_moment moment at ≡ true → is_listed key.now (keys_at removals.new moment) ≡ true) }
    ensures stays { (q : List ℕ) (moment : ℕ) → is_listed q (keys_at removals.old moment) ≡ true
        → is_listed q (keys_at removals.new moment) ≡ true }
    ensures ordered { IsOrdered nat_cmp removals.old → IsOrdered nat_cmp removals.new }
{
    if let Some(at) = at {
        append(alloc, removals, at, key.copy(alloc)?)?;
    }
    Ok(())
}

/// The moments of lists from the first one on that have timed out.
#[tactic(auto, using(crate::proofs::Due::none_soon, crate::proofs::Due::none_new, crate::proofs::Due::moments_between))]
pub fn late_moments(
    alloc: Global,
    removals: &BTreeMap<u64, Vec<Key>>,
    first: u64,
    clock: u64,
) -> Result<Vec<u64>, Memory>
    ensures { IfOk result (λ moments. moments.items ≡ filter (is_late first clock) (keys removals.now)) }
{
    let mut moments = Vec::new(alloc);
    if clock < TIMEOUT {
        return Ok(moments);
    }
    if clock - TIMEOUT < first {
        return Ok(moments);
    }
    for (at, _) in removals.range(first..=clock - TIMEOUT) {
        moments.push(*at)?;
    }
    Ok(moments)
}

/// The keys as a list, in order.
pub fn listed(alloc: Global, keys: &BTreeSet<Key>) -> Result<KeyList, Memory>
    ensures { IfOk result (λ list. list ≡ keys.now.keys) }
{
    let mut list = KeyList::new(alloc)?;
    for key in keys {
        list.push(key.copy(alloc)?)?;
    }
    Ok(list)
}
