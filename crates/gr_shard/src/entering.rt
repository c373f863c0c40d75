ghost use Rattle.std.specs.Prelude.{◌≡◌, ◌≤◌, IfOk, OnOk, OnErr, option_copied, option_and_then};
ghost use Rattle.gr_stamp.specs.Winner.{put_value};
ghost use Rattle.gr_shard.specs.Effects.{arriving, noting};
ghost use Rattle.gr_shard.specs.Entries.{slot_from, slot_ver, with_change, applied, verdict_at};
ghost use Rattle.gr_shard.specs.Telling.{slot_there};

use crate::effect::{IdsAfter, SlotsAfter};
use gr_history::Verdict;
use gr_slots::{Slot, Slots};
use gr_stamp::{Change, LIMIT, Stamp};
use gr_value::{Copied, Memory, Value};
use std::alloc::Global;

/// The value of what stands, where a put does.
pub fn value_of(slot: Option<&Slot>) -> Option<&Value>
    ensures { option_copied result ≡ option_and_then (λ s. put_value s.kind) (option_copied slot.entry) }
{
    slot?.value()
}

/// Whether the key of what stands is there, with a value or without.
pub fn is_there(slot: Option<&Slot>) -> bool
    ensures { result ≡ slot_there (option_copied slot.entry) }
{
    match slot {
        None => false,
        Some(slot) => slot.is_there(),
    }
}

/// The version of what stands, or 0.
pub fn ver_of(slot: Option<&Slot>) -> u64
    ensures ver { result ≡ slot_ver (option_copied slot.entry) }
    ensures within { result ≤ LIMIT }
{
    match slot {
        None => 0,
        Some(slot) => slot.stamp.ver(),
    }
}

/// The slot of a change that comes in at this clock.
#[inline(always)]
pub fn slot_from(alloc: Global, change: &Change, clock: u64) -> Result<Slot, Memory>
    ensures { IfOk result (λ slot. slot ≡ slot_from change.now clock) }
{
    Ok(Slot {
        kind: change.kind.copy(alloc)?,
        stamp: change.stamp,
        taken_at: clock,
    })
}

/// Sets what came in at this clock, if anything did. Where memory is refused the slots are as before.
#[inline(always)]
pub fn enter(
    alloc: Global,
    slots: &mut Slots,
    clock: u64,
    came: Option<&Change>,
) -> Result<(), Memory>
    ensures ok { OnOk result (slots.new.entries ≡ with_change (option_copied came.entry) clock slots.old.entries) }
    ensures err { OnErr result (slots.new.entries ≡ slots.old.entries) }
{
    let Some(change) = came else {
        return Ok(());
    };
    slots.set(&change.key, slot_from(alloc, change, clock)?)
}

/// What becomes of a change that is known or isn't, over what stands.
pub fn verdict_at(known: bool, slot: Option<&Slot>, stamp: &Stamp) -> Verdict
    ensures { result ≡ verdict_at known (option_copied slot.entry) stamp.now }
{
    match slot {
        _ if known => Verdict::Repeat,
        Some(slot) if !stamp.beats(&slot.stamp) => Verdict::Discarded,
        _ => Verdict::Applied,
    }
}

/// The change, where it was applied.
pub fn applied(verdict: Verdict, change: &Change) -> Option<&Change>
    ensures { option_copied result ≡ applied verdict change.now }
{
    match verdict {
        Verdict::Applied => Some(change),
        _ => None,
    }
}

/// A copy of what comes in, if anything does.
pub fn copied(alloc: Global, came: Option<&Change>) -> Result<Option<Change>, Memory>
    ensures { IfOk result (λ copy. copy ≡ option_copied came.entry) }
{
    match came {
        None => Ok(None),
        Some(change) => Ok(Some(change.copy(alloc)?)),
    }
}

/// What becomes of the slots by what comes in at this clock, if anything does.
pub fn arriving(clock: u64, came: Option<Change>) -> SlotsAfter
    ensures { result ≡ arriving came clock }
{
    match came {
        None => SlotsAfter::Same,
        Some(Change { key, kind, stamp }) => SlotsAfter::With {
            key,
            slot: Slot {
                kind,
                stamp,
                taken_at: clock,
            },
        },
    }
}

/// What becomes of the ids by what was made, if anything was.
pub fn noting(made: Option<&Change>) -> IdsAfter
    ensures { result ≡ noting (option_copied made.entry) }
{
    match made {
        None => IdsAfter::Same,
        Some(change) => IdsAfter::With(change.stamp),
    }
}
