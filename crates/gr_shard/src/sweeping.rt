ghost use Rattle.std.specs.Prelude.{◌≡◌, ◌≤◌, IfOk, map};
ghost use Rattle.gr_stamp.specs.declared.stamp.TheConstants.{LIMIT};
ghost use Rattle.gr_shard.specs.Looked.{looked_after};
ghost use Rattle.gr_shard.specs.Sweeps.{risen, valueless, without_all};

use crate::entering::ver_of;
use gr_cq::Turned;
use gr_history::{DeedKind, Entry};
use gr_slots::{Slots, TIMEOUT};
use gr_value::{Copied, Key, Memory};
use std::alloc::Global;

/// Drops the slots of the keys.
pub fn drop_all(slots: &mut Slots, keys: &[Key])
    ensures { slots.new.entries ≡ without_all keys.now slots.old.entries }
{
    for key in keys {
        slots.drop_slot(key);
    }
}

/// The floor, risen to the versions of what stands at the keys.
pub fn risen(slots: &Slots, floor: u64, keys: &[Key]) -> u64
    requires { floor ≤ LIMIT }
    ensures risen { result ≡ risen slots.now.entries floor keys.now }
    ensures within { result ≤ LIMIT }
{
    let mut risen = floor;
    for key in keys {
        risen = risen.max(ver_of(slots.find(key)));
    }
    risen
}

/// The keys, which are there neither before nor behind.
pub fn valueless(alloc: Global, keys: &[Key]) -> Result<Vec<Turned>, Memory>
    ensures { IfOk result (λ turned. turned.items ≡ map valueless keys.now) }
{
    let mut turned = Vec::new(alloc);
    for key in keys {
        turned.push(Turned {
            key: key.copy(alloc)?,
            old: None,
            new: None,
            had: false,
            has: false,
        })?;
    }
    Ok(turned)
}

/// The moment before which no removal is stable once this deed was done, where that was so of the one
/// before, at this clock.
pub fn looked_after(deed: &Entry, clock: u64, before: u64) -> u64
    ensures { result ≡ looked_after deed.now clock before }
{
    match deed.kind() {
        DeedKind::Call | DeedKind::Asked | DeedKind::Reported => before,
        DeedKind::Swept => before.max(clock.saturating_sub(TIMEOUT - 1)),
        DeedKind::Taken | DeedKind::Gave | DeedKind::Imaged | DeedKind::Heard => 0,
    }
}
