ghost use Rattle.std.specs.Prelude.{◌≡◌, ◌≤◌, ◌++◌, ◌∷◌, None, OnOk, length, map, take, drop};
ghost use Rattle.std.specs.Map.Iter.{deref_pair};
ghost use Rattle.gr_slots.specs.Slots.{slot_at, with_slot};
ghost use Rattle.gr_slots.specs.Late.{with_late, IsApart};

use crate::Slot;
use gr_value::{Key, Memory};

// The place among ordered rows at which a key comes in that has none.
fn place_among(rows: &[(&Key, &Slot)], key: &Key) -> usize
    requires { slot_at key.now (map deref_pair rows.now) ≡ None }
    ensures within { result ≤ length rows.now }
    ensures place { (slot : Slot) → with_slot key.now slot (map deref_pair rows.now)
        ≡ take result (map deref_pair rows.now) ++ (key.now, slot) ∷ drop result (map deref_pair rows.now) }
{
    for place in 0..rows.len() {
        if key.cmp(rows[place].0).is_lt() {
            return place;
        }
    }
    rows.len()
}

/// Puts the late row, if there is one, among the others in its order.
pub fn merge<'a>(
    rows: &mut Vec<(&'a Key, &'a Slot)>,
    late: &'a Option<(Key, Slot)>,
) -> Result<(), Memory>
    requires { IsApart late.now (map deref_pair rows.old.items) }
    ensures { OnOk result (map deref_pair rows.new.items ≡ with_late late.now (map deref_pair rows.old.items)) }
{
    if let Some((key, slot)) = late {
        let place = place_among(rows, key);
        rows.insert(place, (key, slot))?;
    }
    Ok(())
}
