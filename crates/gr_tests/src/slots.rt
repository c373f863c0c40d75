use gr_slots::{Slot, Slots};
use gr_stamp::{Kind, Stamp};
use gr_value::{Key, Value};
use std::alloc::Global;
use std::process::Abort;
use std::test::Fail;

// A slot that came in at a moment: a removal, or a put of an empty value.
fn slot(alloc: Global, stamp: Stamp, removal: bool, taken_at: u64) -> Result<Slot, Fail> {
    let kind = if removal {
        Kind::Remove
    } else {
        Kind::Put(Value::read(alloc, b"{}")?)
    };
    Ok(Slot {
        kind,
        stamp,
        taken_at,
    })
}

// The keys that have timed out, one behind another.
fn words(alloc: Global, slots: &mut Slots, clock: u64) -> Result<Vec<u8>, Fail> {
    let mut words = Vec::new(alloc);
    for key in slots.timed_out(alloc, 0, clock)?.as_slice() {
        words.extend_from_slice(key.bytes())?;
    }
    Ok(words)
}

// A slot comes in at a key.
fn take_in(
    alloc: Global,
    slots: &mut Slots,
    stamp: Stamp,
    (key, removal, taken_at): (&[u8], bool, u64),
) -> Result<(), Fail> {
    let key = Key::read(alloc, key)?;
    slots.set(&key, slot(alloc, stamp, removal, taken_at)?)?;
    Ok(())
}

static TAKEN: [(&[u8], bool, u64); 7] = [
    (b"c", true, 0),
    (b"a", true, 1),
    (b"b", false, 0),
    (b"d", true, 0),
    (b"e", true, 0),
    (b"e", false, 0),
    (b"d", true, 2),
];

fn take_all_in(alloc: Global, slots: &mut Slots, stamp: Stamp) -> Result<(), Fail> {
    for row in &TAKEN {
        take_in(alloc, slots, stamp, *row)?;
    }
    Ok(())
}

static TIMED_OUT: [(u64, &[u8]); 7] = [
    (0, b""),
    (599, b""),
    (600, b"c"),
    (601, b"ac"),
    (602, b"acd"),
    (u64::MAX, b"acd"),
    (1, b""),
];

fn time_out(rt: &impl Abort, alloc: Global, slots: &mut Slots) -> Result<(), Fail> {
    for (clock, keys) in &TIMED_OUT {
        assert!(rt; words(alloc, slots, *clock)?.as_slice() == *keys);
    }
    Ok(())
}

fn drops(alloc: Global, slots: &mut Slots, key: &[u8]) -> Result<bool, Fail> {
    let key = Key::read(alloc, key)?;
    Ok(slots.drop_slot(&key))
}

fn drop_two(rt: &impl Abort, alloc: Global, slots: &mut Slots) -> Result<(), Fail> {
    for (key, had) in [(b"c", true), (b"c", false), (b"b", true)] {
        assert!(rt; drops(alloc, slots, key)? == had);
    }
    assert_eq!(rt; slots.tombstones(), 2);
    assert!(rt; words(alloc, slots, 601)?.as_slice() == b"a".as_slice());
    Ok(())
}

fn walk(rt: &impl Abort, alloc: Global, slots: &mut Slots) -> Result<(), Fail> {
    let stamp = Stamp::new(1, 1, 1).expect(rt, "a stamp");
    take_all_in(alloc, slots, stamp)?;
    assert_eq!(rt; slots.tombstones(), 3);
    time_out(rt, alloc, slots)?;
    drop_two(rt, alloc, slots)
}

// At 599, 600 and 601 seconds, with a removal that came in first, one that came in last at a lesser
// key, a put, and a removal that a put and a later removal replace.
#[test]
fn removals_time_out_in_order_of_keys(rt: HostRuntime) -> Result<(), Fail> {
    let mut slots = Slots::new(rt.alloc());
    walk(&rt, rt.alloc(), &mut slots)
}
