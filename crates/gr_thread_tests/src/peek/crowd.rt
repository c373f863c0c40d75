// One thread publishes and peeks, while seven others peek.
ghost use Rattle.std.specs.Prelude.{◌<◌};
ghost use Rattle.std.specs.Thread.{IsSync};

use super::{peeked, turned};
use gr_peek::{Eye, EyeList, Memory, Published};
use std::alloc::Global;
use std::sync::Wait;
use std::test::Fail;
use std::thread::{self, Threads};

// How often one publishes.
const PUBLICATIONS: u64 = 4000;

// How often each of the others peeks.
const PEEKS: u64 = 4000;

// What the key of this number has after so many publications: the n-th gives the key of the number n % 4
// the value n, or takes it away where 5 divides n.
fn due(number: u64, at: u64) -> Option<i64>
    requires { number < 4 }
{
    let last = at.checked_sub((at % 4 + 4 - number) % 4)?;
    if last % 5 == 0 {
        None
    } else {
        i64::try_from(last).ok()
    }
}

// Adds the next publication, and answers how many there are.
fn add<R: Wait>(rt: &R, alloc: Global, copy: &mut Published) -> Result<u64, Memory> {
    let Some(next) = copy.tell().at().checked_add(1) else {
        return Err(Memory);
    };
    let value = if next % 5 == 0 { None } else { Some(next) };
    let one = turned(alloc, b'a' + (next % 4) as u8, value)?;
    copy.publish(rt, alloc, &[one], next)?;
    Ok(next)
}

// The place that a peek names, if that is this one at least and gives the key of the number what is seen.
fn is_due(alloc: Global, eye: &mut Eye, number: u64, least: u64) -> Option<u64> {
    let number = number % 4;
    match peeked(alloc, eye, b'a' + number as u8) {
        Ok((value, at)) if at >= least && value == due(number, at) => Some(at),
        _ => None,
    }
}

// An eye, and how many of its peeks went well.
#[derive(Drop)]
struct Slot {
    eye: Eye,
    good: u64,
}

// A slot for each eye.
fn slots_of(alloc: Global, eyes: EyeList) -> Option<Vec<Slot>> {
    let count = eyes.len();
    let mut left = eyes;
    let mut slots = Vec::new(alloc);
    for _ in 0..count {
        let slot = Slot {
            eye: left.pop()?,
            good: 0,
        };
        if slots.push(slot).is_err() {
            return None;
        }
    }
    Some(slots)
}

// Publishes again and again, and peeks each time. It sees each of its publications.
fn publish_all<R: Wait>(rt: &R, alloc: Global, copy: &mut Published, slot: &mut Slot) {
    for number in 0..PUBLICATIONS {
        if let Ok(at) = add(rt, alloc, copy) {
            let seen = is_due(alloc, &mut slot.eye, number, at);
            slot.good = slot.good.saturating_add(u64::from(seen == Some(at)));
        }
    }
}

// Peeks again and again, at places that never fall.
fn peek_all(alloc: Global, slot: &mut Slot) {
    let mut least = 0;
    for number in 0..PEEKS {
        if let Some(at) = is_due(alloc, &mut slot.eye, number, least) {
            least = at;
            slot.good = slot.good.saturating_add(1);
        }
        if number % 8 == 0 {
            thread::yield_now();
        }
    }
}

// A thread for each slot.
fn peek_each<R: Threads + Sync>(rt: &R, alloc: Global, slots: &mut [Slot]) {
    let count = slots.len();
    if count == 0 {
        return;
    }
    let one = |_: usize, slot: &mut Slot| peek_all(alloc, slot);
    thread::for_each_mut(rt, slots, count, &one);
}

// One publishes while the others peek.
fn all_at_once<R: Threads + Wait + Sync>(
    rt: &R,
    alloc: Global,
    copy: &mut Published,
    first: &mut Slot,
    others: &mut [Slot],
) {
    thread::join_mut(
        rt,
        &mut || publish_all(rt, alloc, copy, first),
        &mut ||
            requires { IsSync R.row }
        { peek_each(rt, alloc, others) },
    );
}

// Whether each key has what the last place gives it.
fn is_last(alloc: Global, eye: &mut Eye) -> bool {
    let mut good = true;
    for number in 0..4 {
        good = is_due(alloc, eye, number, PUBLICATIONS) == Some(PUBLICATIONS) && good;
    }
    good
}

#[test]
fn each_peek_is_of_the_place_that_it_names(rt: HostRuntime) -> Result<(), Fail> {
    let alloc = rt.alloc();
    let Ok((mut copy, eyes)) = Published::new(&rt, alloc, 8, true) else {
        panic!(rt; "no memory")
    };
    let Some(mut slots) = slots_of(alloc, eyes) else {
        panic!(rt; "no memory")
    };
    let Some(mut first) = slots.pop() else {
        panic!(rt; "no eye")
    };
    all_at_once(&rt, alloc, &mut copy, &mut first, slots.as_mut_slice());
    assert!(rt; first.good == PUBLICATIONS);
    assert!(rt; slots.len() == 7 && slots.iter().all(|slot| slot.good == PEEKS));
    assert!(rt; is_last(alloc, &mut first.eye));
    copy.end(&rt);
    Ok(())
}
