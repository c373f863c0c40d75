// Eight threads at one lock.
ghost use Rattle.std.specs.Prelude.{◌≡◌, ℕ, All, IfSome, Some, slice_get};
ghost use Rattle.std.specs.Thread.{IsSync};

use super::{Notes, with_seats};
use gr_turn::{Seat, SeatList, TurnLock};
use std::alloc::Global;
use std::sync::Wait;
use std::test::Fail;
use std::thread::{self, Threads};

// How many turns each thread takes.
const TURNS: u64 = 100000;

// A thread's number and its seat.
#[derive(Drop)]
struct Slot {
    number: u64,
    seat: Option<Seat<Notes>>,
}

// A slot for each seat.
fn slots_of(alloc: Global, lock: &TurnLock<Notes>, seats: SeatList<Notes>) -> Option<Vec<Slot>>
    requires { (k : ℕ) (seat : _) → slice_get seats k ≡ Some seat → seat.lock ≡ lock.now }
    ensures { IfSome result (λ slots. All (λ slot. IfSome slot.seat (λ seat. seat.lock ≡ lock.now)) slots.items) }
{
    let count = seats.len() as u64;
    let mut left = seats;
    let mut slots = Vec::new(alloc);
    for number in 0..count {
        let slot = Slot {
            number,
            seat: left.pop(),
        };
        if slots.push(slot).is_err() {
            return None;
        }
    }
    Some(slots)
}

// Notes each turn under the number. At each eighth the others may run while the turn is out.
fn take_turns<R: Wait + Sync>(
    rt: &R,
    lock: &TurnLock<Notes>,
    seat: Seat<Notes>,
    number: u64,
) -> Seat<Notes>
    requires { seat.lock ≡ lock.now }
    ensures { result.lock ≡ lock.now }
{
    let mut seat = seat;
    for at in 0..TURNS {
        let mut turn = lock.enter(rt, seat);
        let _ = turn.value_mut().add((number, at));
        if at % 8 == 0 {
            thread::yield_now();
        }
        seat = lock.leave(turn);
    }
    seat
}

// What a thread does.
fn work<R: Wait + Sync>(rt: &R, lock: &TurnLock<Notes>, slot: &mut Slot)
    requires { IfSome slot.old.seat (λ seat. seat.lock ≡ lock.now) }
    ensures { IfSome slot.new.seat (λ seat. seat.lock ≡ lock.now) }
{
    if let Some(seat) = slot.seat.take() {
        slot.seat = Some(take_turns(rt, lock, seat, slot.number));
    }
}

// A thread for each slot.
fn work_all<R: Threads + Wait + Sync>(rt: &R, lock: &TurnLock<Notes>, slots: &mut [Slot])
    requires { All (λ slot. IfSome slot.seat (λ seat. seat.lock ≡ lock.now)) slots.old }
    ensures { All (λ slot. IfSome slot.seat (λ seat. seat.lock ≡ lock.now)) slots.new }
{
    let count = slots.len();
    if count == 0 {
        return;
    }
    let one = |_: usize, slot: &mut Slot|
        requires { IsSync R.row × IfSome slot.now.seat (λ seat. seat.lock ≡ lock.now) }
        ensures { IfSome slot.exit.now.seat (λ seat. seat.lock ≡ lock.entry.now) }
    { work(rt, lock, slot) };
    thread::for_each_mut(rt, slots, count, &one);
}

// One seat that knows what all know.
fn join_all(lock: &TurnLock<Notes>, slots: Vec<Slot>) -> Option<Seat<Notes>>
    requires { All (λ slot. IfSome slot.seat (λ seat. seat.lock ≡ lock.now)) slots.items }
    ensures { IfSome result (λ seat. seat.lock ≡ lock.now) }
{
    let count = slots.len();
    let mut left = slots;
    let mut all = left.pop()?.seat?;
    for _ in 1..count {
        lock.join(&mut all, left.pop()?.seat?);
    }
    Some(all)
}

// Whether each of eight threads noted each of its turns once, in order.
fn each_in_order(items: &[(u64, u64)]) -> bool {
    let mut due = [0u64; 8];
    for (number, at) in items {
        match due.get_mut(*number as usize) {
            Some(next) if *next == *at => *next = next.wrapping_add(1),
            _ => return false,
        }
    }
    due == [TURNS; 8]
}

#[test]
fn no_turn_is_lost(rt: HostRuntime) -> Result<(), Fail> {
    let Some((lock, seats)) = with_seats(rt.alloc(), 8) else {
        panic!(rt; "no memory")
    };
    let Some(mut slots) = slots_of(rt.alloc(), &lock, seats) else {
        panic!(rt; "no memory")
    };
    work_all(&rt, &lock, slots.as_mut_slice());
    let Some(seat) = join_all(&lock, slots) else {
        panic!(rt; "no seat")
    };
    let Ok(notes) = lock.end_with(seat) else {
        panic!(rt; "a turn is out")
    };
    assert!(rt; each_in_order(notes.items.as_slice()));
    Ok(())
}
