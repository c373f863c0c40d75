ghost use Rattle.std.specs.Prelude.{◌≡◌, ◌≤◌, ◌++◌, ◌∷◌, [], IfOk, IfErr, IfSome, ℕ, slice_get, Some};

use gr_turn::{Busy, Kept, Seat, SeatList, TurnLock};
use std::alloc::{AllocError, Global};
use std::test::Fail;

mod crowd;

// A list of pairs of numbers under a name.
#[derive(Debug, Drop)]
struct Notes {
    name: u8,
    items: Vec<(u64, u64)>,
}

impl Kept for Notes {
    type Entry = (u64, u64);

    type Base = u8;

    ghost entries = { λ notes. notes.items.items };

    ghost base = { λ notes. notes.name };

    fn len(&self) -> u64 {
        self.items.len() as u64
    }
}

impl Notes {
    fn add(&mut self, item: (u64, u64)) -> Result<(), AllocError>
        ensures name { self.new.name ≡ self.old.name }
        ensures ok { IfOk result (λ _. self.new.items.items ≡ self.old.items.items ++ item ∷ []) }
        ensures err { IfErr result (λ _. self.new.items.items ≡ self.old.items.items) }
    {
        self.items.push(item)?;
        Ok(())
    }
}

// A lock over no notes.
fn with_seats(alloc: Global, seats: u32) -> Option<(TurnLock<Notes>, SeatList<Notes>)>
    requires { 1 ≤ seats }
    ensures { IfSome result (λ made. (k : ℕ) (seat : _) → slice_get made.1 k ≡ Some seat → seat.lock ≡ made.0) }
{
    let notes = Notes {
        name: 7,
        items: Vec::new(alloc),
    };
    TurnLock::new(alloc, notes, seats).ok()
}

// Twice the length that was found, or the odd word.
fn word_at(lock: &TurnLock<Notes>, seat: Seat<Notes>) -> (Seat<Notes>, u64)
    requires { seat.lock ≡ lock.now }
    ensures { result.0.lock ≡ seat.lock }
{
    match lock.try_enter(seat) {
        Ok(turn) => {
            let found = turn.value().items.len() as u64;
            (lock.leave(turn), 2 * found)
        }
        Err(Busy { seat, word }) => (seat, word),
    }
}

#[test]
fn a_turn_is_out_once(rt: HostRuntime) -> Result<(), Fail> {
    let Some((lock, mut seats)) = with_seats(rt.alloc(), 2) else {
        panic!(rt; "no memory")
    };
    let shown = (seats.len(), seats.get(1).is_some(), seats.get(2).is_some());
    let (Some(second), Some(first)) = (seats.pop(), seats.pop()) else {
        panic!(rt; "no seat")
    };
    let mut turn = lock.enter(&rt, first);
    let (second, busy) = word_at(&lock, second);
    let added = turn.value_mut().add((0, 5)).is_ok();
    let first = lock.leave(turn);
    let (mut second, even) = word_at(&lock, second);
    lock.join(&mut second, first);
    let Ok(mut list) = SeatList::new(rt.alloc()) else {
        panic!(rt; "no memory")
    };
    let listed = list.push(second).is_ok();
    let Some(notes) = lock.end() else {
        panic!(rt; "a turn is out")
    };
    assert_eq!(rt; shown, (2, true, false));
    assert_eq!(rt; (added, busy, even), (true, 1, 2));
    assert_eq!(rt; (listed, list.len()), (true, 1));
    assert_eq!(rt; (notes.name, notes.items.len()), (7, 1));
    Ok(())
}
