ghost use Rattle.std.specs.Prelude.{◌≡◌, ◌<◌, ◌≤◌, ℕ, [], ◌∷◌, ◌++◌, length, slice_get, Some, IfOk, IfErr, IfNone, IsOk, option_copied};
ghost use Rattle.std.specs.Option.{option_to_list};
ghost use Rattle.gr_turn.specs.Views.{HasAll, MadeAll, IsRoot, fresh, root_view, seat_view, deal_left, deal_right};
ghost use Rattle.gr_value.specs.Lists.{StartsWith};

use crate::kept::Kept;
use crate::lock::{Seat, TurnLock};
use crate::rule::{Claim, Deal, Open};
use crate::view::View;
use atomic_table::Table;
use gr_value::Memory;
use std::alloc::Global;
use std::marker::Model;

/// A list of seats, which contracts see as that list.
#[derive(Drop)]
pub struct SeatList<T: Kept> {
    seats: Vec<Seat<T>>,
}

impl<T: Kept> Model for SeatList<T> {
    ghost use Rattle.std.specs.Prelude.{List};
    ghost use Rattle.gr_turn.specs.Views.{Seated};

    ghost Value = { List (Seated T.Entry T.Base) };

    ghost view = { λ list. list.seats.items };
}

impl<T: Kept> SeatList<T> {
    /// The list with no seats.
    pub fn new(alloc: Global) -> Result<SeatList<T>, Memory>
        ensures { IfOk result (λ list. list ≡ []) }
    {
        Ok(SeatList {
            seats: Vec::new(alloc),
        })
    }

    /// Puts one seat last. Where memory is refused the seat is dropped.
    pub fn push(&mut self, seat: Seat<T>) -> Result<(), Memory>
        ensures ok { IfOk result (λ _. self.new ≡ self.old ++ seat ∷ []) }
        ensures err { IfErr result (λ _. self.new ≡ self.old) }
    {
        self.seats.push(seat)?;
        Ok(())
    }

    pub fn len(&self) -> usize
        ensures { result ≡ length self.now }
    {
        self.seats.len()
    }

    /// The seat at a place, counted from 0.
    pub fn get(&self, place: usize) -> Option<&Seat<T>>
        ensures { option_copied result ≡ slice_get self.now place }
    {
        self.seats.get(place)
    }

    /// Takes the last seat out.
    pub fn pop(&mut self) -> Option<Seat<T>>
        ensures seat { self.old ≡ self.new ++ option_to_list result }
        ensures none { IfNone result (self.old ≡ []) }
    {
        self.seats.pop()
    }

    /// Lets go of a list with no seats, also where what the lock keeps can't be dropped.
    pub fn destroy_empty(self)
        requires { self ≡ [] }
    {
        let SeatList { seats } = self;
        seats.destroy_empty();
    }
}

impl<T: Kept> TurnLock<T> {
    /// A lock over the value, with so many seats. Where memory is refused the value comes back.
    pub fn new(
        alloc: Global,
        value: T,
        seats: u32,
    ) -> Result<(TurnLock<T>, SeatList<T>), (Memory, T)>
        requires { 1 ≤ seats }
        ensures count { IfOk result (λ made. length made.1 ≡ seats) }
        ensures each { IfOk result (λ made. (k : ℕ) (seat : _) → slice_get made.1 k ≡ Some seat → (seat.lock ≡ made.0) × (seat.view ≡ seat_view (T.base value) seats (T.entries value) k)) }
        ensures back { IfErr result (λ refused. refused.1 ≡ value) }
    {
        let Ok(mut items) = Vec::with_capacity(alloc, seats as usize) else {
            return Err((Memory, value));
        };
        let Ok((table, mut root)) = Table::vacant(alloc, &[1], 1, &u64::from(seats)) else {
            return Err((Memory, value));
        };
        let lock = TurnLock { table };
        lock.open(&mut root, value);
        for _k in 0..seats {
            items.push_reserved(lock.deal(&mut root));
        }
        Ok((lock, SeatList { seats: items }))
    }

    /// Hands out the value. It answers `None` only where a turn was never given back, so that the word is odd.
    pub fn end(self) -> Option<T> {
        let TurnLock { table } = self;
        let mut closed = table.close();
        let word = closed.word(0);
        let value = closed.take(0);
        closed.free();
        match value {
            None if word % 2 == 0 => unreachable!(),
            value => value,
        }
    }

    /// Hands out the value, of which the seat tells. The fault is for a turn that was never given back.
    pub fn end_with(self, seat: Seat<T>) -> Result<T, Option<T>>
        requires { seat.lock ≡ self }
        ensures base { IfOk result (λ value. seat.view.base ≡ Some (T.base value)) }
        ensures seen { IfOk result (λ value. StartsWith (T.entries value) seat.view.seen) }
        ensures made { IfOk result (λ value. MadeAll seat.view (length (T.entries value))) }
        ensures home { HasAll seat.view → IsOk result }
    {
        let token = seat.into_token();
        let TurnLock { table } = self;
        let mut closed = table.close_with(token);
        let word = closed.word(0);
        let value = closed.take(0);
        closed.free();
        if word % 2 == 1 {
            return Err(value);
        }
        let Some(value) = value else { unreachable!() };
        Ok(value)
    }

    // The first seat puts the value in.
    fn open(&self, root: &mut atomic_table::Seat<Option<T>, View<T::Entry, T::Base>>, value: T)
        requires lock { root.old.table_id ≡ self.now }
        requires fresh { root.old.me ≡ (fresh root.old.me.0.seats, []) }
        ensures lock { root.new.table_id ≡ root.old.table_id }
        ensures view { root.new.me ≡ (root_view (T.base value) root.old.me.0.seats (T.entries value) 0, []) }
    {
        let shared = &self.table.shared;
        let word = 2 * value.len();
        shared.load::<Claim<T>>(root, 0);
        let old = shared.exchange(root, 0, Some(value));
        let None = old else { unreachable!() };
        shared.swap::<Open<T>>(root, 0, word);
    }

    // A seat with the next number.
    fn deal(&self, root: &mut atomic_table::Seat<Option<T>, View<T::Entry, T::Base>>) -> Seat<T>
        requires lock { root.old.table_id ≡ self.now }
        requires root { IsRoot root.old.me }
        ensures lock { (root.new.table_id ≡ root.old.table_id) × (result.lock ≡ root.old.table_id) }
        ensures root { root.new.me ≡ (deal_left root.old.me.0, []) }
        ensures seat { result.view ≡ deal_right root.old.me.0 }
    {
        Seat {
            token: self.table.shared.split_seat::<Deal>(root),
        }
    }
}
