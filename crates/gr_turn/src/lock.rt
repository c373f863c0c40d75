ghost use Rattle.std.specs.Prelude.{◌≡◌, ◌≢◌, ℕ, ◌+◌, ◌*◌, ◌%◌, ◌≤◌, [], ◌∷◌, ◌++◌, length, Some, IfOk, IfErr};
ghost use Rattle.gr_turn.specs.Views.{IsIdle, IsAccounted, won_by, lost_by, with_lost, left_by, found, both};
ghost use Rattle.gr_value.specs.Lists.{StartsWith};

use crate::kept::Kept;
use crate::rule::{Grab, Look, Meet, Release, Turns};
use crate::view::View;
use atomic_table::Table;
use std::alloc::Global;
use std::error::Error;
use std::marker::{Model, PhantomData};
use std::sync::Wait;
use std::{fmt, thread};

/// A lock whose holder has the value itself. It is never dropped: `end` takes it apart.
pub struct TurnLock<T: Kept> {
    pub(crate) table: Table<Option<T>, View<T::Entry, T::Base>, u64, Turns<T>, Global>,
}

impl<T: Kept> Model for TurnLock<T> {
    ghost use Rattle.std.specs.Prelude.{◌≡◌};
    ghost use Rattle.atomic_table.specs.Seated.{TableId, table_id_coded};

    ghost Value = { TableId };

    ghost coded = { table_id_coded };

    ghost view = { λ lock. lock.table.shared.table_id };

    ghost invariant = { λ lock. (lock.table.shared.table_id.words ≡ 1) × (lock.table.shared.table_id.slots ≡ 1) };
}

/// The leave to take turns at one lock. It has no bytes.
pub struct Seat<T: Kept> {
    pub(crate) token: atomic_table::Seat<Option<T>, View<T::Entry, T::Base>>,
}

impl<T: Kept> Model for Seat<T> {
    ghost use Rattle.gr_turn.specs.Views.{Seated, IsIdle};

    ghost Value = { Seated T.Entry T.Base };

    ghost view = { λ seat. record { lock = seat.token.table_id; view = seat.token.me.0 } };

    ghost invariant = { λ seat. IsIdle seat.token.me };
}

/// Another turn was out. The word is the odd one that was found.
#[derive(Drop)]
pub struct Busy<T: Kept> {
    pub seat: Seat<T>,
    pub word: u64,
}

impl<T: Kept> fmt::Debug for Busy<T> {
    fn fmt<W: fmt::Write>(&self, f: &mut fmt::Formatter<W>) -> fmt::Result {
        write!(f, "Busy {{ word: {}, .. }}", self.word)
    }
}

impl<T: Kept> fmt::Display for Busy<T> {
    fn fmt<W: fmt::Write>(&self, f: &mut fmt::Formatter<W>) -> fmt::Result {
        write!(f, "another turn is out")
    }
}

impl<T: Kept> Error for Busy<T> {}

/// The value with the seat that took it. It can't be dropped: `leave` gives it back.
pub struct Turn<'a, T: Kept> {
    pub(crate) token: atomic_table::Seat<Option<T>, View<T::Entry, T::Base>>,
    pub(crate) value: T,
    of: PhantomData<&'a u8>,
}

impl<'a, T: Kept> Model for Turn<'a, T> {
    ghost use Rattle.gr_turn.specs.Views.{Turned, IsHolding};

    ghost Value = { Turned T T.Entry T.Base };

    ghost view = { λ turn. record { lock = turn.token.table_id; view = turn.token.me.0; value = turn.value } };

    ghost invariant = { λ turn. IsHolding turn.token.me };
}

impl<T: Kept> Seat<T> {
    pub(crate) fn into_token(self) -> atomic_table::Seat<Option<T>, View<T::Entry, T::Base>>
        ensures same { (result.table_id ≡ self.lock) × (result.me ≡ (self.view, [])) }
        ensures idle { IsIdle result.me }
    {
        let Self { token } = self;
        token
    }
}

impl<T: Kept> Drop for Seat<T> {
    fn drop(self) {
        let Self { token: _ } = self;
    }
}

impl<T: Kept> TurnLock<T> {
    /// Grabs the word until a grab is won, so it may wait for other threads to leave.
    pub fn enter<'a, R: Wait + Sync>(&'a self, rt: &R, seat: Seat<T>) -> Turn<'a, T>
        requires { seat.lock ≡ self.now }
        ensures lock { result.lock ≡ seat.lock }
        ensures won { result.view ≡ won_by (with_lost seat.view result.view.lost result.view.word) (T.entries result.value) }
        ensures lost { seat.view.lost ≤ result.view.lost }
        ensures base { seat.view.base ≡ Some (T.base result.value) }
        ensures seen { StartsWith (T.entries result.value) seat.view.seen }
    {
        let mut waiting = seat;
        for _ in rt.forever() {
            match self.try_enter(waiting) {
                Ok(turn) => return turn,
                Err(busy) => waiting = busy.seat,
            }
            thread::yield_now();
        }
        unreachable!()
    }

    /// Grabs the word once, and never waits.
    pub fn try_enter<'a>(&'a self, seat: Seat<T>) -> Result<Turn<'a, T>, Busy<T>>
        requires { seat.lock ≡ self.now }
        ensures lock { IfOk result (λ turn. turn.lock ≡ seat.lock) }
        ensures won { IfOk result (λ turn. turn.view ≡ won_by seat.view (T.entries turn.value)) }
        ensures base { IfOk result (λ turn. seat.view.base ≡ Some (T.base turn.value)) }
        ensures seen { IfOk result (λ turn. StartsWith (T.entries turn.value) seat.view.seen) }
        ensures busy { IfErr result (λ busy. (busy.seat.lock ≡ seat.lock) × (busy.seat.view ≡ lost_by seat.view busy.word)) }
        ensures word { IfErr result (λ busy. busy.word % 2 ≢ 0) }
    {
        let mut token = seat.into_token();
        let shared = &self.table.shared;
        let word = shared.fetch_or::<Grab<T>>(&mut token, 0, 1);
        if word % 2 == 0 {
            let value = shared.exchange(&mut token, 0, None).unwrap();
            Ok(Turn {
                token,
                value,
                of: PhantomData,
            })
        } else {
            Err(Busy {
                seat: Seat { token },
                word,
            })
        }
    }

    /// Gives the value back, whose base is what it was, and whose list begins with what it was.
    pub fn leave<'a>(&'a self, turn: Turn<'a, T>) -> Seat<T>
        requires lock { turn.lock ≡ self.now }
        requires base { turn.view.base ≡ Some (T.base turn.value) }
        requires list { StartsWith (T.entries turn.value) (found turn.view) }
        ensures lock { result.lock ≡ turn.entry.lock }
        ensures left { result.view ≡ left_by turn.entry.view (T.entries turn.entry.value) }
    {
        let Turn {
            mut token,
            value,
            of: _,
        } = turn;
        let shared = &self.table.shared;
        let word = 2 * value.len();
        let old = shared.exchange(&mut token, 0, Some(value));
        let None = old else { unreachable!() };
        shared.swap::<Release<T>>(&mut token, 0, word);
        Seat { token }
    }

    /// One seat takes in what another knows, and all its numbers.
    pub fn join(&self, into: &mut Seat<T>, from: Seat<T>)
        requires lock { (into.old.lock ≡ self.now) × (from.lock ≡ self.now) }
        ensures lock { into.new.lock ≡ into.old.lock }
        ensures both { into.new.view ≡ both into.old.view from.view }
        ensures accounted { IsAccounted into.new.view }
        ensures seen { StartsWith into.new.view.seen into.old.view.seen × StartsWith into.new.view.seen from.view.seen }
    {
        let token = from.into_token();
        self.table.shared.join_seat::<Meet>(&mut into.token, token);
        self.table.shared.load::<Look<T>>(&mut into.token, 0);
    }
}
