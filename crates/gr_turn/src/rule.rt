ghost use Rattle.gr_turn.specs.Rule.{Holds, Grabbed, Released, Claimed, Opens, Looked};
ghost use Rattle.gr_turn.specs.Views.{fresh, deal_left, deal_right, both, unopened};

use crate::kept::Kept;
use crate::view::View;
use atomic_table::{Join, Play, Split, TableRule};
use std::marker::PhantomData;

// What holds between any two steps of a lock.
pub(crate) struct Turns<T> {
    marker: PhantomData<T>,
}

impl<T: Kept> TableRule<Option<T>, View<T::Entry, T::Base>, u64> for Turns<T> {
    ghost holds = { λ seats. Holds T.entries T.base };

    ghost first = { λ seats. fresh seats };
}

// The first seat takes the empty slot.
pub(crate) struct Claim<T> {
    marker: PhantomData<T>,
}

impl<T: Kept> Play<Option<T>, View<T::Entry, T::Base>> for Claim<T> {
    ghost then = { λ state. Claimed T.entries T.base };
}

// The slot goes home with the first value.
pub(crate) struct Open<T> {
    marker: PhantomData<T>,
}

impl<T: Kept> Play<Option<T>, View<T::Entry, T::Base>> for Open<T> {
    ghost then = { λ state. Opens T.entries T.base };
}

// The first seat gives a seat its number.
pub(crate) struct Deal;

impl<E, B> Split<View<E, B>> for Deal {
    ghost left = { λ view. deal_left view };

    ghost right = { λ view. deal_right view };
}

// One `fetch_or` of the word with 1.
pub(crate) struct Grab<T> {
    marker: PhantomData<T>,
}

impl<T: Kept> Play<Option<T>, View<T::Entry, T::Base>> for Grab<T> {
    ghost then = { λ state. Grabbed T.entries T.base };
}

// The slot goes home at the end of a turn.
pub(crate) struct Release<T> {
    marker: PhantomData<T>,
}

impl<T: Kept> Play<Option<T>, View<T::Entry, T::Base>> for Release<T> {
    ghost then = { λ state. Released T.entries T.base };
}

// One seat takes in what another knows.
pub(crate) struct Meet;

impl<E, B> Join<View<E, B>> for Meet {
    ghost both = { λ into from. both into from };

    ghost spent = { unopened 0 };
}

// A load of the word, which changes nothing.
pub(crate) struct Look<T> {
    marker: PhantomData<T>,
}

impl<T: Kept> Play<Option<T>, View<T::Entry, T::Base>> for Look<T> {
    ghost then = { λ state. Looked T.entries T.base };
}
