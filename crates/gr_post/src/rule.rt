use crate::mail::Posted;
use crate::view::View;
use crossbeam_queue::protocol::{Join, Lesson, Outcome, Protocol, Split};

// What holds between any two steps of an inbox.
pub(crate) struct Ordered;

impl Protocol<Posted, View> for Ordered {
    ghost use Rattle.gr_post.specs.Rule.{Delivers};
    ghost use Rattle.gr_post.specs.Views.{taker};

    ghost holds = { Delivers };

    ghost first = { taker };
}

// The taker's pass makes the next sender.
pub(crate) struct Enlist;

impl Split<View> for Enlist {
    ghost use Rattle.gr_post.specs.Views.{enlisting, sender};

    ghost left = { enlisting };

    ghost right = { λ view. sender view.made };
}

// The taker takes in what a sender knows.
pub(crate) struct Meet;

impl Join<View> for Meet {
    ghost use Rattle.gr_post.specs.Views.{meeting, spent};

    ghost both = { meeting };

    ghost spent = { spent };
}

// A mail is put last.
pub(crate) struct Sends;

impl Outcome<Posted, View> for Sends {
    ghost use Rattle.gr_post.specs.Views.{Sends};

    ghost then = { Sends };
}

impl Lesson<Posted, View> for Sends {
    ghost use Rattle.gr_post.specs.Views.{Trails};

    ghost fact = { Trails };
}

// The first mail is taken.
pub(crate) struct Takes;

impl Outcome<Posted, View> for Takes {
    ghost use Rattle.gr_post.specs.Views.{Takes};

    ghost then = { Takes };
}

impl Lesson<Posted, View> for Takes {
    ghost use Rattle.gr_post.specs.Views.{Balances};

    ghost fact = { Balances };
}
