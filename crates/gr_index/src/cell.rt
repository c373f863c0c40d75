use crate::words::Words;
use gr_value::Key;

/// A scalar in an order of its own: which one serves, as long as no two scalars are at one place.
#[derive(PartialEq, Eq, PartialOrd, Ord, Drop)]
pub(crate) enum Mark {
    Null,
    Bool(bool),
    Int(i64),
    Text(Words),
}

/// Where a cell stands among those of its mark.
#[derive(PartialEq, Eq, PartialOrd, Ord, Drop)]
pub(crate) enum Place {
    Before,
    At(Key),
    Behind,
}

/// A key under the mark of its scalar, or an end of those under a mark.
#[derive(PartialEq, Eq, PartialOrd, Ord, Drop)]
pub(crate) struct Cell {
    pub(crate) mark: Mark,
    pub(crate) place: Place,
}
