use std::alloc::AllocFailed;
use std::error::Error;
use std::fmt;

/// Why a text has no tokens. A place is counted in bytes from 0.
#[derive(Clone, Copy, Debug, PartialEq, Eq)]
pub enum LexFault {
    /// A character that begins no token.
    BadCharacter(u64),
    /// The first quote of a text that doesn't end.
    OpenText(u64),
    /// The first digit of a number above `Token::GREATEST_NUMBER`.
    NumberTooLarge(u64),
    Memory,
}

impl<T: Drop> From<AllocFailed<T>> for LexFault {
    ghost use Rattle.std.specs.Prelude.{◌≡◌};
    ghost use Rattle.gr_lex.specs.declared.fault.LexFault.TheVariants as lex_fault;

    ghost from_gives = { λ _ fault. fault ≡ lex_fault.Memory };

    fn from(_: AllocFailed<T>) -> LexFault {
        LexFault::Memory
    }
}

impl fmt::Display for LexFault {
    fn fmt<W: fmt::Write>(&self, f: &mut fmt::Formatter<W>) -> fmt::Result {
        match self {
            LexFault::BadCharacter(place) => write!(f, "no token begins at {place}"),
            LexFault::OpenText(place) => write!(f, "a text doesn't end, from {place}"),
            LexFault::NumberTooLarge(place) => write!(f, "a number is too large, at {place}"),
            LexFault::Memory => write!(f, "no memory"),
        }
    }
}

impl Error for LexFault {}
