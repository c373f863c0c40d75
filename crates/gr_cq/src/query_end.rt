ghost use Rattle.std.specs.Prelude.{◌≡◌};
ghost use Rattle.gr_cq.specs.declared.query_end.QueryEnd.TheVariants.{Memory as OutOfMemory};

use gr_value::Memory;
use std::error::Error;
use std::fmt;

/// Why a call of a query was refused.
#[derive(Clone, Copy, Debug, PartialEq, Eq)]
pub enum QueryEnd {
    /// No query of this client has the name.
    Unknown,
    /// A query of this client has the name, whether it runs or was stopped.
    Taken,
    /// The query was stopped before.
    NotRunning,
    Memory,
}

impl From<Memory> for QueryEnd {
    ghost from_gives = { λ _ end. end ≡ OutOfMemory };

    fn from(_: Memory) -> QueryEnd {
        QueryEnd::Memory
    }
}

impl fmt::Display for QueryEnd {
    fn fmt<W: fmt::Write>(&self, f: &mut fmt::Formatter<W>) -> fmt::Result {
        match self {
            QueryEnd::Unknown => write!(f, "no query of this name is open"),
            QueryEnd::Taken => write!(f, "a query of this name is open"),
            QueryEnd::NotRunning => write!(f, "the query was stopped before"),
            QueryEnd::Memory => write!(f, "no memory"),
        }
    }
}

impl Error for QueryEnd {}
