use gr_lex::LexFault;
use gr_value::Memory;
use std::error::Error;
use std::fmt;

/// A part of the query language that continuous queries haven't.
#[derive(Clone, Copy, Debug, PartialEq, Eq)]
pub enum Part {
    Distinct,
    Projection,
    Join,
    Tail,
    Import,
    Bind,
    Escape,
}

/// Why a text is no query. A place is counted in bytes from 0.
#[derive(Clone, Copy, Debug, PartialEq, Eq)]
pub enum OqlFault {
    Lex(LexFault),
    Expected(u64),
    NotACq(u64, Part),
    TooDeep(u64),
    Memory,
}

impl From<Memory> for OqlFault {
    ghost use Rattle.std.specs.Prelude.{◌≡◌};
    ghost use Rattle.gr_oql.specs.declared.fault.OqlFault.TheVariants as oql_fault;

    ghost from_gives = { λ _ fault. fault ≡ oql_fault.Memory };

    fn from(_: Memory) -> OqlFault {
        OqlFault::Memory
    }
}

impl Part {
    // Its name behind "continuous queries have no".
    fn name(self) -> &'static str {
        match self {
            Part::Distinct => "distinct",
            Part::Projection => "projection",
            Part::Join => "join",
            Part::Tail => "order, group, having or limit",
            Part::Import => "import",
            Part::Bind => "parameter",
            Part::Escape => "escape in a pattern",
        }
    }
}

impl fmt::Display for OqlFault {
    fn fmt<W: fmt::Write>(&self, f: &mut fmt::Formatter<W>) -> fmt::Result {
        match self {
            OqlFault::Lex(fault) => write!(f, "{fault}"),
            OqlFault::Expected(place) => write!(f, "something else is due at {place}"),
            OqlFault::NotACq(place, part) => {
                write!(f, "continuous queries have no {}, at {place}", part.name())
            }
            OqlFault::TooDeep(place) => write!(f, "brackets and nots are too deep, at {place}"),
            OqlFault::Memory => write!(f, "no memory"),
        }
    }
}

impl Error for OqlFault {}
