ghost use Rattle.std.specs.Prelude.{◌≡◌};
ghost use Rattle.gr_script.specs.Reasons.{number_of, name_of};

use std::error::Error;
use std::fmt;

/// Why a line is refused, in the order of the reasons' numbers. A number beside a reason says which
/// header line was due, or which fault a key, a value or a query has, counted from 1.
#[derive(Clone, Copy, Debug, PartialEq, Eq)]
pub enum Reason {
    Utf8,
    Header(u8),
    Word,
    Fields,
    Number,
    Range,
    Name,
    Key(u8),
    Value(u8),
    Query(u8),
    /// The query asks another region than the script's.
    Region,
    /// The client isn't stated.
    Client,
    Order,
    /// It names a step or a report that doesn't stand on an earlier line.
    Later,
    Join,
    /// A member would hear of itself. It is printed as `Self`.
    Itself,
    Count,
    NotInRun,
    /// It names a member that departed.
    Gone,
    /// The member that would depart gave a joiner its image.
    Provider,
    /// A client that is away does something, one that is there comes back, or its moments fall.
    Away,
}

impl Reason {
    pub fn number(self) -> u8
        ensures { result ≡ number_of self }
    {
        match self {
            Reason::Utf8 => 1,
            Reason::Header(_) => 2,
            Reason::Word => 3,
            Reason::Fields => 4,
            Reason::Number => 5,
            Reason::Range => 6,
            Reason::Name => 7,
            Reason::Key(_) => 8,
            Reason::Value(_) => 9,
            Reason::Query(_) => 10,
            Reason::Region => 11,
            Reason::Client => 12,
            Reason::Order => 13,
            Reason::Later => 14,
            Reason::Join => 15,
            Reason::Itself => 16,
            Reason::Count => 17,
            Reason::NotInRun => 18,
            Reason::Gone => 19,
            Reason::Provider => 20,
            Reason::Away => 21,
        }
    }

    pub fn name(self) -> &'static str
        ensures { result.now ≡ name_of self }
    {
        match self {
            Reason::Utf8 => "Utf8",
            Reason::Header(_) => "Header",
            Reason::Word => "Word",
            Reason::Fields => "Fields",
            Reason::Number => "Number",
            Reason::Range => "Range",
            Reason::Name => "Name",
            Reason::Key(_) => "Key",
            Reason::Value(_) => "Value",
            Reason::Query(_) => "Query",
            Reason::Region => "Region",
            Reason::Client => "Client",
            Reason::Order => "Order",
            Reason::Later => "Later",
            Reason::Join => "Join",
            Reason::Itself => "Self",
            Reason::Count => "Count",
            Reason::NotInRun => "NotInRun",
            Reason::Gone => "Gone",
            Reason::Provider => "Provider",
            Reason::Away => "Away",
        }
    }
}

impl fmt::Display for Reason {
    fn fmt<W: fmt::Write>(&self, f: &mut fmt::Formatter<W>) -> fmt::Result {
        write!(f, "{} {}", self.number(), self.name())
    }
}

impl Error for Reason {}
