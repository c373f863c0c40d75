ghost use Rattle.std.specs.Prelude.{◌≡◌};
ghost use Rattle.gr_script.specs.declared.ending.ScriptEnd.TheVariants.{Memory as OutOfMemory};
ghost use Rattle.gr_script.specs.Sayings.{end_at};

use crate::halt::Halt;
use crate::reason::Reason;
use gr_value::Memory;
use std::error::Error;
use std::fmt;

/// The line that is refused, counted from 1, and why. Where the text ends while a line of the
/// heading is due, it is the line behind the last one.
#[derive(Clone, Copy, Debug, PartialEq, Eq)]
pub struct ScriptFault {
    pub line: u32,
    pub reason: Reason,
}

impl fmt::Display for ScriptFault {
    fn fmt<W: fmt::Write>(&self, f: &mut fmt::Formatter<W>) -> fmt::Result {
        write!(f, "line {}: {}", self.line, self.reason)
    }
}

impl Error for ScriptFault {}

/// Why no script was read.
#[derive(Clone, Copy, Debug, PartialEq, Eq)]
pub enum ScriptEnd {
    /// More than 200,000 lines.
    TooManyLines(u64),
    Fault(ScriptFault),
    Memory,
}

impl From<Memory> for ScriptEnd {
    ghost from_gives = { λ _ end. end ≡ OutOfMemory };

    fn from(_: Memory) -> ScriptEnd {
        ScriptEnd::Memory
    }
}

impl fmt::Display for ScriptEnd {
    fn fmt<W: fmt::Write>(&self, f: &mut fmt::Formatter<W>) -> fmt::Result {
        match self {
            ScriptEnd::TooManyLines(lines) => write!(f, "{lines} lines are more than 200000"),
            ScriptEnd::Fault(fault) => write!(f, "{fault}"),
            ScriptEnd::Memory => write!(f, "no memory"),
        }
    }
}

impl Error for ScriptEnd {}

/// How a halt at a line ends the reading.
pub(crate) fn end_at(line: u32, halt: Halt) -> ScriptEnd
    ensures { result ≡ end_at line halt }
{
    match halt {
        Halt::Refused(reason) => ScriptEnd::Fault(ScriptFault { line, reason }),
        Halt::Memory => ScriptEnd::Memory,
    }
}
