ghost use Rattle.std.specs.Prelude.{◌≡◌};
ghost use Rattle.gr_io.specs.declared.end.ReadEnd.TheVariants.{Fault, Memory as OutOfMemory};

use std::alloc::AllocError;
use std::error::Error;
use std::fmt;

/// One call on a source or a sink failed. It moved nothing, and the fault was counted.
#[derive(Clone, Copy, Debug, PartialEq, Eq)]
pub struct Failed;

/// Why a source wasn't read to its end.
#[derive(Debug, Drop)]
pub enum ReadEnd {
    Fault,
    /// The bytes that were taken, one more than the limit.
    TooLarge(Vec<u8>),
    Memory,
}

/// A sink failed before it had taken all bytes.
#[derive(Clone, Copy, Debug, PartialEq, Eq)]
pub struct WriteFault;

impl From<Failed> for ReadEnd {
    ghost from_gives = { λ _ end. end ≡ Fault };

    fn from(_: Failed) -> ReadEnd {
        ReadEnd::Fault
    }
}

impl From<AllocError> for ReadEnd {
    ghost from_gives = { λ _ end. end ≡ OutOfMemory };

    fn from(_: AllocError) -> ReadEnd {
        ReadEnd::Memory
    }
}

impl From<Failed> for WriteFault {
    fn from(_: Failed) -> WriteFault {
        WriteFault
    }
}

impl fmt::Display for Failed {
    fn fmt<W: fmt::Write>(&self, f: &mut fmt::Formatter<W>) -> fmt::Result {
        write!(f, "a call failed")
    }
}

impl Error for Failed {}

impl fmt::Display for ReadEnd {
    fn fmt<W: fmt::Write>(&self, f: &mut fmt::Formatter<W>) -> fmt::Result {
        match self {
            ReadEnd::Fault => write!(f, "the input can't be read"),
            ReadEnd::TooLarge(_) => write!(f, "the input is too large"),
            ReadEnd::Memory => write!(f, "no memory"),
        }
    }
}

impl Error for ReadEnd {}

impl fmt::Display for WriteFault {
    fn fmt<W: fmt::Write>(&self, f: &mut fmt::Formatter<W>) -> fmt::Result {
        write!(f, "the output can't be written")
    }
}

impl Error for WriteFault {}
