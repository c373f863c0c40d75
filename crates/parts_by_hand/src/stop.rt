use gr_oql::OqlFault;
use gr_value::{KeyFault, Memory, ValueFault};
use std::alloc::AllocError;
use std::{fmt, io};

/// Why a walk ends before its last step.
#[derive(Clone, Copy)]
pub enum Stop {
    /// What was seen could not be printed.
    Unprinted,
    /// A call was refused twice.
    Refused,
    /// A call that was refused changed what is seen.
    Changed,
    /// A call answered otherwise than it should.
    Otherwise,
}

impl Stop {
    pub fn status(self) -> u8 {
        match self {
            Stop::Unprinted => 7,
            Stop::Refused | Stop::Changed | Stop::Otherwise => 1,
        }
    }
}

impl From<io::Error> for Stop {
    fn from(_: io::Error) -> Stop {
        Stop::Unprinted
    }
}

impl From<Memory> for Stop {
    fn from(_: Memory) -> Stop {
        Stop::Refused
    }
}

impl From<AllocError> for Stop {
    fn from(_: AllocError) -> Stop {
        Stop::Refused
    }
}

impl From<KeyFault> for Stop {
    fn from(_: KeyFault) -> Stop {
        Stop::Refused
    }
}

impl From<ValueFault> for Stop {
    fn from(_: ValueFault) -> Stop {
        Stop::Refused
    }
}

impl From<OqlFault> for Stop {
    fn from(_: OqlFault) -> Stop {
        Stop::Refused
    }
}

impl fmt::Display for Stop {
    fn fmt<W: fmt::Write>(&self, f: &mut fmt::Formatter<W>) -> fmt::Result {
        match self {
            Stop::Unprinted => write!(f, "no memory"),
            Stop::Refused => write!(f, "a call was refused twice"),
            Stop::Changed => write!(f, "a call that was refused changed something"),
            Stop::Otherwise => write!(f, "a call answered otherwise than it should"),
        }
    }
}
