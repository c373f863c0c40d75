ghost use Rattle.std.specs.Prelude.{◌≡◌};
ghost use Rattle.gr_script.specs.Halts.{key_halt, value_halt, query_halt};
ghost use Rattle.gr_script.specs.declared.halt.Halt.TheVariants.{Memory as OutOfMemory, Refused as refused};

use crate::reason::Reason;
use gr_oql::OqlFault;
use gr_value::{KeyFault, Memory, ValueFault};

/// Why the reading of a script halts.
#[derive(Clone, Copy)]
pub(crate) enum Halt {
    Refused(Reason),
    Memory,
}

impl From<Reason> for Halt {
    ghost from_gives = { λ why halt. halt ≡ refused why };

    fn from(why: Reason) -> Halt {
        Halt::Refused(why)
    }
}

impl From<KeyFault> for Halt {
    ghost from_gives = { λ fault halt. halt ≡ key_halt fault };

    fn from(fault: KeyFault) -> Halt {
        match fault {
            KeyFault::Empty => Halt::Refused(Reason::Key(1)),
            KeyFault::TooLong => Halt::Refused(Reason::Key(2)),
            KeyFault::BadByte(_) => Halt::Refused(Reason::Key(3)),
            KeyFault::Memory => Halt::Memory,
        }
    }
}

impl From<ValueFault> for Halt {
    ghost from_gives = { λ fault halt. halt ≡ value_halt fault };

    fn from(fault: ValueFault) -> Halt {
        match fault {
            ValueFault::TooLong => Halt::Refused(Reason::Value(1)),
            ValueFault::NotJson => Halt::Refused(Reason::Value(2)),
            ValueFault::NotObject => Halt::Refused(Reason::Value(3)),
            ValueFault::Nested(_) => Halt::Refused(Reason::Value(4)),
            ValueFault::NotWhole(_) => Halt::Refused(Reason::Value(5)),
            ValueFault::Memory => Halt::Memory,
        }
    }
}

impl From<OqlFault> for Halt {
    ghost from_gives = { λ fault halt. halt ≡ query_halt fault };

    fn from(fault: OqlFault) -> Halt {
        match fault {
            OqlFault::Lex(_) => Halt::Refused(Reason::Query(1)),
            OqlFault::Expected(_) => Halt::Refused(Reason::Query(2)),
            OqlFault::NotACq(_, _) => Halt::Refused(Reason::Query(3)),
            OqlFault::TooDeep(_) => Halt::Refused(Reason::Query(4)),
            OqlFault::Memory => Halt::Memory,
        }
    }
}

impl From<Memory> for Halt {
    ghost from_gives = { λ _ halt. halt ≡ OutOfMemory };

    fn from(_: Memory) -> Halt {
        Halt::Memory
    }
}
