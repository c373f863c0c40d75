use crate::Part;
use gr_value::Memory;
use std::alloc::AllocFailed;

/// Why tokens cease to begin a query.
#[derive(Clone, Copy, Debug, PartialEq, Eq)]
pub(crate) enum Wrong {
    Expected,
    NotACq(Part),
    TooDeep,
}

/// Why a reader stopped: at a wrong token, or for want of memory.
#[derive(Clone, Copy, Debug, PartialEq, Eq)]
pub(crate) enum Halt {
    Wrong(Wrong),
    Memory,
}

impl From<Memory> for Halt {
    ghost use Rattle.std.specs.Prelude.{◌≡◌};
    ghost use Rattle.gr_oql.specs.declared.halt.Halt.TheVariants as halts;

    ghost from_gives = { λ _ halt. halt ≡ halts.Memory };

    fn from(_: Memory) -> Halt {
        Halt::Memory
    }
}

impl<T: Drop> From<AllocFailed<T>> for Halt {
    ghost use Rattle.std.specs.Prelude.{◌≡◌};
    ghost use Rattle.gr_oql.specs.declared.halt.Halt.TheVariants as halts;

    ghost from_gives = { λ _ halt. halt ≡ halts.Memory };

    fn from(_: AllocFailed<T>) -> Halt {
        Halt::Memory
    }
}
