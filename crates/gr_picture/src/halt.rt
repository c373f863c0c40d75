use gr_value::Memory;
use std::alloc::{AllocError, AllocFailed};

/// Why nothing was drawn.
#[derive(Clone, Copy, Debug, PartialEq, Eq)]
pub enum Halt {
    /// The line, counted from 1, that isn't what a report with histories has there.
    Line(usize),
    /// Memory was refused.
    Memory,
}

impl From<AllocError> for Halt {
    fn from(_error: AllocError) -> Halt {
        Halt::Memory
    }
}

impl<T: Drop> From<AllocFailed<T>> for Halt {
    fn from(_failed: AllocFailed<T>) -> Halt {
        Halt::Memory
    }
}

impl From<Memory> for Halt {
    fn from(_memory: Memory) -> Halt {
        Halt::Memory
    }
}
