ghost use Rattle.std.specs.Prelude.{◌≡◌, Some};
ghost use Rattle.gr_value.specs.declared.fault.KeyFault.TheVariants.{Memory as OutOfMemory};
ghost use Rattle.gr_value.specs.declared.fault.ValueFault.TheVariants.{Memory as NoMemory};
ghost use Rattle.gr_value.specs.FaultTexts.{text_of_key_fault, text_of_value_fault};

use crate::Memory;
use std::error::Error;
use std::fmt;

/// Why bytes are no key, in the order in which it is looked for.
#[derive(Clone, Copy, Debug, PartialEq, Eq)]
pub enum KeyFault {
    Empty,
    /// More than 255 bytes.
    TooLong,
    /// The place of the first byte outside 0x21 to 0x7E, counted from 0.
    BadByte(u32),
    Memory,
}

impl From<Memory> for KeyFault {
    ghost from_gives = { λ _ fault. fault ≡ OutOfMemory };

    fn from(_: Memory) -> KeyFault {
        KeyFault::Memory
    }
}

impl fmt::Display for KeyFault {
    ghost output = { λ fault. Some (text_of_key_fault fault) };

    fn fmt<W: fmt::Write>(&self, f: &mut fmt::Formatter<W>) -> fmt::Result {
        match self {
            KeyFault::Empty => write!(f, "a key has at least one byte"),
            KeyFault::TooLong => write!(f, "a key has at most 255 bytes"),
            KeyFault::BadByte(place) => write!(f, "no byte of a key, at {place}"),
            KeyFault::Memory => write!(f, "no memory"),
        }
    }
}

impl Error for KeyFault {}

/// Why bytes are no value, in the order in which it is looked for. Places count the fields in the
/// order of their names, from 0; of `Nested` and `NotWhole` the least place is answered.
#[derive(Clone, Copy, Debug, PartialEq, Eq)]
pub enum ValueFault {
    /// More than 1,024 bytes.
    TooLong,
    NotJson,
    NotObject,
    /// The field at this place holds an array or an object.
    Nested(u32),
    /// The field at this place holds a number that is no whole number of 64 bits with a sign.
    NotWhole(u32),
    Memory,
}

impl From<Memory> for ValueFault {
    ghost from_gives = { λ _ fault. fault ≡ NoMemory };

    fn from(_: Memory) -> ValueFault {
        ValueFault::Memory
    }
}

impl fmt::Display for ValueFault {
    ghost output = { λ fault. Some (text_of_value_fault fault) };

    fn fmt<W: fmt::Write>(&self, f: &mut fmt::Formatter<W>) -> fmt::Result {
        match self {
            ValueFault::TooLong => write!(f, "a value has at most 1024 bytes"),
            ValueFault::NotJson => write!(f, "a value is JSON"),
            ValueFault::NotObject => write!(f, "a value is an object"),
            ValueFault::Nested(place) => write!(f, "field {place} holds an array or an object"),
            ValueFault::NotWhole(place) => write!(f, "field {place} holds no whole number"),
            ValueFault::Memory => write!(f, "no memory"),
        }
    }
}

impl Error for ValueFault {}
