ghost use Rattle.std.specs.Prelude.{◌≡◌};
ghost use Rattle.gr_top.specs.Causes.{status_of};

use gr_history::Record;
use gr_script::ScriptFault;

/// Why the program ended.
#[derive(Clone, Copy, Debug, PartialEq, Eq)]
pub enum Cause {
    Finished,
    /// The place of the word that isn't understood, counted from 0.
    Usage(u32),
    ReadFault,
    /// The bytes that were taken, and the lines that were counted in them.
    TooLarge { bytes: u64, lines: u64 },
    Script(ScriptFault),
    WriteFault,
    Memory,
    /// The script has no member of this number.
    NoMember(u8),
    /// The query asks another region than the script's.
    OtherRegion,
}

impl Cause {
    /// The status that the program ends with.
    pub fn status(&self) -> u8
        ensures { result ≡ status_of self.now }
    {
        match self {
            Cause::Finished => 0,
            Cause::Usage(_) => 2,
            Cause::ReadFault => 3,
            Cause::TooLarge { .. } => 4,
            Cause::Script(_) => 5,
            Cause::WriteFault => 6,
            Cause::Memory => 7,
            Cause::NoMember(_) => 9,
            Cause::OtherRegion => 10,
        }
    }
}

/// How a call of the program ended.
#[derive(Drop)]
pub struct Outcome {
    pub status: u8,
    pub cause: Cause,
    /// The record, where a script was replayed to its end.
    pub kept: Option<Record>,
}
