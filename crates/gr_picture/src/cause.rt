ghost use Rattle.std.specs.Prelude.{◌≡◌};
ghost use Rattle.gr_picture.specs.Statuses.{status_of};

/// Why the program ended.
#[derive(Clone, Copy, Debug, PartialEq, Eq)]
pub enum Cause {
    Finished,
    /// The input failed.
    ReadFault,
    /// The report has more bytes than are read.
    TooLarge,
    /// The line, counted from 1, that isn't what a report with histories has there.
    Line(usize),
    /// The output failed.
    WriteFault,
    /// Memory was refused.
    Memory,
}

impl Cause {
    /// The status that the program ends with, the same as georep's for such a cause.
    pub fn status(self) -> u8
        ensures { result ≡ status_of self }
    {
        match self {
            Cause::Finished => 0,
            Cause::ReadFault => 3,
            Cause::TooLarge => 4,
            Cause::Line(_) => 5,
            Cause::WriteFault => 6,
            Cause::Memory => 7,
        }
    }
}
