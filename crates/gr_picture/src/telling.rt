ghost use Rattle.std.specs.Prelude.{◌≤◌, OnOk, OnErr};
ghost use Rattle.std.specs.Io.KnownBytes.{Appends};
ghost use Rattle.gr_io.specs.Ends.{AppendsPart};
ghost use Rattle.gr_picture.specs.CauseTexts.{text_of_cause};
ghost use Rattle.gr_value.specs.Counts.{Rose};

use crate::cause::Cause;
use gr_io::{Sink, WriteFault, write_each};
use itoa::Buffer;

/// Hands the line of a cause to a sink, and takes no memory.
pub fn tell<K: Sink>(errors: &mut K, cause: Cause) -> Result<(), WriteFault>
    ensures whole { OnOk result (Appends (K.held errors.old) (K.held errors.new) (text_of_cause cause)) }
    ensures part { OnErr result (AppendsPart (K.held errors.old) (K.held errors.new) (text_of_cause cause)) }
    ensures rose { OnErr result (Rose (K.faults errors.old) (K.faults errors.new)) }
    ensures never_falls { K.faults errors.old ≤ K.faults errors.new }
{
    match cause {
        Cause::Finished => write_each(errors, &[]),
        Cause::ReadFault => write_each(errors, &["georep_picture: the input can't be read\n"]),
        Cause::TooLarge => write_each(errors, &["georep_picture: the report is too large\n"]),
        Cause::Line(line) => {
            let mut number = Buffer::new();
            let number = number.format(line);
            write_each(
                errors,
                &[
                    "georep_picture: line ",
                    number,
                    ": not what a report with histories has there\n",
                ],
            )
        }
        Cause::WriteFault => {
            write_each(errors, &["georep_picture: the output can't be written\n"])
        }
        Cause::Memory => write_each(errors, &["georep_picture: no memory\n"]),
    }
}
