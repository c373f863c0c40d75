ghost use Rattle.std.specs.Prelude.{◌≡◌, ◌≤◌, IfOk, OnOk, OnErr};
ghost use Rattle.std.specs.Io.KnownBytes.{Appends};
ghost use Rattle.gr_io.specs.Ends.{AppendsPart};
ghost use Rattle.gr_top.specs.CauseTexts.{text_of_cause};
ghost use Rattle.gr_value.specs.Counts.{Rose};

use crate::Cause;
use gr_io::{Sink, StdSink, WriteFault, write_each};
use gr_value::Memory;
use itoa::Buffer;
use std::alloc::Global;

/// Hands the line of a cause to a sink, and takes no memory.
pub(crate) fn tell<K: Sink>(errors: &mut K, cause: &Cause) -> Result<(), WriteFault>
    ensures whole { OnOk result (Appends (K.held errors.old) (K.held errors.new) (text_of_cause cause.now)) }
    ensures part { OnErr result (AppendsPart (K.held errors.old) (K.held errors.new) (text_of_cause cause.now)) }
    ensures rose { OnErr result (Rose (K.faults errors.old) (K.faults errors.new)) }
    ensures never_falls { K.faults errors.old ≤ K.faults errors.new }
{
    match cause {
        Cause::Finished => write_each(errors, &[]),
        Cause::Usage(place) => {
            let mut number = Buffer::new();
            let number = number.format(u64::from(*place) + 1);
            write_each(errors, &["georep: word ", number, " isn't understood\n"])
        }
        Cause::ReadFault => write_each(errors, &["georep: the input can't be read\n"]),
        Cause::TooLarge { .. } => write_each(errors, &["georep: the script is too large\n"]),
        Cause::Script(fault) => {
            let (mut line, mut number) = (Buffer::new(), Buffer::new());
            let (line, number) = (
                line.format(fault.line),
                number.format(fault.reason.number()),
            );
            let name = fault.reason.name();
            write_each(
                errors,
                &["georep: line ", line, ": ", number, " ", name, "\n"],
            )
        }
        Cause::WriteFault => write_each(errors, &["georep: the output can't be written\n"]),
        Cause::Memory => write_each(errors, &["georep: no memory\n"]),
        Cause::NoMember(member) => {
            let mut number = Buffer::new();
            let number = number.format(*member);
            write_each(errors, &["georep: the script has no member ", number, "\n"])
        }
        Cause::OtherRegion => write_each(errors, &["georep: the query asks another region\n"]),
    }
}

/// The line that says why the program ended, with its line feed; nothing where it finished.
pub fn cause_text(alloc: Global, cause: &Cause) -> Result<Vec<u8>, Memory>
    ensures { IfOk result (λ text. text.items ≡ text_of_cause cause.now) }
{
    let mut out = StdSink::new(Vec::new(alloc));
    match tell(&mut out, cause) {
        Ok(()) => Ok(out.into_inner()),
        Err(WriteFault) => Err(Memory),
    }
}
