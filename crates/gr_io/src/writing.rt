ghost use Rattle.std.specs.Prelude.{◌≤◌, OnOk, OnErr, flat_map};
ghost use Rattle.std.specs.Io.KnownBytes.{Appends};
ghost use Rattle.gr_io.specs.Ends.{AppendsPart};
ghost use Rattle.gr_value.specs.Counts.{Rose};

use crate::{Sink, WriteFault};

/// Hands all bytes to a sink, and takes no memory.
pub fn write_all<K: Sink>(sink: &mut K, bytes: &[u8]) -> Result<(), WriteFault>
    ensures whole { OnOk result (Appends (K.held sink.old) (K.held sink.new) bytes.now) }
    ensures part { OnErr result (AppendsPart (K.held sink.old) (K.held sink.new) bytes.now) }
    ensures cause { OnErr result (Rose (K.faults sink.old) (K.faults sink.new)) }
    ensures never_falls { K.faults sink.old ≤ K.faults sink.new }
{
    let mut written = 0;
    while written < bytes.len() {
        written += sink.write(&bytes[written..])?;
    }
    Ok(())
}

/// Hands pieces of a text to a sink, one behind the other, and takes no memory.
pub fn write_each<K: Sink>(sink: &mut K, pieces: &[&str]) -> Result<(), WriteFault>
    ensures whole { OnOk result (Appends (K.held sink.old) (K.held sink.new) (flat_map (λ piece. piece.now) pieces.now)) }
    ensures part { OnErr result (AppendsPart (K.held sink.old) (K.held sink.new) (flat_map (λ piece. piece.now) pieces.now)) }
    ensures cause { OnErr result (Rose (K.faults sink.old) (K.faults sink.new)) }
    ensures never_falls { K.faults sink.old ≤ K.faults sink.new }
{
    match pieces {
        [] => Ok(()),
        [first, rest @ ..] => {
            write_all(sink, first.as_bytes())?;
            Ok(write_each(sink, rest)?)
        }
    }
}
