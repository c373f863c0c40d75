ghost use Rattle.std.specs.Prelude.{◌≡◌, map, string_bytes};
ghost use Rattle.gr_top.specs.Causes.{status_of};
ghost use Rattle.gr_top.specs.Outcomes.{IsAnswered, IsTold};
ghost use Rattle.gr_io.specs.Streams.{stream};

use crate::cause_texts::tell;
use crate::running::georep;
use crate::{Cause, Outcome};
use gr_io::{Sink, Source};
use gr_session::FreeGate;
use std::alloc::Global;
use std::mem;
use std::sync::Wait;
use std::thread::Threads;

/// Writes the line of a cause, and gives the status to end with. It takes no memory.
pub fn conclude<E: Sink>(errors: &mut E, cause: &Cause) -> u8
    ensures status { result ≡ status_of cause.now }
    ensures told { IsTold (stream (E.held errors.old) (E.held errors.new) (E.faults errors.old) (E.faults errors.new)) cause.now }
{
    // Where the line can't be written the status alone tells.
    let _ = tell(errors, cause);
    cause.status()
}

/// The whole program: answers the words with the script that the source has, writes the report to the
/// sink and the line of the cause to `errors`, and gives the status to end with. It is the last thing
/// that a process does: the record that was kept isn't freed.
pub fn program<R: Threads + Wait + Sync, S: Source, K: Sink, E: Sink>(
    rt: &R,
    alloc: Global,
    words: &[String],
    source: &mut S,
    sink: &mut K,
    errors: &mut E,
) -> u8
    ensures { IsAnswered (map (λ word. string_bytes word) words.now)
        (stream (S.left source.old) (S.left source.new) (S.faults source.old) (S.faults source.new))
        (stream (K.held sink.old) (K.held sink.new) (K.faults sink.old) (K.faults sink.new))
        (stream (E.held errors.old) (E.held errors.new) (E.faults errors.old) (E.faults errors.new))
        result }
{
    let Outcome { cause, kept, .. } = georep(rt, alloc, words, source, sink, &FreeGate);
    let status = conclude(errors, &cause);
    mem::forget(kept);
    status
}
