ghost use Rattle.std.specs.Prelude.{◌≡◌};
ghost use Rattle.std.specs.Process.{exit_status};
ghost use Rattle.gr_top.specs.Outcomes.{EndsSo};
ghost use Rattle.gr_io.specs.Streams.{stream};

use gr_io::{Sink, Source};
use gr_top::{Arguments, Cause, conclude, given_words, program};
use gr_value::Memory;
use std::alloc::Global;
use std::io::Eprint;
use std::process::{ExitCode, Termination};
use std::sync::Wait;
use std::thread::Threads;

/// That the program ended, and its status. Only `answer` makes one, and it can't be let go: a `main` that
/// returns one has run the program and ends with its status.
pub struct Ended {
    status: u8,
}

impl Termination for Ended {
    fn report<R: Eprint>(self, _rt: &R) -> ExitCode
        ensures { exit_status result ≡ self.status }
    {
        let Ended { status } = self;
        ExitCode::from(status)
    }
}

/// Runs the program over these arguments and streams, whatever they are.
pub fn answer<R: Threads + Wait + Sync, A: Arguments, S: Source, K: Sink, E: Sink>(
    rt: &R,
    alloc: Global,
    arguments: &A,
    source: &mut S,
    sink: &mut K,
    errors: &mut E,
) -> Ended
    ensures { EndsSo (A.list arguments.now)
        (stream (S.left source.old) (S.left source.new) (S.faults source.old) (S.faults source.new))
        (stream (K.held sink.old) (K.held sink.new) (K.faults sink.old) (K.faults sink.new))
        (stream (E.held errors.old) (E.held errors.new) (E.faults errors.old) (E.faults errors.new))
        result.status }
{
    let status = match given_words(alloc, arguments) {
        Ok(words) => program(rt, alloc, words.as_slice(), source, sink, errors),
        Err(Memory) => conclude(errors, &Cause::Memory),
    };
    Ended { status }
}
