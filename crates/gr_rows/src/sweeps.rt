use crate::ending::{Ending, end_of};
use crate::files::row_of;
use crate::row::{Moves, Row};
use crate::running::{Left, run_alone};
use std::alloc::Global;
use std::io::{self, Print};
use std::rt::Files;

/// The row whose script is played.
const NAME: &str = "trade-orders-a";

/// The most bytes that a call moves.
const PIECES: [usize; 3] = [1, 7, 64];

/// More calls than a run makes here.
const CALLS: u64 = 10_000;

/// The stream of which a call fails.
#[derive(Clone, Copy)]
enum Stream {
    Source,
    Sink,
}

impl Stream {
    fn word(self) -> &'static str {
        match self {
            Stream::Source => "source",
            Stream::Sink => "sink",
        }
    }

    // What a run of the row leaves in which one call fails.
    fn left(self, alloc: Global, row: &Row, piece: usize, call: u64) -> io::Result<Left> {
        let mut failing = Row::given(alloc, &["replay"], row.script.as_slice())?;
        let moves = Moves::failing(alloc, piece, call)?;
        match self {
            Stream::Source => failing.source = moves,
            Stream::Sink => failing.sink = moves,
        }
        run_alone(alloc, failing)
    }

    // The status and the message of a run in which a call failed.
    fn end(self) -> (&'static str, &'static str) {
        match self {
            Stream::Source => ("3", "georep: the input can't be read\n"),
            Stream::Sink => ("6", "georep: the output can't be written\n"),
        }
    }

    // Whether a run ended as it must where this call failed. Each call before it took a byte at least.
    fn is_failed(self, row: &Row, left: &Left, call: u64) -> bool {
        let (status, message) = self.end();
        let held = left.output.held();
        let is_output_so = match self {
            Stream::Source => held.is_empty(),
            Stream::Sink => {
                row.report.as_bytes().starts_with(held)
                    && held.len() as u64 >= call.saturating_sub(1)
            }
        };
        left.status.as_str() == status && left.message.held() == message.as_bytes() && is_output_so
    }

    // How many calls a run makes, each of which failed in a run of its own, or the first call that ended a
    // run otherwise than it must.
    fn failed(self, alloc: Global, row: &Row, piece: usize) -> io::Result<Result<u64, u64>> {
        for call in 1..CALLS {
            let left = self.left(alloc, row, piece, call)?;
            if left.output.held() == row.report.as_bytes() && left.status.as_str() == "0" {
                return Ok(Ok(call.saturating_sub(1)));
            }
            if !self.is_failed(row, &left, call) {
                return Ok(Err(call));
            }
        }
        Ok(Err(CALLS))
    }
}

// Has each call of a stream fail, and prints how many there are.
fn fail_stream<R: Print + AllocGlobal>(
    rt: &R,
    row: &Row,
    stream: Stream,
    piece: usize,
) -> io::Result<()> {
    let word = stream.word();
    match stream.failed(rt.alloc(), row, piece)? {
        Ok(calls) => println!(rt; "{NAME}, {word} in pieces of {piece}: {calls} calls failed"),
        Err(call) => {
            println!(rt; "{NAME}, {word} in pieces of {piece}: call {call} ends otherwise")
        }
    }
}

/// Has each call of the source and of the sink fail, each in a run of its own.
pub fn fail_calls<R: Files + Print + AllocGlobal>(rt: &R) -> io::Result<()> {
    let row = row_of(rt, NAME)?;
    for piece in PIECES {
        fail_stream(rt, &row, Stream::Source, piece)?;
        fail_stream(rt, &row, Stream::Sink, piece)?;
    }
    Ok(())
}

// What a replay of the first bytes of a script comes to.
fn prefix_ending(alloc: Global, script: &[u8]) -> io::Result<Option<Ending>> {
    let left = run_alone(alloc, Row::given(alloc, &["replay"], script)?)?;
    Ok(end_of(&left, script))
}

/// Plays each prefix of the script, and prints how many were finished and how many refused.
pub fn play_prefixes<R: Files + Print + AllocGlobal>(rt: &R) -> io::Result<()> {
    let row = row_of(rt, NAME)?;
    let (mut finished, mut refused, mut otherwise) = (0u64, 0u64, 0u64);
    for count in 0..row.script.len().saturating_add(1) {
        let (prefix, _) = row
            .script
            .as_slice()
            .split_at_checked(count)
            .unwrap_or((&[], &[]));
        match prefix_ending(rt.alloc(), prefix)? {
            Some(Ending::Finished) => finished = finished.saturating_add(1),
            Some(Ending::Refused) => refused = refused.saturating_add(1),
            None => otherwise = otherwise.saturating_add(1),
        }
    }
    println!(rt; "{NAME}, prefixes: {finished} finished, {refused} refused, {otherwise} otherwise")
}
