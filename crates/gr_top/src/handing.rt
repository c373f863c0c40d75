ghost use Rattle.std.specs.Prelude.{◌≡◌, Some, MatchResult};
ghost use Rattle.gr_report.specs.Summary.{summary_of};
ghost use Rattle.gr_top.specs.Causes.{status_of};
ghost use Rattle.gr_top.specs.Outcomes.{Explains, IsWithinMost, IsWritten, Keeps, Leaves, Prints, Stops};
ghost use Rattle.gr_top.specs.declared.words.Request.{Request as TheRequest};
ghost use Rattle.gr_io.specs.Streams.{stream, Stream};

use crate::report_texts::report_text;
use crate::words::Detail;
use crate::{Cause, Outcome};
use gr_history::Record;
use gr_io::{Sink, write_all};
use gr_report::summary;
use gr_script::Script;
use gr_value::Memory;
use std::alloc::Global;

/// Writes a text, and says whether all of it was written.
pub(crate) fn hand_out<K: Sink>(sink: &mut K, text: &[u8]) -> Cause
    ensures { IsWritten (stream (K.held sink.old) (K.held sink.new) (K.faults sink.old) (K.faults sink.new)) text.now result }
{
    match write_all(sink, text) {
        Ok(()) => Cause::Finished,
        Err(_) => Cause::WriteFault,
    }
}

// Prints the report into the room, and hands it out.
#[tactic(auto, using(crate::proofs::Endings::written_explains))]
fn hand_out_report<K: Sink>(
    alloc: Global,
    room: Vec<u8>,
    detail: Detail,
    record_of: &Record,
    sink: &mut K,
) -> Cause
    ensures { (request : TheRequest) (source : Stream) → Leaves request source detail record_of.now
        → Explains request source
        (stream (K.held sink.old) (K.held sink.new) (K.faults sink.old) (K.faults sink.new)) (Some record_of.now) result }
{
    match report_text(alloc, room, detail, record_of) {
        Ok(text) => hand_out(sink, text.as_slice()),
        Err(Memory) => Cause::Memory,
    }
}

/// A record, and memory that its report may take.
#[derive(Drop)]
pub(crate) struct Played {
    pub(crate) record_of: Record,
    pub(crate) room: Vec<u8>,
}

/// Prints the report of what was played, or tells why nothing was.
pub(crate) fn report_outcome<K: Sink>(
    alloc: Global,
    detail: Detail,
    played: Result<Played, Cause>,
    sink: &mut K,
) -> Outcome
    ensures status { result.status ≡ status_of result.cause }
    ensures explained { (request : TheRequest) (source : Stream)
        → MatchResult played (λ one. Leaves request source detail one.record_of) (Stops request source)
        → Explains request source
        (stream (K.held sink.old) (K.held sink.new) (K.faults sink.old) (K.faults sink.new)) result.kept result.cause }
{
    match played {
        Err(cause) => ended(cause, None),
        Ok(Played { record_of, room }) => {
            let cause = hand_out_report(alloc, room, detail, &record_of, sink);
            ended(cause, Some(record_of))
        }
    }
}

/// Prints the summary of a drill, and hands it out.
#[tactic(auto, using(crate::proofs::Endings::written_explains))]
pub(crate) fn hand_out_summary<K: Sink>(
    alloc: Global,
    start: u32,
    steps: u32,
    script: &Script,
    record_of: &Record,
    sink: &mut K,
) -> Cause
    ensures { (request : TheRequest) (source : Stream) → Keeps request source (Some record_of.now) → IsWithinMost source
        → Prints request source (Some record_of.now) (summary_of start steps script.now record_of.now)
        → Explains request source
        (stream (K.held sink.old) (K.held sink.new) (K.faults sink.old) (K.faults sink.new)) (Some record_of.now) result }
{
    match summary(alloc, start, steps, script, record_of) {
        Ok(text) => hand_out(sink, text.as_slice()),
        Err(Memory) => Cause::Memory,
    }
}

/// That a call ended by this cause, with this record.
pub(crate) fn ended(cause: Cause, kept: Option<Record>) -> Outcome
    ensures { result ≡ record { status = status_of cause; cause = cause; kept = kept } }
{
    Outcome {
        status: cause.status(),
        cause,
        kept,
    }
}
