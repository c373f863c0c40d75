ghost use Rattle.std.specs.Prelude.{◌≡◌, MatchResult, string_bytes};
ghost use Rattle.gr_picture.specs.Statuses.{status_of};
ghost use Rattle.gr_picture.specs.Outcomes.{Explains, IsDrawn, IsRun, IsTold, IsWhole, Stops};
ghost use Rattle.gr_io.specs.Streams.{stream};

use crate::cause::Cause;
use crate::drawing::drawn;
use crate::halt::Halt;
use crate::telling::tell;
use gr_io::{ReadEnd, Sink, Source, read_all, write_all};
use std::alloc::Global;

/// The most bytes of a report.
const MOST_BYTES: u64 = 0x400_0000;

// All that the source has.
fn report_from<S: Source>(alloc: Global, source: &mut S) -> Result<Vec<u8>, Cause>
    ensures { MatchResult result
        (λ report. IsWhole (stream (S.left source.old) (S.left source.new) (S.faults source.old) (S.faults source.new)) report.items)
        (Stops (stream (S.left source.old) (S.left source.new) (S.faults source.old) (S.faults source.new))) }
{
    match read_all(alloc, source, MOST_BYTES) {
        Ok(report) => Ok(report),
        Err(ReadEnd::Fault) => Err(Cause::ReadFault),
        Err(ReadEnd::TooLarge(_)) => Err(Cause::TooLarge),
        Err(ReadEnd::Memory) => Err(Cause::Memory),
    }
}

// The picture of the report that the source has.
fn picture_from<S: Source>(alloc: Global, source: &mut S) -> Result<String, Cause>
    ensures { MatchResult result
        (λ picture. IsDrawn (stream (S.left source.old) (S.left source.new) (S.faults source.old) (S.faults source.new)) (string_bytes picture))
        (Stops (stream (S.left source.old) (S.left source.new) (S.faults source.old) (S.faults source.new))) }
{
    let report = report_from(alloc, source)?;
    match drawn(alloc, report.as_slice()) {
        Ok(picture) => Ok(picture),
        Err(Halt::Line(line)) => Err(Cause::Line(line)),
        Err(Halt::Memory) => Err(Cause::Memory),
    }
}

// Draws the report that the source has, and writes its picture.
fn draw<S: Source, K: Sink>(alloc: Global, source: &mut S, sink: &mut K) -> Cause
    ensures { Explains
        (stream (S.left source.old) (S.left source.new) (S.faults source.old) (S.faults source.new))
        (stream (K.held sink.old) (K.held sink.new) (K.faults sink.old) (K.faults sink.new)) result }
{
    let picture = match picture_from(alloc, source) {
        Ok(picture) => picture,
        Err(cause) => return cause,
    };
    match write_all(sink, picture.as_bytes()) {
        Ok(()) => Cause::Finished,
        Err(_) => Cause::WriteFault,
    }
}

// Writes the line of a cause, and gives the status to end with. It takes no memory.
fn conclude<E: Sink>(errors: &mut E, cause: Cause) -> u8
    ensures status { result ≡ status_of cause }
    ensures told { IsTold (stream (E.held errors.old) (E.held errors.new) (E.faults errors.old) (E.faults errors.new)) cause }
{
    // Where the line can't be written the status alone tells.
    let _ = tell(errors, cause);
    cause.status()
}

/// The whole program: draws the report that the source has, writes its picture to the sink and the line
/// of the cause to `errors`, and gives the status to end with.
pub fn program<S: Source, K: Sink, E: Sink>(
    alloc: Global,
    source: &mut S,
    sink: &mut K,
    errors: &mut E,
) -> u8
    ensures { IsRun
        (stream (S.left source.old) (S.left source.new) (S.faults source.old) (S.faults source.new))
        (stream (K.held sink.old) (K.held sink.new) (K.faults sink.old) (K.faults sink.new))
        (stream (E.held errors.old) (E.held errors.new) (E.faults errors.old) (E.faults errors.new))
        result }
{
    let cause = draw(alloc, source, sink);
    conclude(errors, cause)
}
