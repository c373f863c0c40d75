ghost use Rattle.std.specs.Prelude.{◌≡◌, map, string_bytes, None, MatchResult};
ghost use Rattle.gr_top.specs.Causes.{status_of};
ghost use Rattle.gr_top.specs.Outcomes.{Answers, Explains, IsPrinted, Leaves, Stops};
ghost use Rattle.gr_top.specs.Words.{asked_alone, mode_of};
ghost use Rattle.gr_top.specs.declared.words.Detail.{Detail as TheDetail};
ghost use Rattle.gr_top.specs.declared.words.Mode.TheVariants as mode;
ghost use Rattle.gr_top.specs.declared.words.Request.TheVariants as request;
ghost use Rattle.gr_io.specs.Streams.{stream};

use crate::asking::answer_at;
use crate::giving::{cause_of, text_from};
use crate::handing::{Played, ended, hand_out, report_outcome};
use crate::words::{Detail, Mode, mode_of};
use crate::{Cause, Outcome};
use gr_depart::play_text;
use gr_io::{Sink, Source};
use gr_script::reprint;
use std::alloc::Global;

// The text of the script that the source has.
fn printed<S: Source>(alloc: Global, source: &mut S) -> Result<Vec<u8>, Cause>
    ensures { MatchResult result
        (λ text. IsPrinted (stream (S.left source.old) (S.left source.new) (S.faults source.old) (S.faults source.new)) text.items)
        (Stops (request.Alone mode.Check) (stream (S.left source.old) (S.left source.new) (S.faults source.old) (S.faults source.new))) }
{
    let text = text_from(alloc, source)?;
    let bytes = text.as_slice();
    match reprint(alloc, bytes) {
        Ok(out) => Ok(out),
        Err(end) => Err(cause_of(end, bytes)),
    }
}

// Hands out the text of the script that the source has.
fn check<S: Source, K: Sink>(alloc: Global, source: &mut S, sink: &mut K) -> Cause
    ensures { Explains (request.Alone mode.Check)
        (stream (S.left source.old) (S.left source.new) (S.faults source.old) (S.faults source.new))
        (stream (K.held sink.old) (K.held sink.new) (K.faults sink.old) (K.faults sink.new)) None result }
{
    match printed(alloc, source) {
        Ok(text) => hand_out(sink, text.as_slice()),
        Err(cause) => cause,
    }
}

// The record of the script that the source has, and the memory of its text.
fn replay_record<S: Source>(alloc: Global, source: &mut S) -> Result<Played, Cause>
    ensures { (detail : TheDetail) → MatchResult result
        (λ played. Leaves (request.Alone (mode.Replay detail)) (stream (S.left source.old) (S.left source.new) (S.faults source.old) (S.faults source.new)) detail played.record_of)
        (Stops (request.Alone (mode.Replay detail)) (stream (S.left source.old) (S.left source.new) (S.faults source.old) (S.faults source.new))) }
{
    let text = text_from(alloc, source)?;
    let bytes = text.as_slice();
    match play_text(alloc, bytes) {
        Ok(record_of) => Ok(Played {
            record_of,
            room: text,
        }),
        Err(end) => Err(cause_of(end, bytes)),
    }
}

// Replays the script that the source has, and prints the report.
fn replay_answer<S: Source, K: Sink>(
    alloc: Global,
    detail: Detail,
    source: &mut S,
    sink: &mut K,
) -> Outcome
    ensures status { result.status ≡ status_of result.cause }
    ensures explained { Explains (request.Alone (mode.Replay detail))
        (stream (S.left source.old) (S.left source.new) (S.faults source.old) (S.faults source.new))
        (stream (K.held sink.old) (K.held sink.new) (K.faults sink.old) (K.faults sink.new)) result.kept result.cause }
{
    let played = replay_record(alloc, source);
    report_outcome(alloc, detail, played, sink)
}

/// Answers a mode that needs no threads.
pub(crate) fn answer_alone<S: Source, K: Sink>(
    alloc: Global,
    mode: Mode,
    source: &mut S,
    sink: &mut K,
) -> Outcome
    ensures status { result.status ≡ status_of result.cause }
    ensures explained { Explains (request.Alone mode)
        (stream (S.left source.old) (S.left source.new) (S.faults source.old) (S.faults source.new))
        (stream (K.held sink.old) (K.held sink.new) (K.faults sink.old) (K.faults sink.new)) result.kept result.cause }
{
    match mode {
        Mode::Check => ended(check(alloc, source, sink), None),
        Mode::Replay { detail } => replay_answer(alloc, detail, source, sink),
        Mode::At { member, wanted } => answer_at(alloc, member, &wanted, source, sink),
    }
}

/// Answers the words with the script that the source has, and writes to the sink. Of the modes it
/// understands those that need no threads, and it waits for nothing.
pub fn replay_words<S: Source, K: Sink>(
    alloc: Global,
    words: &[String],
    source: &mut S,
    sink: &mut K,
) -> Outcome
    ensures status { result.status ≡ status_of result.cause }

    // What the cause says of the words, the source, the sink and the record. A word isn't understood
    // exactly where the words aren't those of a mode.
    ensures explained { Answers (asked_alone (mode_of (map (λ word. string_bytes word) words.now)))
        (stream (S.left source.old) (S.left source.new) (S.faults source.old) (S.faults source.new))
        (stream (K.held sink.old) (K.held sink.new) (K.faults sink.old) (K.faults sink.new))
        result.kept result.cause }
{
    match mode_of(alloc, words) {
        Err(cause) => ended(cause, None),
        Ok(mode) => answer_alone(alloc, mode, source, sink),
    }
}
