ghost use Rattle.std.specs.Prelude.{◌≡◌, map, string_bytes, IfOk, MatchResult};
ghost use Rattle.gr_run_law.specs.Records.{IsRecordOfRun};
ghost use Rattle.gr_script.specs.Expanded.{expansion};
ghost use Rattle.gr_script.specs.Scripts.{heading_of};
ghost use Rattle.gr_top.specs.Causes.{status_of};
ghost use Rattle.gr_top.specs.Outcomes.{Answers, Explains, IsDrillOf, Leaves, Stops};
ghost use Rattle.gr_top.specs.Words.{IsFit, request_of};
ghost use Rattle.gr_top.specs.declared.words.Detail.{Detail as TheDetail};
ghost use Rattle.gr_top.specs.declared.words.Request.TheVariants as request;
ghost use Rattle.gr_io.specs.Streams.{IsUntouched, stream, Stream};

use crate::answering::answer_alone;
use crate::giving::script_from;
use crate::handing::{Played, ended, hand_out_summary, report_outcome};
use crate::words::{Detail, Request, request_of};
use crate::{Cause, Outcome};
use gr_durable::expand;
use gr_history::Record;
use gr_io::{Sink, Source};
use gr_runner::run;
use gr_script::{Form, Script, generate};
use gr_session::Gate;
use gr_value::Memory;
use std::alloc::Global;
use std::sync::Wait;
use std::thread::Threads;

// What threads leave of a script once it is expanded.
fn run_expanded<R: Threads + Wait + Sync, G: Gate>(
    rt: &R,
    alloc: Global,
    script: Script,
    gate: &G,
) -> Result<Record, Memory>
    ensures { IfOk result (IsRecordOfRun (heading_of script) (expansion script.lines)) }
{
    let expanded = expand(alloc, script)?;
    run(rt, alloc, &expanded, gate)
}

// What threads leave of the script that the source has.
fn run_record<R: Threads + Wait + Sync, S: Source, G: Gate>(
    rt: &R,
    alloc: Global,
    source: &mut S,
    gate: &G,
) -> Result<Played, Cause>
    ensures { (detail : TheDetail) → MatchResult result
        (λ played. Leaves (request.Run detail) (stream (S.left source.old) (S.left source.new) (S.faults source.old) (S.faults source.new)) detail played.record_of)
        (Stops (request.Run detail) (stream (S.left source.old) (S.left source.new) (S.faults source.old) (S.faults source.new))) }
{
    let script = match script_from(alloc, source, Form::Run) {
        Ok(script) => script,
        Err(cause) => return Err(cause),
    };
    match run_expanded(rt, alloc, script, gate) {
        Ok(record_of) => Ok(Played {
            record_of,
            room: Vec::new(alloc),
        }),
        Err(Memory) => Err(Cause::Memory),
    }
}

// Runs the script that the source has, and prints the report.
fn run_answer<R: Threads + Wait + Sync, S: Source, K: Sink, G: Gate>(
    rt: &R,
    alloc: Global,
    detail: Detail,
    source: &mut S,
    sink: &mut K,
    gate: &G,
) -> Outcome
    ensures status { result.status ≡ status_of result.cause }
    ensures explained { Explains (request.Run detail)
        (stream (S.left source.old) (S.left source.new) (S.faults source.old) (S.faults source.new))
        (stream (K.held sink.old) (K.held sink.new) (K.faults sink.old) (K.faults sink.new)) result.kept result.cause }
{
    let played = run_record(rt, alloc, source, gate);
    report_outcome(alloc, detail, played, sink)
}

// A drill that was run: its script, and what threads left of it.
#[derive(Drop)]
struct Drilled {
    script: Script,
    record_of: Record,
}

// Draws a script and runs it.
fn drill<R: Threads + Wait + Sync, G: Gate>(
    rt: &R,
    alloc: Global,
    start: u32,
    steps: u32,
    gate: &G,
) -> Result<Drilled, Memory>
    requires { IsFit (request.Drill start steps) }
    ensures { IfOk result (λ drilled. IsDrillOf start steps drilled.script drilled.record_of) }
{
    let script = generate(alloc, start, steps)?;
    let record_of = run(rt, alloc, &script, gate)?;
    Ok(Drilled { script, record_of })
}

// Draws a script, runs it and prints the summary.
fn drill_answer<R: Threads + Wait + Sync, K: Sink, G: Gate>(
    rt: &R,
    alloc: Global,
    start: u32,
    steps: u32,
    sink: &mut K,
    gate: &G,
) -> Outcome
    requires { IsFit (request.Drill start steps) }
    ensures status { result.status ≡ status_of result.cause }
    ensures explained { (source : Stream) → IsUntouched source → Explains (request.Drill start steps) source
        (stream (K.held sink.old) (K.held sink.new) (K.faults sink.old) (K.faults sink.new)) result.kept result.cause }
{
    match drill(rt, alloc, start, steps, gate) {
        Err(Memory) => ended(Cause::Memory, None),
        Ok(Drilled { script, record_of }) => {
            let cause = hand_out_summary(alloc, start, steps, &script, &record_of, sink);
            ended(cause, Some(record_of))
        }
    }
}

/// Answers the words with the script that the source has, and writes to the sink. A script is run with a
/// thread for each client and one for each member, and the gate is told of each step of a client.
pub fn georep<R: Threads + Wait + Sync, S: Source, K: Sink, G: Gate>(
    rt: &R,
    alloc: Global,
    words: &[String],
    source: &mut S,
    sink: &mut K,
    gate: &G,
) -> Outcome
    ensures status { result.status ≡ status_of result.cause }

    // What the cause says of the words, the source, the sink and the record. Whatever order, delay and
    // repeats the threads and their mail had, the record is a lawful run's.
    ensures explained { Answers (request_of (map (λ word. string_bytes word) words.now))
        (stream (S.left source.old) (S.left source.new) (S.faults source.old) (S.faults source.new))
        (stream (K.held sink.old) (K.held sink.new) (K.faults sink.old) (K.faults sink.new))
        result.kept result.cause }
{
    match request_of(alloc, words) {
        Err(cause) => ended(cause, None),
        Ok(Request::Alone(mode)) => answer_alone(alloc, mode, source, sink),
        Ok(Request::Run { detail }) => run_answer(rt, alloc, detail, source, sink, gate),
        Ok(Request::Drill { start, steps }) => drill_answer(rt, alloc, start, steps, sink, gate),
    }
}
