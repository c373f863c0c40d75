ghost use Rattle.std.specs.Prelude.{◌≡◌, ℕ, List, Some, Ok, false, IfOk, MatchResult};
ghost use Rattle.gr_script.specs.Said.{script_of};
ghost use Rattle.gr_script.specs.Scripts.{heading_of};
ghost use Rattle.gr_world.specs.Played.{IsPlayed};
ghost use Rattle.gr_top.specs.Causes.{status_of};
ghost use Rattle.gr_top.specs.Outcomes.{Explains, IsReplayFor, Stops};
ghost use Rattle.gr_top.specs.Wants.{HasWanted, IsElsewhere, IsOwn, LacksWanted};
ghost use Rattle.gr_top.specs.declared.cause.Cause.TheVariants as cause;
ghost use Rattle.gr_top.specs.declared.words.Mode.TheVariants as mode;
ghost use Rattle.gr_top.specs.declared.words.Request.TheVariants as request;
ghost use Rattle.gr_io.specs.Streams.{stream, Stream};

use crate::giving::script_from;
use crate::handing::{ended, hand_out};
use crate::{Cause, Outcome};
use gr_ask::{Wanted, wanted_text};
use gr_depart::replay;
use gr_durable::expand;
use gr_history::Record;
use gr_io::{Sink, Source};
use gr_script::{Form, Script};
use gr_value::Memory;
use std::alloc::Global;

// Looks for the region of a query.
fn find_region(wanted: &Wanted, script: &Script) -> Result<(), Cause>
    ensures { MatchResult result (λ _. IsOwn wanted.now (heading_of script.now))
        (λ why. (why ≡ cause.OtherRegion) × IsElsewhere wanted.now (heading_of script.now)) }
{
    match wanted {
        Wanted::Events => Ok(()),
        Wanted::Rows(query) if query.region().bytes() != script.region.bytes() => {
            Err(Cause::OtherRegion)
        }
        Wanted::Rows(_) => Ok(()),
    }
}

// Looks for the member in the script, and then for the region.
fn find_wanted(member: u8, wanted: &Wanted, script: &Script) -> Result<(), Cause>
    ensures { MatchResult result (λ _. HasWanted member wanted.now (heading_of script.now))
        (LacksWanted member wanted.now (heading_of script.now)) }
{
    if script.members < member {
        return Err(Cause::NoMember(member));
    }
    find_region(wanted, script)
}

// The record of a script, expanded.
fn replayed(alloc: Global, script: Script) -> Result<Record, Memory>
    ensures { (text : List ℕ) → script_of false text ≡ Ok (heading_of script, script.lines) → IfOk result (IsPlayed text) }
{
    let expanded = expand(alloc, script)?;
    replay(alloc, &expanded)
}

// The record of the script that the source has, where that has what is wanted.
fn record_for<S: Source>(
    alloc: Global,
    member: u8,
    wanted: &Wanted,
    source: &mut S,
) -> Result<Record, Cause>
    ensures { MatchResult result
        (IsReplayFor member wanted.now (stream (S.left source.old) (S.left source.new) (S.faults source.old) (S.faults source.new)))
        (Stops (request.Alone (mode.At member wanted.now)) (stream (S.left source.old) (S.left source.new) (S.faults source.old) (S.faults source.new))) }
{
    let script = script_from(alloc, source, Form::Replay)?;
    find_wanted(member, wanted, &script)?;
    match replayed(alloc, script) {
        Ok(record_of) => Ok(record_of),
        Err(Memory) => Err(Cause::Memory),
    }
}

// Prints what is wanted of a member, and hands it out.
#[tactic(auto, using(crate::proofs::Endings::written_explains))]
fn hand_out_wanted<K: Sink>(
    alloc: Global,
    member: u8,
    wanted: &Wanted,
    record_of: &Record,
    sink: &mut K,
) -> Cause
    ensures { (source : Stream) → IsReplayFor member wanted.now source record_of.now
        → Explains (request.Alone (mode.At member wanted.now)) source
        (stream (K.held sink.old) (K.held sink.new) (K.faults sink.old) (K.faults sink.new)) (Some record_of.now) result }
{
    match wanted_text(alloc, member, wanted, record_of) {
        Ok(text) => hand_out(sink, text.as_slice()),
        Err(Memory) => Cause::Memory,
    }
}

/// Replays the script that the source has, and prints what is wanted of a member.
pub(crate) fn answer_at<S: Source, K: Sink>(
    alloc: Global,
    member: u8,
    wanted: &Wanted,
    source: &mut S,
    sink: &mut K,
) -> Outcome
    ensures status { result.status ≡ status_of result.cause }
    ensures explained { Explains (request.Alone (mode.At member wanted.now))
        (stream (S.left source.old) (S.left source.new) (S.faults source.old) (S.faults source.new))
        (stream (K.held sink.old) (K.held sink.new) (K.faults sink.old) (K.faults sink.new)) result.kept result.cause }
{
    match record_for(alloc, member, wanted, source) {
        Err(cause) => ended(cause, None),
        Ok(record_of) => {
            let cause = hand_out_wanted(alloc, member, wanted, &record_of, sink);
            ended(cause, Some(record_of))
        }
    }
}
