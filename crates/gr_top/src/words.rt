ghost use Rattle.std.specs.Prelude.{◌≡◌, map, string_bytes, IfOk};
ghost use Rattle.gr_top.specs.Words.{alone, asked_alone, asked_replay, asked_run, behind_drill, behind_flag, behind_report};
ghost use Rattle.gr_top.specs.Words.{behind_start, IsFit, mode_of, number_in, request_of, told_behind, Understands};

use crate::Cause;
use crate::member_words::{behind_ask, behind_events};
use gr_ask::Wanted;
use gr_script::number_of;
use std::alloc::Global;

/// What a report tells besides what clients were told and what stands at the members.
#[derive(Clone, Copy)]
pub(crate) enum Detail {
    /// Nothing more.
    Plain,
    /// All that happened at each shard.
    Histories,
    /// What clients hold of their queries.
    Tables,
}

/// What needs no threads.
#[derive(Drop)]
pub(crate) enum Mode {
    /// Prints the script.
    Check,
    /// Replays the script and prints the report.
    Replay { detail: Detail },
    /// Replays the script and prints what is wanted of this member.
    At { member: u8, wanted: Wanted },
}

/// What the words ask for.
#[derive(Drop)]
pub(crate) enum Request {
    Alone(Mode),
    /// Runs the script and prints the report.
    Run { detail: Detail },
    /// Draws a script of so many steps, runs it and prints the summary.
    Drill { start: u32, steps: u32 },
}

/// The greatest number that a drill is drawn from.
const MOST_START: u32 = 2_147_483_646;

/// The most steps of a drill.
const MOST_STEPS: u32 = 50_000;

/// What is asked for, where no word is left.
pub(crate) fn alone<X: Drop>(place: u32, asked: X, words: &[String]) -> Result<X, u32>
    ensures { result ≡ alone place asked (map (λ word. string_bytes word) words.now) }
{
    if words.is_empty() {
        Ok(asked)
    } else {
        Err(place)
    }
}

fn behind_report(words: &[String]) -> Result<Detail, u32>
    ensures { result ≡ behind_report (map (λ word. string_bytes word) words.now) }
{
    let [word, rest @ ..] = words else {
        return Ok(Detail::Plain);
    };
    match word.as_str() {
        "--history" => alone(2, Detail::Histories, rest),
        "--tables" => alone(2, Detail::Tables, rest),
        _ => Err(1),
    }
}

fn asked_replay(detail: Result<Detail, u32>) -> Result<Mode, u32>
    ensures { result ≡ asked_replay detail }
{
    match detail {
        Ok(detail) => Ok(Mode::Replay { detail }),
        Err(place) => Err(place),
    }
}

fn behind_flag(detail: Detail, words: &[String]) -> Result<Mode, u32>
    ensures { result ≡ behind_flag detail (map (λ word. string_bytes word) words.now) }
{
    match words {
        [word, rest @ ..] if word.as_str() == "replay" => alone(2, Mode::Replay { detail }, rest),
        _ => Err(1),
    }
}

/// What is understood of words, by the cause that is told where they aren't.
pub(crate) fn understood<X>(asked: Result<X, u32>) -> Result<X, Cause>
    ensures { Understands asked result }
{
    match asked {
        Ok(asked) => Ok(asked),
        Err(place) => Err(Cause::Usage(place)),
    }
}

/// The mode that the words name, or the place of the first word that isn't understood, counted from 0.
pub(crate) fn mode_of(alloc: Global, words: &[String]) -> Result<Mode, Cause>
    ensures { Understands (mode_of (map (λ word. string_bytes word) words.now)) result }
{
    let [word, rest @ ..] = words else {
        return Err(Cause::Usage(0));
    };
    match word.as_str() {
        "check" => understood(alone(1, Mode::Check, rest)),
        "replay" => understood(asked_replay(behind_report(rest))),
        "ask" => behind_ask(alloc, rest),
        "events" => understood(behind_events(rest)),
        "--history" => understood(behind_flag(Detail::Histories, rest)),
        "--tables" => understood(behind_flag(Detail::Tables, rest)),
        _ => Err(Cause::Usage(0)),
    }
}

fn asked_alone(mode: Result<Mode, u32>) -> Result<Request, u32>
    ensures { result ≡ asked_alone mode }
{
    match mode {
        Ok(mode) => Ok(Request::Alone(mode)),
        Err(place) => Err(place),
    }
}

fn number_in(most: u32, word: &str) -> Option<u32>
    ensures { result ≡ number_in most word.now }
{
    match number_of(word.as_bytes()) {
        Some(number) if 1 <= number && number <= u128::from(most) => Some(number as u32),
        _ => None,
    }
}

fn behind_start(start: Option<u32>, words: &[String]) -> Result<Request, u32>
    ensures { result ≡ behind_start start (map (λ word. string_bytes word) words.now) }
{
    let Some(start) = start else {
        return Err(1);
    };
    let [word, rest @ ..] = words else {
        return Err(2);
    };
    match number_in(MOST_STEPS, word.as_str()) {
        Some(steps) => alone(3, Request::Drill { start, steps }, rest),
        None => Err(2),
    }
}

fn behind_drill(words: &[String]) -> Result<Request, u32>
    ensures { result ≡ behind_drill (map (λ word. string_bytes word) words.now) }
{
    match words {
        [] => Err(1),
        [word, rest @ ..] => behind_start(number_in(MOST_START, word.as_str()), rest),
    }
}

fn asked_run(detail: Result<Detail, u32>) -> Result<Request, u32>
    ensures { result ≡ asked_run detail }
{
    match detail {
        Ok(detail) => Ok(Request::Run { detail }),
        Err(place) => Err(place),
    }
}

fn told_behind(detail: Detail, words: &[String]) -> Result<Request, u32>
    ensures { result ≡ told_behind detail (map (λ word. string_bytes word) words.now) }
{
    match words {
        [word, rest @ ..] if word.as_str() == "run" => alone(2, Request::Run { detail }, rest),
        _ => asked_alone(behind_flag(detail, words)),
    }
}

// What is asked for without threads.
fn asked_alone_of(alloc: Global, words: &[String]) -> Result<Request, Cause>
    ensures exact { Understands (asked_alone (mode_of (map (λ word. string_bytes word) words.now))) result }
    ensures fit { IfOk result IsFit }
{
    match mode_of(alloc, words) {
        Ok(mode) => Ok(Request::Alone(mode)),
        Err(cause) => Err(cause),
    }
}

/// What the words ask for, or the place of the first word that isn't understood, counted from 0.
pub(crate) fn request_of(alloc: Global, words: &[String]) -> Result<Request, Cause>
    ensures exact { Understands (request_of (map (λ word. string_bytes word) words.now)) result }
    ensures fit { IfOk result IsFit }
{
    let [word, rest @ ..] = words else {
        return Err(Cause::Usage(0));
    };
    match word.as_str() {
        "run" => understood(asked_run(behind_report(rest))),
        "drill" => understood(behind_drill(rest)),
        "--history" => understood(told_behind(Detail::Histories, rest)),
        "--tables" => understood(told_behind(Detail::Tables, rest)),
        _ => asked_alone_of(alloc, words),
    }
}
