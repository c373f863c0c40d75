use crate::edits::{Numbers, edited};
use crate::ending::{Ending, end_of, is_within};
use crate::files::row_of;
use crate::row::Row;
use crate::running::{Left, no_memory, run_alone};
use crate::scripts::bad_case;
use gr_picture::{Halt, drawn};
use std::alloc::Global;
use std::io;
use std::rt::Files;

/// The words of a replay that tells all.
const REPLAY: [&str; 2] = ["replay", "--history"];

// Whether two runs left the same.
fn is_same(one: &Left, other: &Left) -> bool {
    one.status.as_str() == other.status.as_str()
        && one.message.held() == other.message.held()
        && one.output.held() == other.output.held()
}

fn left_of(alloc: Global, words: &[&str], script: &[u8]) -> io::Result<Left> {
    run_alone(alloc, Row::given(alloc, words, script)?)
}

// Whether a report is drawn, or refused with a line of it named.
fn is_drawn_or_refused(alloc: Global, report: &[u8]) -> io::Result<bool> {
    match drawn(alloc, report) {
        Ok(_) => Ok(true),
        Err(Halt::Line(line)) => Ok(is_within(line, report)),
        Err(Halt::Memory) => Err(no_memory()),
    }
}

// Whether what was played is played the same from what `check` prints of it, and its report is drawn.
fn is_played_so(alloc: Global, left: &Left, checked: &Left) -> io::Result<bool> {
    let again = left_of(alloc, &REPLAY, checked.output.held())?;
    Ok(
        checked.status.as_str() == "0"
            && is_same(left, &again)
            && drawn(alloc, left.output.held()).is_ok(),
    )
}

// How a script ends, where it ends so twice and `check` says the same of it.
fn ending_of(alloc: Global, script: &[u8], left: &Left) -> io::Result<Option<Ending>> {
    let again = left_of(alloc, &REPLAY, script)?;
    let checked = left_of(alloc, &["check"], script)?;
    let is_so = match end_of(left, script) {
        Some(Ending::Finished) => is_played_so(alloc, left, &checked)?,
        Some(Ending::Refused) => is_same(left, &checked),
        None => false,
    };
    if is_so && is_same(left, &again) {
        Ok(end_of(left, script))
    } else {
        Ok(None)
    }
}

// A script changed at up to three places.
fn changed(alloc: Global, script: &[u8], numbers: &mut Numbers) -> io::Result<Vec<u8>> {
    let mut made = edited(alloc, script, numbers)?;
    for _ in 0..numbers.below(3) {
        made = edited(alloc, made.as_slice(), numbers)?;
    }
    Ok(made)
}

// The bytes as a row has them.
fn digits(alloc: Global, bytes: &[u8]) -> io::Result<String> {
    let mut text = String::from_str(alloc, "<x")?;
    for byte in bytes {
        text.push_str(format!(in alloc; " {byte:02x}")?.as_str())?;
    }
    Ok(text)
}

/// What became of the scripts so far.
#[derive(Drop)]
struct Tally {
    finished: usize,
    refused: usize,
}

impl Tally {
    // That enough of the scripts ended either way, or how many did.
    fn words(&self, alloc: Global) -> io::Result<String> {
        let Tally { finished, refused } = self;
        let few = finished.saturating_add(*refused) / 10;
        if *finished > few && *refused > few {
            Ok(String::from_str(alloc, "finished or refused")?)
        } else {
            Ok(format!(in alloc; "{finished} finished, {refused} refused")?)
        }
    }
}

// The scripts of rows of these names.
fn scripts_of<R: Files + AllocGlobal>(rt: &R, names: &str) -> io::Result<Vec<Vec<u8>>> {
    let mut scripts = Vec::new(rt.alloc());
    for name in names.split_whitespace() {
        let row = row_of(rt, name)?;
        scripts.push(row.script)?;
    }
    Ok(scripts)
}

// Plays one changed script, and draws its report as it is and changed. Says whether all ended as it may.
fn is_tried(
    alloc: Global,
    script: &[u8],
    numbers: &mut Numbers,
    tally: &mut Tally,
) -> io::Result<bool> {
    let left = left_of(alloc, &REPLAY, script)?;
    match ending_of(alloc, script, &left)? {
        Some(Ending::Finished) => tally.finished = tally.finished.saturating_add(1),
        Some(Ending::Refused) => tally.refused = tally.refused.saturating_add(1),
        None => return Ok(false),
    }
    let report = changed(alloc, left.output.held(), numbers)?;
    is_drawn_or_refused(alloc, report.as_slice())
}

// Changes scripts by numbers drawn from a seed, and tries each.
fn try_scripts(alloc: Global, scripts: &[Vec<u8>], seed: u32, count: usize) -> io::Result<String> {
    let mut numbers = Numbers::new(seed);
    let mut tally = Tally {
        finished: 0,
        refused: 0,
    };
    for number in 0..count {
        let script = scripts
            .get(numbers.below(scripts.len()))
            .ok_or_else(bad_case)?;
        let script = changed(alloc, script.as_slice(), &mut numbers)?;
        if !is_tried(alloc, script.as_slice(), &mut numbers, &mut tally)? {
            let digits = digits(alloc, script.as_slice())?;
            return Ok(format!(in alloc; "seed {seed}, number {number}: {digits}")?);
        }
    }
    tally.words(alloc)
}

/// Whether scripts that were changed end as they may. The case is a seed, a number of scripts, and the
/// names of the rows that they are made from. The answer is that some were finished and the others refused, or
/// the first script that ends otherwise, with the seed and its number.
pub fn fuzz_answer<R: Files + AllocGlobal>(rt: &R, case: &str) -> io::Result<String> {
    let (seed, rest) = case.split_once('\t').ok_or_else(bad_case)?;
    let (count, names) = rest.split_once('\t').ok_or_else(bad_case)?;
    let seed = seed.parse::<u32>().map_err(|_| bad_case())?;
    let count = count.parse::<usize>().map_err(|_| bad_case())?;
    let scripts = scripts_of(rt, names)?;
    try_scripts(rt.alloc(), scripts.as_slice(), seed, count)
}
