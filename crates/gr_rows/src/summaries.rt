use crate::row::Row;
use crate::running::no_memory;
use gr_depart::replay;
use gr_durable::expand;
use gr_report::summary;
use gr_script::{Form, Script, generate, read};
use std::alloc::Global;
use std::io::{self, Print};
use std::rt::Files;
use std::{fs, str};

fn bad_case() -> io::Error {
    io::Error::from(io::ErrorKind::InvalidData)
}

fn word_of(case: &Row, place: usize) -> io::Result<&str> {
    Ok(case.words.get(place).ok_or_else(bad_case)?.as_str())
}

fn number_of(case: &Row, place: usize) -> io::Result<u32> {
    word_of(case, place)?.parse::<u32>().map_err(|_| bad_case())
}

fn drill_of(alloc: Global, start: u32, steps: u32) -> io::Result<Script> {
    if (1..=2_147_483_646).contains(&start) && (1..=50_000).contains(&steps) {
        generate(alloc, start, steps).map_err(|_| no_memory())
    } else {
        Err(bad_case())
    }
}

// The summary of the replay of a case's script. Behind its name stand the drill's number and steps.
// Where a word follows, the steps of the drill itself are counted.
fn summary_of(alloc: Global, case: &Row) -> io::Result<Vec<u8>> {
    let (start, steps) = (number_of(case, 1)?, number_of(case, 2)?);
    let Ok(script) = read(alloc, case.script.as_slice(), Form::Replay) else {
        return Err(bad_case());
    };
    let script = expand(alloc, script).map_err(|_| no_memory())?;
    let record_of = replay(alloc, &script).map_err(|_| no_memory())?;
    let counted = if case.words.len() > 3 {
        drill_of(alloc, start, steps)?
    } else {
        script
    };
    summary(alloc, start, steps, &counted, &record_of).map_err(|_| no_memory())
}

fn compare_summary<R: Print + AllocGlobal>(rt: &R, case: &Row) -> io::Result<()> {
    let name = word_of(case, 0)?;
    let wanted = case.report.as_str();
    let given = summary_of(rt.alloc(), case)?;
    if given.as_slice() == wanted.as_bytes() {
        return println!(rt; "summary {name}: same");
    }
    let given = str::from_utf8(&given).unwrap_or("bytes that are no text");
    println!(rt; "summary {name}: wanted\n{wanted}given\n{given}")
}

/// Compares the summary of each case with what it wants. An empty line stands between each two cases.
pub fn compare_summaries<R: Files + Print + AllocGlobal>(rt: &R) -> io::Result<()> {
    let text = fs::read_to_string(rt, "summaries.txt")?;
    for case in text.split("\n\n") {
        let case = Row::read(rt.alloc(), case)?;
        compare_summary(rt, &case)?;
    }
    Ok(())
}
