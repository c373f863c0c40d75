use crate::files::row_of;
use crate::row::Row;
use gr_io::{MemorySink, MemorySource};
use gr_top::{conclude, program, replay_words};
use std::alloc::Global;
use std::io::{self, Print};
use std::rt::Files;
use std::str;
use std::sync::Wait;
use std::thread::Threads;

/// The most bytes that a sink here has room for.
const ROOM: usize = 0x10_0000;

/// The most bytes of the message that are taken in one call.
const MESSAGE_PIECE: usize = 7;

/// What stands for a line where a text has ended.
const NO_LINE: &str = "no line";

pub fn no_memory() -> io::Error {
    io::Error::from(io::ErrorKind::OutOfMemory)
}

pub fn sink_in_memory(alloc: Global, piece: usize, fails: Vec<u64>) -> io::Result<MemorySink> {
    MemorySink::new(alloc, ROOM, piece.max(1), fails).map_err(|_| no_memory())
}

/// What a run of the program left: its status in digits, its message, and its output.
#[derive(Drop)]
pub struct Left {
    pub status: String,
    pub message: MemorySink,
    pub output: MemorySink,
}

// What a run of the program is given.
#[derive(Drop)]
struct Given {
    words: Vec<String>,
    source: MemorySource,
    output: MemorySink,
    message: MemorySink,
}

impl Given {
    fn new(alloc: Global, row: Row) -> io::Result<Given> {
        Ok(Given {
            words: row.words,
            source: MemorySource::new(row.script, row.source.piece.max(1), row.source.fails),
            output: sink_in_memory(alloc, row.sink.piece, row.sink.fails)?,
            message: sink_in_memory(alloc, MESSAGE_PIECE, Vec::new(alloc))?,
        })
    }

    fn left(self, alloc: Global, status: u8) -> io::Result<Left> {
        let status = format!(in alloc; "{status}")?;
        Ok(Left {
            status,
            message: self.message,
            output: self.output,
        })
    }
}

/// Runs the program over the row's words, source and sink.
pub fn run<R: Threads + Wait + Sync>(rt: &R, alloc: Global, row: Row) -> io::Result<Left> {
    let mut given = Given::new(alloc, row)?;
    let status = program(
        rt,
        alloc,
        given.words.as_slice(),
        &mut given.source,
        &mut given.output,
        &mut given.message,
    );
    given.left(alloc, status)
}

/// The same of a mode that needs no threads.
pub fn run_alone(alloc: Global, row: Row) -> io::Result<Left> {
    let mut given = Given::new(alloc, row)?;
    let words = given.words.as_slice();
    let outcome = replay_words(alloc, words, &mut given.source, &mut given.output);
    let status = conclude(&mut given.message, &outcome.cause);
    given.left(alloc, status)
}

/// The first line at which two texts differ: its number, and what each has there.
#[derive(Clone, Copy)]
struct Difference<'a> {
    line: usize,
    wanted: &'a str,
    given: &'a str,
}

fn first_difference<'a>(wanted: &'a str, given: &'a str) -> Option<Difference<'a>> {
    let mut others = given.split('\n');
    let mut line = 0;
    for (index, wanted) in wanted.split('\n').enumerate() {
        line = index + 1;
        let given = others.next().unwrap_or(NO_LINE);
        if wanted != given {
            return Some(Difference {
                line,
                wanted,
                given,
            });
        }
    }
    let given = others.next()?;
    Some(Difference {
        line,
        wanted: NO_LINE,
        given,
    })
}

// The first of the wanted lines that doesn't stand in a text behind those before it.
fn first_missing<'a>(wanted: &'a str, given: &str) -> Option<&'a str> {
    let mut lines = given.lines();
    for line in wanted.lines() {
        if !lines.any(|other| other == line) {
            return Some(line);
        }
    }
    None
}

// Runs a row of whose output some lines are wanted, and prints that they are there, or the first that isn't.
fn compare_among<R: Print + AllocGlobal + Threads + Wait + Sync>(
    rt: &R,
    name: &str,
    row: Row,
) -> io::Result<()> {
    let among = row.among.clone()?;
    let left = run(rt, rt.alloc(), row)?;
    let output = str::from_utf8(left.output.held()).unwrap_or("bytes that are no text");
    match first_missing(among.as_str(), output) {
        Some(line) => println!(rt; "{name}: report, {line}: missing"),
        None => println!(rt; "{name}: same"),
    }
}

/// Runs a row, and prints that all is as wanted, or the first line that differs.
pub fn compare_row<R: Print + AllocGlobal + Threads + Wait + Sync>(
    rt: &R,
    name: &str,
    row: Row,
) -> io::Result<()> {
    let status = row.status.clone()?;
    let message = row.message.clone()?;
    let report = row.report.clone()?;
    let left = run(rt, rt.alloc(), row)?;
    let parts = [
        ("status", status.as_str(), left.status.as_bytes()),
        ("message", message.as_str(), left.message.held()),
        ("report", report.as_str(), left.output.held()),
    ];
    for (part, wanted, given) in parts {
        let given = str::from_utf8(given).unwrap_or("bytes that are no text");
        if let Some(first) = first_difference(wanted, given) {
            let Difference {
                line,
                wanted,
                given,
            } = first;
            println!(rt; "{name}: {part}, line {line}: wanted {wanted}, given {given}")?;
            return Ok(());
        }
    }
    println!(rt; "{name}: same")
}

/// Runs a row as often as it says.
pub fn compare_each<R: Files + Print + AllocGlobal + Threads + Wait + Sync>(
    rt: &R,
    name: &str,
) -> io::Result<()> {
    let times = row_of(rt, name)?.times;
    for _ in 0..times {
        let row = row_of(rt, name)?;
        if row.among.is_empty() {
            compare_row(rt, name, row)?;
        } else {
            compare_among(rt, name, row)?;
        }
    }
    Ok(())
}

/// The row of a script with one byte more than a script may have.
pub fn too_large(alloc: Global) -> io::Result<Row> {
    let mut row = Row::read(
        alloc,
        "word replay\nstatus 4\n! georep: the script is too large\n",
    )?;
    row.script = vec![in alloc; b'#'; 8_388_609]?;
    Ok(row)
}
