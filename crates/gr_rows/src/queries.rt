use crate::drills::drill_answer;
use crate::files::lines_of;
use crate::fuzz::fuzz_answer;
use crate::running::no_memory;
use crate::scripts::script_answer;
use crate::values::value_answer;
use gr_lex::LexFault;
use gr_oql::{OqlFault, Part, Query, Truth};
use gr_value::Value;
use std::alloc::Global;
use std::io::{self, Print};
use std::rt::Files;

fn part_word(part: Part) -> &'static str {
    match part {
        Part::Distinct => "distinct",
        Part::Projection => "projection",
        Part::Join => "join",
        Part::Tail => "tail",
        Part::Import => "import",
        Part::Bind => "bind",
        Part::Escape => "escape",
    }
}

fn truth_word(truth: Truth) -> &'static str {
    match truth {
        Truth::Holds => "holds",
        Truth::Fails => "fails",
        Truth::Undefined => "undefined",
    }
}

// A fault in a word, and its place.
fn fault_words(alloc: Global, fault: OqlFault) -> io::Result<String> {
    let (word, place) = match fault {
        OqlFault::Lex(LexFault::BadCharacter(place)) => ("bad-character", place),
        OqlFault::Lex(LexFault::OpenText(place)) => ("open-text", place),
        OqlFault::Lex(LexFault::NumberTooLarge(place)) => ("too-large", place),
        OqlFault::Expected(place) => ("expected", place),
        OqlFault::NotACq(place, part) => (part_word(part), place),
        OqlFault::TooDeep(place) => ("too-deep", place),
        OqlFault::Lex(LexFault::Memory) | OqlFault::Memory => return Err(no_memory()),
    };
    Ok(format!(in alloc; "{word} {place}")?)
}

// What reading a query's text gives.
fn reading(alloc: Global, text: &str) -> io::Result<String> {
    match Query::parse(alloc, text) {
        Ok(_) => Ok(String::from_str(alloc, "read")?),
        Err(fault) => fault_words(alloc, fault),
    }
}

// What a query says of a value. The case is the value's JSON, a tab, and the query's text.
fn truth(alloc: Global, case: &str) -> io::Result<String> {
    let (value, text) = case.split_once('\t').unwrap_or((case, ""));
    let Ok(value) = Value::read(alloc, value.as_bytes()) else {
        return Ok(String::from_str(alloc, "no value")?);
    };
    match Query::parse(alloc, text) {
        Ok(query) => Ok(String::from_str(alloc, truth_word(query.matches(&value)))?),
        Err(fault) => fault_words(alloc, fault),
    }
}

/// A table of cases, in the file of its name.
#[derive(Clone, Copy)]
pub enum Table {
    Queries,
    Matches,
    Scripts,
    Values,
    Drills,
    Fuzz,
}

impl Table {
    fn name(self) -> &'static str {
        match self {
            Table::Queries => "queries",
            Table::Matches => "matches",
            Table::Scripts => "scripts",
            Table::Values => "values",
            Table::Drills => "drills",
            Table::Fuzz => "fuzz",
        }
    }

    fn answer<R: Files + AllocGlobal>(self, rt: &R, case: &str) -> io::Result<String> {
        let alloc = rt.alloc();
        match self {
            Table::Queries => reading(alloc, case),
            Table::Matches => truth(alloc, case),
            Table::Scripts => script_answer(alloc, case),
            Table::Values => value_answer(alloc, case),
            Table::Drills => drill_answer(alloc, case),
            Table::Fuzz => fuzz_answer(rt, case),
        }
    }
}

/// Compares what the calls give with a table, and prints each line that differs. A line is the answer
/// that is wanted, a tab, and the case.
pub fn compare<R: Files + Print + AllocGlobal>(rt: &R, table: Table) -> io::Result<()> {
    let name = table.name();
    let path = format!(in rt.alloc(); "{name}.txt")?;
    let (mut same, mut differ) = (0usize, 0usize);
    for (index, line) in lines_of(rt, path.as_str())?.iter().enumerate() {
        let (wanted, case) = line.split_once('\t').unwrap_or((line.as_str(), ""));
        let given = table.answer(rt, case)?;
        if given.as_str() == wanted {
            same += 1;
        } else {
            differ += 1;
            println!(rt;
                "{name}, line {}: wanted {wanted}, given {given}",
                index + 1
            )?;
        }
    }
    println!(rt; "{name}: {same} same, {differ} differ")
}
