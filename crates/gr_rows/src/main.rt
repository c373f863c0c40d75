//! Runs whole scripts through the program, over sources and sinks in memory, and says of each whether
//! what comes out is what its row says. Then compares the lines of the causes, the answers to queries,
//! the reading of scripts, values and keys, drills and the summaries of records with tables. It has each call of the
//! streams fail in turn, and plays each prefix of a script.
#![tactic(auto)]

mod causes;
mod drills;
mod edits;
mod ending;
mod files;
mod fuzz;
mod queries;
mod row;
mod running;
mod scripts;
mod summaries;
mod sweeps;
mod values;

use causes::are_causes_so;
use files::row_names;
use queries::{Table, compare};
use running::{compare_each, compare_row, too_large};
use std::io;
use summaries::compare_summaries;
use sweeps::{fail_calls, play_prefixes};

fn main(rt: HostRuntime) -> io::Result<()> {
    for name in row_names(&rt)? {
        compare_each(&rt, name.as_str())?;
    }
    compare_row(&rt, "too-large", too_large(rt.alloc())?)?;
    let causes = if are_causes_so(rt.alloc())? {
        "same"
    } else {
        "differ"
    };
    println!(rt; "causes: {causes}")?;
    fail_calls(&rt)?;
    play_prefixes(&rt)?;
    compare(&rt, Table::Queries)?;
    compare(&rt, Table::Matches)?;
    compare(&rt, Table::Scripts)?;
    compare(&rt, Table::Values)?;
    compare(&rt, Table::Drills)?;
    compare(&rt, Table::Fuzz)?;
    compare_summaries(&rt)
}
