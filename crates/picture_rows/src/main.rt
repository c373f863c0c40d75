//! Draws the reports that stand beside it, and says of each whether its picture is the one that is stored.
#![tactic(auto)]

use gr_picture::drawn;
use std::io::Print;
use std::rt::Files;
use std::{fs, io};

const NAMES: [&str; 6] = ["expiry", "joining", "late", "run", "signs", "two-members"];

// What a file of this name says.
fn text_of<R: Files + AllocGlobal>(rt: &R, name: &str, ending: &str) -> io::Result<String> {
    let path = format!(in rt.alloc(); "{name}.{ending}")?;
    fs::read_to_string(rt, path)
}

// Whether the picture of a report is the one that is stored.
fn is_drawn<R: Files + AllocGlobal>(rt: &R, name: &str) -> io::Result<bool> {
    let report = text_of(rt, name, "report")?;
    let stored = text_of(rt, name, "svg")?;
    Ok(match drawn(rt.alloc(), report.as_bytes()) {
        Ok(picture) => picture.as_str() == stored.as_str(),
        Err(_) => false,
    })
}

fn compare<R: Files + AllocGlobal + Print>(rt: &R, name: &str) -> io::Result<()> {
    let word = if is_drawn(rt, name)? {
        "same"
    } else {
        "differs"
    };
    println!(rt; "{name}: {word}")
}

fn main(rt: HostRuntime) -> io::Result<()> {
    for name in NAMES.iter() {
        compare(&rt, name)?;
    }
    Ok(())
}
