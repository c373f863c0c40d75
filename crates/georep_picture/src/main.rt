//! Draws what a run did: reads a report with histories from standard input, and writes its picture, an
//! SVG, to standard output.
#![tactic(auto)]

use gr_io::{StdSink, StdSource};
use gr_picture::program;
use std::process::ExitCode;

fn main(rt: HostRuntime) -> ExitCode {
    ExitCode::from(program(
        rt.alloc(),
        &mut StdSource::new(rt.stdin()),
        &mut StdSink::new(rt.stdout()),
        &mut StdSink::new(rt.stderr()),
    ))
}
