//! What `main` does: it hands the process's own words, input, output and error output to the program.
#![tactic(auto)]

ghost use Rattle.std.specs.Prelude.{◌≡◌};
ghost use Rattle.gr_top.specs.declared.cause.Cause.{Cause as TheCause};
ghost use Rattle.gr_top.specs.Causes.{status_of};

mod running;

use gr_io::{StdSink, StdSource};
use gr_top::StdArguments;
pub use running::{Ended, answer};
use std::sync::Wait;
use std::thread::Threads;

/// Runs the program over the process's own words, input, output and error output. `threads` starts its
/// threads, and is the process itself once more: only `main` may hand that out.
pub fn run<R: Threads + Wait + Sync>(process: &HostRuntime, threads: &R) -> Ended
    ensures { (cause : TheCause) × (result.status ≡ status_of cause) }
{
    answer(
        threads,
        process.alloc(),
        &StdArguments::new(process),
        &mut StdSource::new(process.stdin()),
        &mut StdSink::new(process.stdout()),
        &mut StdSink::new(process.stderr()),
    )
}
