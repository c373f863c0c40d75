//! Walks the parts of a shard by hand, by the steps of three scripts, beside a shard of each member that takes
//! the same steps, and prints what stands behind each. A call that is refused memory must leave all as it was,
//! and is made once more, which succeeds where one growth alone is refused.
#![tactic(auto)]

// What a call answers that changes nothing, and is made once more where it is refused.
macro_rules! anew {
    ($call:expr) => {
        match $call {
            Ok(answer) => Ok(answer),
            Err(_) => $call,
        }
    };
}

// What a call answers that may be refused memory. Where it is refused, what is seen must be as it was, and the
// call is made once more.
macro_rules! twice {
    ($seen:expr, $call:expr) => {{
        let before = $seen;
        match $call {
            Ok(answer) => Ok(answer),
            Err(_) => {
                before.is_still($seen)?;
                $call
            }
        }
    }};
}

mod doing;
mod mails;
mod making;
mod member;
mod parts;
mod queries;
mod rows;
mod seen;
mod steps;
mod stop;
mod walk;
mod words;

use rows::{IMAGE_DROPS_TOMBSTONE, QUERY_STATES, STABLE_TOMBSTONE};
use std::process::ExitCode;
use std::sync::Wait;
use stop::Stop;
use walk::walk_script;

// `waits` is the process itself once more: only `main` may hand that out.
fn walk_all<R: Wait + Sync>(rt: &HostRuntime, waits: &R) -> Result<(), Stop> {
    walk_script(rt, waits, "stable-tombstone", 2, &STABLE_TOMBSTONE)?;
    walk_script(
        rt,
        waits,
        "image-drops-tombstone",
        3,
        &IMAGE_DROPS_TOMBSTONE,
    )?;
    walk_script(rt, waits, "query-states", 2, &QUERY_STATES)
}

fn main(rt: HostRuntime) -> ExitCode {
    match walk_all(&rt, &rt) {
        Ok(()) => ExitCode::SUCCESS,
        Err(stop) => {
            let _ = eprintln!(rt; "parts_by_hand: {stop}");
            ExitCode::from(stop.status())
        }
    }
}
