//! The program.
#![tactic(auto)]

use gr_main::{Ended, run};

fn main(rt: HostRuntime) -> Ended {
    run(&rt, &rt)
}
