//! The program once more, for a run that ends with another status than 0.
#![tactic(auto)]

use gr_main::{Ended, run};

fn main(rt: HostRuntime) -> Ended {
    run(&rt, &rt)
}
