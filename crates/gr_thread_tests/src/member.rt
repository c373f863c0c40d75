// Eight passes at one member with four shards, each in a thread.
ghost use Rattle.gr_member.specs.Plans.{IsPlan};

use crate::peek::{number_in, number_of, value_of};
use gr_member::Plan;

mod crowd;
mod replay;
mod steps;

// How many passes there are.
const PASSES: u32 = 8;

// A member alone, with so many shards.
fn plan() -> Plan
    ensures { IsPlan result }
{
    Plan {
        member: 1,
        members: 1,
        founders: 1,
        shards: steps::SHARDS,
        floor: 0,
    }
}
