ghost use Rattle.std.specs.Prelude.{◌≡◌, ◌++◌, IfOk, OnOk};
ghost use Rattle.gr_report.specs.Summary.{drill_line, first_shards, members_line, summary_of};

use crate::own::put_own;
use crate::put::{put_counted, put_text};
use crate::same::are_equal;
use crate::steps::{count_steps, put_steps};
use gr_history::{MemberRecord, Record, ShardRecord};
use gr_script::Script;
use gr_value::Memory;
use std::alloc::Global;

#[tactic(auto, unfolding(crate::specs::Summary::drill_line))]
fn put_drill_line(out: &mut Vec<u8>, start: u32, steps: u32) -> Result<(), Memory>
    ensures { OnOk result (out.new.items ≡ out.old.items ++ drill_line start steps) }
{
    put_counted(out, "drill ", u128::from(start))?;
    put_counted(out, " ", u128::from(steps))?;
    put_text(out, "\n")
}

// The shards of member 1, which is the first.
fn first_shards(members: &[MemberRecord]) -> &[ShardRecord]
    ensures { result.now ≡ first_shards members.now }
{
    match members {
        [first, ..] => first.shards.as_slice(),
        [] => &[],
    }
}

fn put_members_line(out: &mut Vec<u8>, equal: bool) -> Result<(), Memory>
    ensures { OnOk result (out.new.items ≡ out.old.items ++ members_line equal) }
{
    if equal {
        put_text(out, "members equal\n")
    } else {
        put_text(out, "members differ\n")
    }
}

/// The summary of a drill that was run: the number it was drawn from and its steps, how many steps of
/// each kind its script has, how many entries of clients' own stand at member 1 and what their numbers
/// sum up to, and whether the same stands at all members. Member 1 is the first of the record, whatever
/// number it has there; where shards share a key, each of its rows counts.
pub fn summary(
    alloc: Global,
    start: u32,
    steps: u32,
    script: &Script,
    record_of: &Record,
) -> Result<Vec<u8>, Memory>
    ensures { IfOk result (λ text. text.items ≡ summary_of start steps script.now record_of.now) }
{
    let mut out = Vec::new(alloc);
    put_drill_line(&mut out, start, steps)?;
    put_steps(&mut out, count_steps(script.lines.as_slice()))?;
    let members = record_of.members.as_slice();
    put_own(alloc, &mut out, first_shards(members))?;
    put_members_line(&mut out, are_equal(members))?;
    put_text(&mut out, "end\n")?;
    Ok(out)
}
