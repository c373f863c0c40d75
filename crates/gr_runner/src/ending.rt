// How all members of a run are ended, each with the pass that knows all of it.
ghost use Rattle.std.specs.Prelude.{IfOk, OnOk};
ghost use Rattle.std.specs.List.{AllByRecursion};
ghost use Rattle.gr_member.specs.Passes.{HaveAll, IsPassOf};
ghost use Rattle.gr_host.specs.Houses.{ArePassesOf};
ghost use Rattle.gr_runner.specs.Ending.{AreEnded, IsOneMore};

use gr_history::MemberRecordList;
use gr_member::{Member, Memory, Pass};
use std::alloc::Global;
use std::sync::Wait;

/// What all members leave, of which these passes tell.
pub fn end_all<R: Wait>(
    rt: &R,
    alloc: Global,
    members: Vec<Member>,
    desks: Vec<Pass>,
) -> Result<MemberRecordList, Memory>
    requires its { ArePassesOf members.items desks.items }
    requires all { AllByRecursion HaveAll desks.items }
    ensures { IfOk result (AreEnded members.items desks.items) }
{
    let mut members = members;
    let mut desks = desks;
    let Ok(mut records) = MemberRecordList::new(alloc) else {
        stop_members(rt, members, desks);
        return Err(Memory);
    };
    while let Some(member) = members.pop() {
        let Some(pass) = desks.pop() else {
            unreachable!()
        };
        let Ok(()) = end_into(rt, alloc, &mut records, member, pass) else {
            stop_members(rt, members, desks);
            return Err(Memory);
        };
    }
    members.destroy_empty();
    desks.destroy_empty();
    records.reverse();
    Ok(records)
}

// Puts what one member leaves behind these.
fn end_into<R: Wait>(
    rt: &R,
    alloc: Global,
    records: &mut MemberRecordList,
    member: Member,
    pass: Pass,
) -> Result<(), Memory>
    requires its { IsPassOf member pass }
    requires all { HaveAll pass }
    ensures { OnOk result (IsOneMore member pass records.old records.new) }
{
    let left = member.end(rt, alloc, pass)?;
    records.push(left)
}

/// Takes members apart, each with a pass.
pub fn stop_members<R: Wait>(rt: &R, members: Vec<Member>, desks: Vec<Pass>)
    requires { ArePassesOf members.items desks.items }
{
    let mut members = members;
    let mut desks = desks;
    while let Some(member) = members.pop() {
        let Some(pass) = desks.pop() else {
            unreachable!()
        };
        member.stop(rt, pass);
    }
    members.destroy_empty();
    desks.destroy_empty();
}
