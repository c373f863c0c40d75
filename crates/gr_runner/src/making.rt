// How the members of a run are made.
ghost use Rattle.std.specs.Prelude.{◌≡◌, ◌==◌, ◌≤◌, count_by, IfOk};
ghost use Rattle.gr_script.specs.Rules.{IsMember};
ghost use Rattle.gr_script.specs.Scripts.{heading_of};
ghost use Rattle.gr_member.specs.Fresh.{AreShown};
ghost use Rattle.gr_member.specs.Plans.{IsPlan};
ghost use Rattle.gr_runner.specs.Makings.{AreMade, AreAllShown, IsMade, is_peek, passes_at as passes_planned, peeks, plan_of as plan_for, shows};

use crate::undoing::undo;
use gr_member::{Member, PassList, Plan};
use gr_script::{Act, Line, Script};
use gr_value::Memory;
use std::alloc::Global;
use std::sync::Wait;

/// The script's members, member 1 first, with no deeds, and the passes of each. Where no client peeks they
/// show nothing, which more than halves what a turn takes.
pub fn make<R: Wait>(
    rt: &R,
    alloc: Global,
    script: &Script,
) -> Result<(Vec<Member>, Vec<PassList>), Memory>
    ensures made { IfOk result (λ made. AreMade (heading_of script.now) script.now.members made.0.items made.1.items) }
    ensures shown { IfOk result (λ made. AreAllShown (heading_of script.now) (shows script.now.lines) script.now.members made.1.items) }
{
    let count = usize::from(script.members);
    let mut members = Vec::with_capacity(alloc, count)?;
    let Ok(mut passes) = Vec::with_capacity(alloc, count) else {
        members.destroy_empty();
        return Err(Memory);
    };
    let shown = peeks_of(script) != 0;
    for k in 0..script.members {
        let Ok(made) = make_one(rt, alloc, script, k + 1, shown) else {
            undo(rt, members, passes);
            return Err(Memory);
        };
        let (member, dealt) = made;
        members.push_reserved(member);
        passes.push_reserved(dealt);
    }
    Ok((members, passes))
}

// One member and its passes.
fn make_one<R: Wait>(
    rt: &R,
    alloc: Global,
    script: &Script,
    member: u8,
    shown: bool,
) -> Result<(Member, PassList), Memory>
    requires { IsMember (heading_of script.now) member }
    ensures made { IfOk result (λ made. IsMade (plan_for (heading_of script.now) member) (passes_planned (heading_of script.now) member)
        made.0 made.1) }
    ensures shown { IfOk result (λ made. AreShown shown (passes_planned (heading_of script.now) member) made.1) }
{
    let passes = passes_at(script, member);
    let plan = plan_of(script, member);
    Ok(Member::new(rt, alloc, plan, passes, shown)?)
}

// How many lines have a client peek.
fn peeks_of(script: &Script) -> usize
    ensures { result ≡ peeks script.now.lines }
{
    let mut count = 0;
    for line in script.lines.as_slice() {
        if is_peek(line) {
            count += 1;
        }
    }
    count
}

fn is_peek(line: &Line) -> bool
    ensures { result ≡ is_peek line.now }
{
    match line {
        Line::Step { act, .. } => match act {
            Act::Peek(_) => true,
            _ => false,
        },
        _ => false,
    }
}

// What a member is planned to be.
pub(crate) fn plan_of(script: &Script, member: u8) -> Plan
    requires { IsMember (heading_of script.now) member }
    ensures plan { result ≡ plan_for (heading_of script.now) member }
    ensures ruled { IsPlan result }
{
    Plan {
        member,
        members: script.members,
        founders: script.founders,
        shards: script.shards,
        floor: script.floor,
    }
}

fn passes_at(script: &Script, member: u8) -> u32
    ensures passes { result ≡ passes_planned (heading_of script.now) member }
    ensures some { 1 ≤ result }
{
    let clients = clients_at(script, member);
    let joiners = script.members - script.founders;
    2 + clients + u32::from(joiners)
}

// How many clients are at the member.
fn clients_at(script: &Script, member: u8) -> u32
    ensures count { result ≡ count_by (λ at. at == member) script.now.clients }
    ensures few { result ≤ 64 }
{
    let mut count = 0;
    for at in script.clients.as_slice() {
        if *at == member {
            count += 1;
        }
    }
    count
}
