// The steps of all clients, told apart.
ghost use Rattle.std.specs.Prelude.{◌≤◌, [], length, IfOk, OnOk};
ghost use Rattle.gr_runner.specs.Stepping.{AreStepsOf, AreWith, HasPlace, IsPutWith};

use gr_script::{Line, Script, Step, StepList};
use gr_value::{Copied, Memory};
use std::alloc::Global;

/// The steps of each client, those of client 1 first.
pub fn steps_each(alloc: Global, script: &Script) -> Result<Vec<StepList>, Memory>
    ensures { IfOk result (λ each. AreStepsOf script.now.lines (length script.now.clients) each.items) }
{
    let mut each = none_each(alloc, script.clients.len(), script.lines.len())?;
    for line in script.lines.as_slice() {
        sort(alloc, line, &mut each)?;
    }
    Ok(each)
}

// Lists for so many clients, with no steps and each with room for its share of so many lines.
fn none_each(alloc: Global, clients: usize, lines: usize) -> Result<Vec<StepList>, Memory>
    ensures { IfOk result (λ each. AreStepsOf [] clients each.items) }
{
    let mut each = Vec::new(alloc);
    for _k in 0..clients {
        let room = Vec::with_capacity(alloc, lines / clients)?;
        each.push(StepList::from_vec(room))?;
    }
    Ok(each)
}

// Puts the step on the line, where it has one, with its client's.
fn sort(alloc: Global, line: &Line, each: &mut Vec<StepList>) -> Result<(), Memory>
    requires { HasPlace line.now (length each.old.items) }
    ensures { OnOk result (AreWith line.now each.old.items each.new.items) }
{
    match line {
        Line::Step { client, seq, act } => {
            let step = Step {
                seq: *seq,
                act: act.copy(alloc)?,
            };
            put(each, *client, step)
        }
        _ => Ok(()),
    }
}

// Puts a client's step last of its own.
fn put(each: &mut Vec<StepList>, client: u8, step: Step) -> Result<(), Memory>
    requires some { 1 ≤ client }
    requires there { client ≤ length each.old.items }
    ensures { OnOk result (IsPutWith client step each.old.items each.new.items) }
{
    each[usize::from(client - 1)].push(step)
}
