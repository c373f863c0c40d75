ghost use Rattle.std.specs.Prelude.{◌≡◌, ◌≤◌, ◌++◌, ◌∷◌, [], OnOk};
ghost use Rattle.gr_script.specs.declared.line.Line.TheVariants.{Report, Sweep};
ghost use Rattle.gr_script.specs.Drill.{asked_before, drill_seq, at_members, swept_behind, step_lines};

use crate::drill::{ask_of, client_of};
use crate::{Act, Line, LineList};
use gr_value::Memory;
use std::alloc::Global;

fn asked_before(client: u8) -> u32
    ensures { result ≡ asked_before client }
{
    if client < 5 { 1 } else { 0 }
}

// Which of its client's steps this step of the drill is.
fn seq_of(step: u32) -> u32
    requires some { 1 ≤ step }
    requires most { step ≤ 50000 }
    ensures { result ≡ drill_seq step }
{
    (step - 1) / 16 + asked_before(client_of(step)) + 1
}

fn push_reports(lines: &mut LineList) -> Result<(), Memory>
    ensures { OnOk result (lines.new ≡ lines.old ++ at_members Report) }
{
    lines.push(Line::Report { member: 1 })?;
    lines.push(Line::Report { member: 2 })?;
    lines.push(Line::Report { member: 3 })?;
    lines.push(Line::Report { member: 4 })?;
    Ok(())
}

fn push_sweeps(moment: u64, lines: &mut LineList) -> Result<(), Memory>
    ensures { OnOk result (lines.new ≡ lines.old ++ at_members (λ member. Sweep member moment)) }
{
    lines.push(Line::Sweep { member: 1, moment })?;
    lines.push(Line::Sweep { member: 2, moment })?;
    lines.push(Line::Sweep { member: 3, moment })?;
    lines.push(Line::Sweep { member: 4, moment })?;
    Ok(())
}

// The reports and sweeps behind each thousandth step.
fn push_swept(step: u32, lines: &mut LineList) -> Result<(), Memory>
    ensures { OnOk result (lines.new ≡ lines.old ++ swept_behind step) }
{
    if step % 1000 == 0 {
        push_reports(lines)?;
        push_sweeps(700 * u64::from(step / 1000), lines)?;
    }
    Ok(())
}

/// The lines of a step of the drill, by the two numbers that are drawn for it.
pub(crate) fn push_step(
    alloc: Global,
    step: u32,
    first: u32,
    second: u32,
    lines: &mut LineList,
) -> Result<(), Memory>
    requires some { 1 ≤ step }
    requires most { step ≤ 50000 }
    ensures { OnOk result (lines.new ≡ lines.old ++ step_lines step first second) }
{
    let client = client_of(step);
    let seq = seq_of(step);
    let ask = ask_of(alloc, client, first, second)?;
    lines.push(Line::Step {
        client,
        seq,
        act: Act::Call(ask),
    })?;
    push_swept(step, lines)?;
    Ok(())
}
