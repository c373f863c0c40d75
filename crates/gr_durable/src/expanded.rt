ghost use Rattle.std.specs.Prelude.{◌≡◌, ◌++◌, true, length, IfOk, OnOk};
ghost use Rattle.gr_script.specs.Expanded.{expansion};
ghost use Rattle.gr_script.specs.Rules.{Heading, IsScript};
ghost use Rattle.gr_script.specs.Scripts.{heading_of};
ghost use Rattle.gr_durable.specs.Expanding.{is_absence, lines_in};

use crate::expander::{Expander, Turn};
use crate::expanding::expanded_scripts_are_scripts;
use gr_script::{Line, LineList, Script};
use gr_value::Memory;
use std::alloc::Global;

// Whether a client leaves or comes back on the line.
fn is_absence(line: &Line) -> bool
    ensures { result ≡ is_absence line.now }
{
    matches!(line, Line::Leave { .. } | Line::Back { .. })
}

// Whether the lines are played as they are, since no client leaves or comes back.
fn are_plain(lines: &[Line]) -> bool
    ensures { result ≡ true → expansion lines.now ≡ lines.now }
{
    for line in lines {
        if is_absence(line) {
            return false;
        }
    }
    true
}

// Puts what is played in place of a line last.
fn push_turn(all: &mut LineList, turn: Turn) -> Result<(), Memory>
    ensures { OnOk result (all.new ≡ all.old ++ lines_in turn) }
{
    match turn {
        Turn::Line(line) => Ok(all.push(line)?),
        Turn::Lines(lines) => {
            for line in lines.into_vec() {
                all.push(line)?;
            }
            Ok(())
        }
    }
}

// What is played of the lines of a script with so many clients.
fn expanded_lines(alloc: Global, clients: usize, lines: LineList) -> Result<LineList, Memory>
    requires { (heading : Heading) × (length heading.clients ≡ clients) × IsScript heading lines }
    ensures { IfOk result (λ all. all ≡ expansion lines) }
{
    let mut expander = Expander::new(alloc, clients)?;
    let mut all = LineList::from_vec(Vec::with_capacity(alloc, lines.len())?);
    for line in lines.into_vec() {
        let turn = expander.take(alloc, line)?;
        push_turn(&mut all, turn)?;
    }
    Ok(all)
}

/// The script as it is run or replayed: without the lines on which clients leave, and where a client comes
/// back with a step on each query that it has open.
pub fn expand(alloc: Global, script: Script) -> Result<Script, Memory>
    ensures heading { IfOk result (λ expanded. heading_of expanded ≡ heading_of script) }
    ensures lines { IfOk result (λ expanded. expanded.lines ≡ expansion script.lines) }
{
    if are_plain(script.lines.as_slice()) {
        return Ok(script);
    }
    let lines = expanded_lines(alloc, script.clients.len(), script.lines)?;
    expanded_scripts_are_scripts();
    Ok(Script {
        region: script.region,
        members: script.members,
        founders: script.founders,
        shards: script.shards,
        inbox: script.inbox,
        trouble: script.trouble,
        floor: script.floor,
        clients: script.clients,
        lines,
    })
}
