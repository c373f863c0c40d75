ghost use Rattle.std.specs.Prelude.{◌≡◌, ◌≤◌, ◌++◌, OnOk};
ghost use Rattle.gr_script.specs.Drill.{drill_steps};

use crate::LineList;
use crate::drill_step::push_step;
use gr_value::{Memory, drawn};
use std::alloc::Global;

/// The lines of so many steps of the drill.
pub(crate) fn push_steps(
    alloc: Global,
    start: u32,
    steps: u32,
    lines: &mut LineList,
) -> Result<(), Memory>
    requires { steps ≤ 50000 }
    ensures { OnOk result (lines.new ≡ lines.old ++ drill_steps steps 1 start) }
{
    let mut x = start;
    for step in 1..steps + 1 {
        let first = drawn(x);
        let second = drawn(first);
        push_step(alloc, step, first, second, lines)?;
        x = second;
    }
    Ok(())
}
