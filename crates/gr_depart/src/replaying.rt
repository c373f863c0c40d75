ghost use Rattle.std.specs.Prelude.{◌≡◌, IfOk, reverse};
ghost use Rattle.gr_script.specs.Scripts.{heading_of};
ghost use Rattle.gr_script.specs.Steps.{departed};
ghost use Rattle.gr_world.specs.Histories.{KeepsLaws};
ghost use Rattle.gr_world.specs.Records.{IsReplayed};
ghost use Rattle.gr_world.specs.Served.{HasServed, FollowsLines, histories_in};
ghost use Rattle.gr_world.specs.Shut.{AreShut};

use crate::departing::Departing;
use gr_history::Record;
use gr_script::Script;
use gr_value::{Copied, Memory};
use gr_world::{Stage, laws_of_courses, records_keep_the_laws};
use std::alloc::Global;

/// Plays a script line by line, in its one schedule, departures too. What it leaves is all that its
/// course says.
pub fn replay(alloc: Global, script: &Script) -> Result<Record, Memory>
    ensures replayed { IfOk result (IsReplayed (heading_of script.now) script.now.lines) }

    // Members that took in the same changes have the same entries, and no removed value is back.
    ensures laws { IfOk result (KeepsLaws (heading_of script.now) (departed (reverse script.now.lines))) }

    // Each client was served, step by step, and told what came of it.
    ensures served { IfOk result (HasServed (heading_of script.now) script.now.lines) }

    // The steps of all clients stand in the order of the lines.
    ensures in_order { IfOk result (λ left. FollowsLines (heading_of script.now) script.now.lines (histories_in left)) }

    // After a member departed, all that stay know the same of its changes, and none of them comes in any more.
    ensures shut { IfOk result (λ _. AreShut (heading_of script.now) (reverse script.now.lines)) }
{
    let mut departing = Departing::new(alloc, script)?;
    for line in script.lines.as_slice() {
        departing.play(Stage { alloc, script }, line.copy(alloc)?)?;
    }
    laws_of_courses();
    records_keep_the_laws();
    let Departing { world, .. } = departing;
    Ok(world.finish(alloc, script)?)
}
