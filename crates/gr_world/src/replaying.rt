ghost use Rattle.std.specs.Prelude.{◌≡◌, [], IfOk};
ghost use Rattle.gr_script.specs.Scripts.{heading_of};
ghost use Rattle.gr_script.specs.Steps.{departed};
ghost use Rattle.gr_world.specs.Histories.{KeepsLaws};
ghost use Rattle.gr_world.specs.Records.{IsReplayed};
ghost use Rattle.gr_world.specs.Served.{HasServed, FollowsLines, histories_in};

use crate::stage::Stage;
use crate::world::World;
use gr_history::Record;
use gr_script::Script;
use gr_value::{Copied, Memory};
use std::alloc::Global;

/// Plays a script line by line, in its one schedule. What it leaves is all that its course says.
pub fn replay(alloc: Global, script: &Script) -> Result<Record, Memory>
    requires { departed script.now.lines ≡ [] }
    ensures replayed { IfOk result (IsReplayed (heading_of script.now) script.now.lines) }

    // Members that took in the same changes have the same entries, and no removed value is back.
    ensures laws { IfOk result (KeepsLaws (heading_of script.now) []) }

    // Each client was served, step by step, and told what came of it.
    ensures served { IfOk result (HasServed (heading_of script.now) script.now.lines) }

    // The steps of all clients stand in the order of the lines.
    ensures in_order { IfOk result (λ left. FollowsLines (heading_of script.now) script.now.lines (histories_in left)) }
{
    let mut world = World::new(alloc, script)?;
    for line in script.lines.as_slice() {
        world.play(Stage { alloc, script }, line.copy(alloc)?)?;
    }
    Ok(world.finish(alloc, script)?)
}
