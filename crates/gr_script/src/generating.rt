ghost use Rattle.std.specs.Prelude.{◌≡◌, ◌++◌, ◌∷◌, [], IfOk, OnOk};
ghost use Rattle.gr_script.specs.Drill.{drill_region, drill_homes, IsDrill};
ghost use Rattle.gr_script.specs.Rules.{IsWithin};
ghost use Rattle.gr_script.specs.Scripts.{heading_of};

use crate::drill_lines::push_steps;
use crate::drill_queries::{drill_query, push_fetches, push_opens};
use crate::{LineList, MemberNumberList, Script};
use gr_value::{Key, Memory};
use std::alloc::Global;

fn drill_region(alloc: Global) -> Result<Key, Memory>
    ensures { IfOk result (λ region. region ≡ drill_region) }
{
    match Key::read(alloc, b"/drill") {
        Ok(region) => Ok(region),
        Err(_) => Err(Memory),
    }
}

// One more client at each member.
fn push_round(homes: &mut MemberNumberList) -> Result<(), Memory>
    ensures { OnOk result (homes.new ≡ homes.old ++ 1 ∷ 2 ∷ 3 ∷ 4 ∷ []) }
{
    homes.push(1)?;
    homes.push(2)?;
    homes.push(3)?;
    homes.push(4)?;
    Ok(())
}

// The members of the clients.
fn drill_homes(alloc: Global) -> Result<MemberNumberList, Memory>
    ensures { IfOk result (λ homes. homes ≡ drill_homes) }
{
    let mut homes = MemberNumberList::new(alloc)?;
    push_round(&mut homes)?;
    push_round(&mut homes)?;
    push_round(&mut homes)?;
    push_round(&mut homes)?;
    Ok(homes)
}

/// Makes the drill: the script of so many steps, 1 to 50,000, that are drawn from the number
/// `start`, 1 to 2,147,483,646. It takes time in proportion to the steps.
pub fn generate(alloc: Global, start: u32, steps: u32) -> Result<Script, Memory>
    requires start { IsWithin 1 2147483646 start }
    requires steps { IsWithin 1 50000 steps }
    ensures { IfOk result (λ script. IsDrill start steps (heading_of script, script.lines)) }
{
    let mut lines = LineList::new(alloc)?;
    push_opens(alloc, drill_query(alloc)?, &mut lines)?;
    push_steps(alloc, start, steps, &mut lines)?;
    push_fetches(alloc, steps, &mut lines)?;
    Ok(Script {
        region: drill_region(alloc)?,
        members: 4,
        founders: 4,
        shards: 8,
        inbox: 8,
        trouble: start,
        floor: 0,
        clients: drill_homes(alloc)?,
        lines,
    })
}
