ghost use Rattle.std.specs.Prelude.{◌≡◌, IfOk};
ghost use Rattle.gr_script.specs.Rules.{IsScript, AreWithin};
ghost use Rattle.gr_script.specs.Scripts.{heading_of};
ghost use Rattle.gr_script.specs.Taken.{heading_taken};

use crate::past::Past;
use crate::{LineList, MemberNumberList, Script};
use gr_value::{Copied, Memory};
use std::alloc::Global;

fn clients_of(alloc: Global, homes: &[u128]) -> Result<MemberNumberList, Memory>
    requires { AreWithin 1 8 homes.now }
    ensures { IfOk result (λ clients. clients ≡ homes.now) }
{
    let mut clients = MemberNumberList::new(alloc)?;
    for home in homes {
        clients.push(*home as u8)?;
    }
    Ok(clients)
}

/// The script whose heading was taken in, with these lines.
pub(crate) fn script_of(alloc: Global, past: &Past, lines: LineList) -> Result<Script, Memory>
    requires { IsScript (heading_taken past.now) lines }
    ensures heading { IfOk result (λ script. heading_of script ≡ heading_taken past.now) }
    ensures lines { IfOk result (λ script. script.lines ≡ lines) }
{
    let sizes = past.sizes();
    Ok(Script {
        region: past.region().unwrap().copy(alloc)?,
        members: past.setting().members as u8,
        founders: past.founders() as u8,
        shards: sizes.shards as u8,
        inbox: sizes.inbox as u32,
        trouble: sizes.trouble as u32,
        floor: sizes.floor as u64,
        clients: clients_of(alloc, past.homes())?,
        lines,
    })
}
