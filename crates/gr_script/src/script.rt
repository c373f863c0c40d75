ghost use Rattle.gr_script.specs.Rules.{heading, IsScript, IsScript-prop};

use crate::{LineList, StepList};
use gr_value::{ItemList, Key, Memory};
use std::alloc::Global;

/// Numbers of members.
pub type MemberNumberList = ItemList<u8>;

/// A script: its heading, and its lines in order. The members 1 to `founders` are founders, and
/// client n is at the n-th member of `clients`.
#[derive(Drop)]
pub struct Script {
    pub region: Key,
    pub members: u8,
    pub founders: u8,
    pub shards: u8,
    /// How many mails an inbox has room for, where the members are run side by side.
    pub inbox: u32,
    /// The number that the trouble of deliveries is drawn from; 0 is none.
    pub trouble: u32,
    /// The floor with which each shard begins.
    pub floor: u64,
    pub clients: MemberNumberList,
    pub lines: LineList,
    pub ghost ruled: { IsScript (heading region members founders shards inbox trouble floor clients) lines } by { IsScript-prop
        (heading region members founders shards inbox trouble floor clients) lines },
}

impl Script {
    ghost use Rattle.std.specs.Prelude.{◌≡◌, IfOk};
    ghost use Rattle.gr_script.specs.Steps.{steps_of, AreNumbered};

    /// The client's steps, in order.
    pub fn steps(&self, alloc: Global, client: u8) -> Result<StepList, Memory>
        ensures steps { IfOk result (λ steps. steps ≡ steps_of client self.now.lines) }
        ensures numbered { IfOk result (AreNumbered 1) }
    {
        let mut steps = StepList::new(alloc)?;
        for line in self.lines.as_slice() {
            if let Some(step) = line.step_of(alloc, client)? {
                steps.push(step)?;
            }
        }
        Ok(steps)
    }
}
