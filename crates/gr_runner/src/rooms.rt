// Room for all that is dealt, made before any member: afterwards no memory may be refused.
ghost use Rattle.std.specs.Prelude.{IfOk};
ghost use Rattle.std.specs.List.{AllByRecursion};
ghost use Rattle.gr_script.specs.Scripts.{heading_of};
ghost use Rattle.gr_runner.specs.Dealing.{AreRooms, AreRoomsOf, HasNone, HaveNone};

use crate::gathering::Left;
use crate::slots::Slot;
use gr_member::Pass;
use gr_script::Script;
use gr_value::Memory;
use std::alloc::Global;

/// Lists with nothing in them, and room: for each member a list for a pass at each member; one for all
/// threads, one for a pass that is kept at each member, and one for what all threads leave. It is never
/// dropped: `deal` fills it, and `let_go` lets go of it.
pub struct Rooms {
    pub visits: Vec<Vec<Pass>>,
    pub slots: Vec<Slot>,
    pub desks: Vec<Pass>,
    pub lefts: Vec<Left>,
}

impl Rooms {
    /// As much room as the script needs.
    pub fn new(alloc: Global, script: &Script) -> Result<Rooms, Memory>
        ensures { IfOk result (AreRoomsOf (heading_of script.now)) }
    {
        let members = usize::from(script.members);
        let threads = members + script.clients.len();
        let visits = rooms_for_visits(alloc, script.members)?;
        let Ok(slots) = Vec::with_capacity(alloc, threads) else {
            let_go_of(visits);
            return Err(Memory);
        };
        let Ok(desks) = Vec::with_capacity(alloc, members) else {
            let_go_of(visits);
            slots.destroy_empty();
            return Err(Memory);
        };
        let Ok(lefts) = Vec::with_capacity(alloc, threads) else {
            let_go_of(visits);
            slots.destroy_empty();
            desks.destroy_empty();
            return Err(Memory);
        };
        Ok(Rooms {
            visits,
            slots,
            desks,
            lefts,
        })
    }

    /// Lets go of room that isn't needed.
    pub fn let_go(self)
        requires { HaveNone self }
    {
        let Rooms {
            visits,
            slots,
            desks,
            lefts,
        } = self;
        let_go_of(visits);
        slots.destroy_empty();
        desks.destroy_empty();
        lefts.destroy_empty();
    }
}

// So many lists with no pass, each with room for as many.
fn rooms_for_visits(alloc: Global, members: u8) -> Result<Vec<Vec<Pass>>, Memory>
    ensures { IfOk result (λ made. AreRooms members members made.items) }
{
    let count = usize::from(members);
    let mut made = Vec::with_capacity(alloc, count)?;
    for _k in 0..members {
        let Ok(room) = Vec::with_capacity(alloc, count) else {
            let_go_of(made);
            return Err(Memory);
        };
        made.push_reserved(room);
    }
    Ok(made)
}

// Lets go of lists with no pass.
fn let_go_of(rooms: Vec<Vec<Pass>>)
    requires { AllByRecursion HasNone rooms.items }
{
    let mut rooms = rooms;
    while let Some(room) = rooms.pop() {
        room.destroy_empty();
    }
    rooms.destroy_empty();
}
