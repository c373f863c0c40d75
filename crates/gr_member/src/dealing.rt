// How passes get their seats.
ghost use Rattle.std.specs.Prelude.{◌≡◌, ◌+◌, ◌≤◌, ◌<◌, ℕ, [], length, vec_len, IfOk};
ghost use Rattle.gr_member.specs.Seats.{Place};
ghost use Rattle.gr_member.specs.Dealing.{AreEmpty, ArePairs, HaveNoSeats, HaveRoom, HasMore};

use crate::pass::ShardPass;
use crate::replica::Replica;
use crate::watch::Watch;
use gr_turn::SeatList;
use gr_value::Memory;
use std::alloc::Global;

// So many passes of no shard, each with room for so many.
pub(crate) fn empty_passes(
    alloc: Global,
    passes: u32,
    shards: usize,
) -> Result<Vec<Vec<ShardPass>>, Memory>
    ensures { IfOk result (λ made. AreEmpty passes shards made.items) }
{
    let mut made = Vec::with_capacity(alloc, passes as usize)?;
    for _k in 0..passes {
        let Ok(shards) = Vec::with_capacity(alloc, shards) else {
            let_go(made);
            return Err(Memory);
        };
        made.push_reserved(shards);
    }
    Ok(made)
}

// Lets go of passes that have no seats.
pub(crate) fn let_go(passes: Vec<Vec<ShardPass>>)
    requires { HaveNoSeats passes.items }
{
    let mut passes = passes;
    while let Some(shards) = passes.pop() {
        shards.destroy_empty();
    }
    passes.destroy_empty();
}

// Gives each pass a seat and an eye more, the last pass first.
pub(crate) fn deal(passes: &mut Vec<Vec<ShardPass>>, seats: SeatList<Replica>, watches: Vec<Watch>)
    requires many { (length seats ≡ vec_len passes.old) × (vec_len watches ≡ vec_len passes.old) }
    requires room { HaveRoom passes.old.items }
    requires pairs { ArePairs seats watches.items }
    ensures { HasMore passes.old.items seats watches.items passes.new.items }
{
    let mut rest = seats;
    let mut watches = watches;
    for _k in 0..passes.len() {
        let Some(seat) = rest.pop() else {
            unreachable!()
        };
        let Some(watch) = watches.pop() else {
            unreachable!()
        };
        let at = rest.len();
        passes[at].push_reserved(ShardPass {
            seat: Some(seat),
            watch,
        });
    }
    rest.destroy_empty();
}
