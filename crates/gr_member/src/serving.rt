// What is done at a shard whose copy isn't shown.
ghost use Rattle.std.specs.Prelude.{◌≡◌, IfOk, OnErr};
ghost use Rattle.gr_shard.specs.Prepared.{Belongs};
ghost use Rattle.gr_shard.specs.View.{with_spare};
ghost use Rattle.gr_member.specs.Replicas.{Serves};

use gr_cq::Turned;
use gr_shard::{Came, Next, Shard};
use gr_value::{ItemList, Memory};
use logbook::Plain;
use std::alloc::Global;

/// Does what is to be done next by the call of that name, which needn't be prepared where nothing is shown.
pub(crate) fn serve(shard: &mut Shard, alloc: Global, next: &Next) -> Result<Came, Memory>
    requires { Belongs shard.old.id next.now }
    ensures done { IfOk result (λ came. Serves shard.old next.now came shard.new) }
    ensures err { OnErr result (shard.new ≡ with_spare shard.new.spare shard.old) }
{
    Ok(match next {
        Next::Call { client, seq, ask } => Came::Done(shard.call(alloc, *client, *seq, ask)?),
        Next::TakeIn { change } => Came::Verdict(shard.take_in(alloc, change)?),
        Next::Query { client, seq, ask } => { Came::Reply(shard.query(alloc, *client, *seq, ask)?) }
        Next::Give { to, what } => Came::Gift(shard.give(alloc, *to, *what)?),
        Next::Merge { image } => {
            shard.merge(alloc, image)?;
            Came::Merged
        }
        Next::Tell => Came::Told(shard.report(alloc)?),
        Next::Hear { report } => {
            shard.hear(alloc, report)?;
            Came::Heard
        }
        Next::Sweep { moment } => Came::Swept(shard.sweep(alloc, *moment)?),
    })
}

/// The keys that a shard's newest deed turned.
pub(crate) struct Newest;

impl Plain<Shard, ItemList<Turned>, u64> for Newest {
    ghost use Rattle.std.specs.Prelude.{None, reverse};
    ghost use Rattle.gr_member.specs.Replicas.{newest_turned};

    ghost ask = { λ shard. newest_turned (reverse shard.deeds) };

    ghost state = { λ shard. None };
}
