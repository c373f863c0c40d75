// The meeting of two passes, shard by shard.
ghost use Rattle.std.specs.Prelude.{◌≡◌, length};
ghost use Rattle.gr_member.specs.Passes.{AreTheirs, MeetsAll};

use crate::lock::ShardLock;
use crate::pass::ShardPass;

pub(crate) fn meet_each(locks: &[ShardLock], into: &mut Vec<ShardPass>, from: Vec<ShardPass>)
    requires its { AreTheirs locks.now into.old.items }
    requires theirs { AreTheirs locks.now from.items }
    ensures { MeetsAll into.old.items from.items into.new.items }
{
    let mut rest = from;
    for _k in 0..locks.len() {
        let Some(other) = rest.pop() else {
            unreachable!()
        };
        let at = rest.len();
        into[at].meet(&locks[at].lock, other);
    }
    rest.destroy_empty();
}
