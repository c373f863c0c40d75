use crate::replica::Replica;
use gr_peek::Told;
use gr_turn::TurnLock;

// The lock of a shard, and a note that names the copy which stands behind it.
pub struct ShardLock {
    pub(crate) lock: TurnLock<Replica>,
    pub(crate) name: Told,
}
