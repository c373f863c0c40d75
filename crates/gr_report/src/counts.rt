ghost use Rattle.std.specs.Prelude.{◌≡◌, ◌+◌, ◌<◌, ◌≤◌, ◌^◌};
ghost use Rattle.gr_report.specs.Counts.{counts_of};

use gr_history::ShardRecord;

/// What is counted at a member, over its shards.
#[derive(Clone, Copy)]
pub struct Counts {
    pub entries: u128,
    pub tombstones: u128,
    pub conflated: u128,
    pub repeats: u128,
}

/// Adds to a sum.
pub fn sum(total: u128, more: u64) -> u128
    requires { total < 2 ^ 127 }
    ensures sum { result ≡ total + more }
    ensures most { result ≤ total + 2 ^ 64 }
{
    total + u128::from(more)
}

pub fn count_all(shards: &[ShardRecord]) -> Counts
    ensures { result ≡ counts_of shards.now }
{
    let mut counts = Counts {
        entries: 0,
        tombstones: 0,
        conflated: 0,
        repeats: 0,
    };
    for shard in shards {
        counts.entries = sum(counts.entries, shard.region.rows.len() as u64);
        counts.tombstones = sum(counts.tombstones, shard.region.tombstones);
        counts.conflated = sum(counts.conflated, shard.history.discarded());
        counts.repeats = sum(counts.repeats, shard.history.repeats());
    }
    counts
}
