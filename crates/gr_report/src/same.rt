ghost use Rattle.std.specs.Prelude.{◌≡◌, ◌↔◌, Bool, IsTrue};
ghost use Rattle.std.specs.Cmp.Lexicographic.{pointwise};
ghost use Rattle.std.specs.List.{list_all};
ghost use Rattle.gr_report.specs.Same.{kind_eq, stamp_eq, row_eq, shard_eq, rows_by_shard, member_eq, are_equal};

use gr_history::{MemberRecord, ShardRecord};
use gr_stamp::{Change, Kind, Stamp};

/// What can be compared.
trait Same {
    // Whether two are the same.
    ghost same: { Self → Self → Bool };

    fn is_same(&self, other: &Self) -> bool
        ensures { result ≡ same self.now other.now };
}

// Whether two lists are as long, and have the same at each place.
fn are_same<T: Same>(one: &[T], two: &[T]) -> bool
    ensures { result ≡ pointwise T.same one.now two.now }
{
    if one.len() != two.len() {
        return false;
    }
    for (place, item) in one.iter().enumerate() {
        if !item.is_same(&two[place]) {
            return false;
        }
    }
    true
}

// Whether both put the same value, both are invalidations, or both are removals.
fn is_same_kind(one: &Kind, two: &Kind) -> bool
    ensures { result ≡ kind_eq one.now two.now }
{
    match (one, two) {
        (Kind::Put(one), Kind::Put(two)) => one.same(two),
        (Kind::Invalid, Kind::Invalid) | (Kind::Remove, Kind::Remove) => true,
        _ => false,
    }
}

fn is_same_stamp(one: &Stamp, two: &Stamp) -> bool
    ensures { result ≡ stamp_eq one.now two.now }
{
    one.ver() == two.ver() && one.member() == two.member() && one.rv() == two.rv()
}

impl Same for Change {
    ghost same = { row_eq };

    fn is_same(&self, other: &Change) -> bool {
        self.key == other.key
            && is_same_kind(&self.kind, &other.kind)
            && is_same_stamp(&self.stamp, &other.stamp)
    }
}

impl Same for ShardRecord {
    ghost same = { shard_eq };

    fn is_same(&self, other: &ShardRecord) -> bool {
        are_same(self.region.rows.as_slice(), other.region.rows.as_slice())
    }
}

// Whether two members have the same rows at each shard.
#[tactic(auto, using(crate::proofs::Sameness::member_eq_decides))]
fn is_like(one: &MemberRecord, two: &MemberRecord) -> bool
    ensures test { result ≡ member_eq one.now two.now }
    ensures equal { IsTrue result ↔ (rows_by_shard one.now ≡ rows_by_shard two.now) }
{
    are_same(one.shards.as_slice(), two.shards.as_slice())
}

// Whether all others have the rows of the first.
fn are_all_like(first: &MemberRecord, others: &[MemberRecord]) -> bool
    ensures { result ≡ list_all (member_eq first.now) others.now }
{
    others.iter().all(|other| is_like(first, other))
}

/// Whether all members have the same rows, with their stamps.
pub fn are_equal(members: &[MemberRecord]) -> bool
    ensures { result ≡ are_equal members.now }
{
    match members {
        [first, others @ ..] => are_all_like(first, others),
        [] => true,
    }
}
