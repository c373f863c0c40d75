ghost use Rattle.std.specs.Prelude.{◌≡◌, IfOk};
ghost use Rattle.gr_value.specs.Shard.{shard_of};
ghost use Rattle.gr_history.specs.Asks.{key_of};

use gr_history::Ask;
use gr_shard::{Identity, Shard};
use gr_slots::Slot;
use gr_stamp::{Stamp, decide};
use gr_value::{Copied, Key, Memory, Value};
use std::alloc::Global;
use std::process::Abort;
use std::test::Fail;

// The first of two members, at the one shard of its region.
const FIRST: Identity = Identity {
    member: 1,
    members: 2,
    founders: 2,
    shard: 0,
    shards: 1,
};

// What is asked of a key.
fn put(alloc: Global, key: &Key) -> Result<Ask, Fail>
    ensures { IfOk result (λ ask. key_of ask ≡ key.now) }
{
    Ok(Ask::Put {
        key: key.copy(alloc)?,
        value: Value::read(alloc, b"{}")?,
    })
}

fn invalidate(alloc: Global, key: &Key) -> Result<Ask, Memory>
    ensures { IfOk result (λ ask. key_of ask ≡ key.now) }
{
    Ok(Ask::Invalidate {
        key: key.copy(alloc)?,
    })
}

// A value is put, and taken away twice.
fn put_and_invalidate(alloc: Global, shard: &mut Shard, key: &Key) -> Result<(), Fail>
    requires { shard_of key.now shard.old.id.shards ≡ shard.old.id.shard }
{
    shard.serve(alloc, 1, 1, put(alloc, key)?)?;
    shard.serve(alloc, 1, 2, invalidate(alloc, key)?)?;
    shard.serve(alloc, 1, 3, invalidate(alloc, key)?)?;
    Ok(())
}

// The floor, the version of what stands at the key, and what is known of the first member's changes.
fn stands(shard: &Shard, key: &Key) -> (u64, Option<u64>, bool, bool, u64) {
    let version = shard.slots().find(key).map(|slot: &Slot| slot.stamp.ver());
    let vector = shard.vector();
    (
        shard.floor(),
        version,
        vector.holds(1, 1),
        vector.holds(1, 2),
        vector.top(1),
    )
}

// How long the history is that is taken out, and the region's rows, tombstones and floor.
fn left(alloc: Global, shard: &Shard) -> Result<(u64, usize, u64, u64), Memory> {
    let left = shard.taken_out(alloc)?;
    Ok((
        left.history.len(),
        left.region.rows.len(),
        left.region.tombstones,
        left.region.floor,
    ))
}

fn knows(alloc: Global, shard: &Shard, key: &[u8]) -> Result<bool, Fail> {
    let key = Key::read(alloc, key)?;
    Ok(shard.known(&key))
}

fn is_known(rt: &impl Abort, alloc: Global, shard: &Shard, key: &Key) -> Result<(), Fail> {
    assert!(rt; shard.known(key) && shard.present(key).is_none());
    assert!(rt; !knows(alloc, shard, b"b")?);
    assert!(rt; stands(shard, key) == (3, Some(5), true, true, 2));
    assert_eq!(rt; left(alloc, shard)?, (3, 1, 0, 3));
    Ok(())
}

fn put_and_look(rt: &impl Abort, alloc: Global, shard: &mut Shard, key: &Key) -> Result<(), Fail>
    requires { shard_of key.now shard.old.id.shards ≡ shard.old.id.shard }
{
    put_and_invalidate(alloc, shard, key)?;
    is_known(rt, alloc, shard, key)
}

fn know_one(rt: &impl Abort, alloc: Global, key: &Key) -> Result<(), Fail>
    requires { shard_of key.now 1 ≡ 0 }
{
    let mut shard = Shard::new(alloc, FIRST, 3)?;
    put_and_look(rt, alloc, &mut shard, key)
}

// The put has the version 4, and the first invalidation the next; the second makes nothing. The key is a row of
// the region.
#[test]
fn an_invalidated_key_is_known(rt: HostRuntime) -> Result<(), Fail> {
    let alloc = rt.alloc();
    let key = Key::read(alloc, b"a")?;
    assert_eq!(rt; key.shard(1), 0);
    know_one(&rt, alloc, &key)
}

fn stamp(rt: &impl Abort, ver: u64, member: u8, rv: u64) -> Stamp {
    Stamp::new(ver, member, rv).expect(rt, "a stamp")
}

// What is held is replaced by a greater version, and by a greater member where versions are equal.
#[test]
fn the_greater_stamp_decides(rt: HostRuntime) -> Result<(), Fail> {
    let held = stamp(&rt, 2, 2, 1);
    assert!(rt; decide(None, &held));
    for (ver, member, rv, replaces) in [
        (3, 1, 1, true),
        (2, 3, 1, true),
        (2, 2, 2, true),
        (2, 2, 1, false),
        (2, 1, 9, false),
        (1, 8, 9, false),
    ] {
        let new = stamp(&rt, ver, member, rv);
        assert_eq!(rt; decide(Some(&held), &new), replaces);
    }
    Ok(())
}
