ghost use Rattle.std.specs.Prelude.{◌≡◌, ◌≤◌, ◌<◌, IfOk, IfSome, IsTrue, Some, None, MatchResult, length};
ghost use Rattle.gr_value.specs.KeyBytes.{is_key_byte, bad_place, IsKey, key_fault, FaultIs};
ghost use Rattle.std.specs.Cmp.Lexicographic.{slice_cmp};
ghost use Rattle.std.specs.Ordering.{nat_cmp};
ghost use Rattle.gr_value.specs.KeyFront.{front_of};
ghost use Rattle.gr_value.specs.KeyHash.{hash_of};
ghost use Rattle.gr_value.specs.Shard.{shard_of};

use crate::hash::{hash_of, mixed};
use crate::near::{Held, Near, front_of};
use crate::{Copied, ItemList, KeyFault, Memory};
use std::alloc::Global;
use std::cmp::Ordering;
use std::marker::Model;
use std::sync::Arc;

/// The most bytes of a key.
const MOST_BYTES: usize = 255;

/// A key: 1 to 255 bytes, each from 0x21 to 0x7E. Contracts see it as its bytes. Up to 14 bytes stand
/// in the key itself, and of more the copies share one place.
#[derive(Drop)]
pub struct Key {
    held: Held<Vec<u8>>,
}

pub type KeyList = ItemList<Key>;

impl Model for Key {
    ghost use Rattle.std.specs.Prelude.{List, ℕ};
    ghost use Rattle.gr_value.specs.KeyBytes.{IsKey};
    ghost use Rattle.gr_value.specs.Held.{held_bytes, IsHeld};

    ghost Value = { List ℕ };

    ghost view = { λ key. held_bytes (λ far. far.items) key.held };

    ghost invariant = { λ key. IsKey (held_bytes (λ far. far.items) key.held) × IsHeld (λ far. far.items) key.held };
}

fn is_key_byte(byte: u8) -> bool
    ensures { result ≡ is_key_byte byte }
{
    0x21 <= byte && byte <= 0x7E
}

fn bad_place(bytes: &[u8]) -> Option<usize>
    ensures place { result ≡ bad_place bytes.now }
    ensures within { IfSome result (λ place. place < length bytes.now) }
{
    bytes.iter().position(|byte| !is_key_byte(*byte))
}

fn fault_of(bytes: &[u8]) -> Option<KeyFault>
    ensures { result ≡ key_fault bytes.now }
{
    if bytes.is_empty() {
        Some(KeyFault::Empty)
    } else if bytes.len() > MOST_BYTES {
        Some(KeyFault::TooLong)
    } else {
        bad_place(bytes).map(|place| KeyFault::BadByte(place as u32))
    }
}

// Of two keys that stand near, the first and the last eight bytes tell the order.
#[inline(always)]
fn cmp_near(one: &Near, two: &Near) -> Ordering
    requires one { IsKey one.now }
    requires two { IsKey two.now }
    ensures { result ≡ slice_cmp nat_cmp one.now two.now }
{
    let (front, other) = (one.front(), two.front());
    if front == other {
        one.back().cmp(&two.back())
    } else {
        front.cmp(&other)
    }
}

// The order of bytes of keys, eight of which are looked at together.
fn cmp_by_eights(one: &[u8], two: &[u8]) -> Ordering
    requires one { IsKey one.now }
    requires two { IsKey two.now }
    ensures { result ≡ slice_cmp nat_cmp one.now two.now }
{
    let (mut left, mut right) = (one, two);
    'eights: while left.len() >= 8 && right.len() >= 8 {
        let (front, other) = (front_of(left), front_of(right));
        if front != other {
            return front.cmp(&other);
        }
        left = &left[8..];
        right = &right[8..];
    }
    left.cmp(right)
}

impl Key {
    /// Reads a key. Its faults are looked for in the order of `KeyFault`.
    pub fn read(alloc: Global, bytes: &[u8]) -> Result<Key, KeyFault>
        ensures { MatchResult result (λ key. (key ≡ bytes.now) × IsKey bytes.now) (FaultIs (key_fault bytes.now)) }
    {
        if let Some(fault) = fault_of(bytes) {
            return Err(fault);
        }
        Ok(Key::of_bytes(alloc, bytes)?)
    }

    /// The key of bytes that are known to be a key's.
    pub fn of_bytes(alloc: Global, bytes: &[u8]) -> Result<Key, Memory>
        requires { IsKey bytes.now }
        ensures { IfOk result (λ key. key ≡ bytes.now) }
    {
        let held = match Near::of_bytes(bytes) {
            Some(near) => Held::Near(near),
            None => Held::Far(Arc::new(alloc, Vec::from_slice(alloc, bytes)?)?),
        };
        Ok(Key { held })
    }

    #[inline]
    pub fn bytes(&self) -> &[u8]
        ensures bytes { result.now ≡ self.now }
        ensures key { IsKey self.now }
    {
        match &self.held {
            Held::Near(near) => near.as_slice(),
            Held::Far(shared) => shared.as_slice(),
        }
    }

    // The order of keys of which one at least stands elsewhere.
    #[inline(never)]
    fn cmp_far(&self, other: &Key) -> Ordering
        ensures { result ≡ slice_cmp nat_cmp self.now other.now }
    {
        cmp_by_eights(self.bytes(), other.bytes())
    }

    /// A number that differs for most keys, drawn from all its bytes.
    #[inline(always)]
    pub fn hash(&self) -> u32
        ensures { result ≡ hash_of self.now }
    {
        match &self.held {
            Held::Near(near) => mixed(near.front(), near.back()),
            Held::Far(shared) => hash_of(shared.as_slice()),
        }
    }

    /// The shard of this key where there are so many, counted from 0.
    pub fn shard(&self, shards: u8) -> u8
        requires some { 1 ≤ shards }
        requires most { shards ≤ 32 }
        ensures { result ≡ shard_of self.now shards }
    {
        if shards == 1 {
            return 0;
        }
        let mut hash = 0u64;
        for byte in self.bytes() {
            hash = (hash * 31 + u64::from(*byte)) % 0x1_0000_0000;
        }
        (hash % u64::from(shards)) as u8
    }
}

impl PartialEq for Key {
    ghost use Rattle.std.specs.Prelude.{bytes_eq};
    ghost use Rattle.std.proofs.Common.{rules};
    ghost use Rattle.std.specs.Cmp.Rules.{comparing};

    ghost eq = { bytes_eq };

    ghost laws = { Prim.search (comparing, rules) };

    #[inline(always)]
    fn eq(&self, other: &Key) -> bool {
        self.cmp(other).is_eq()
    }
}

impl Eq for Key {
    ghost use Rattle.std.proofs.Common.{rules};
    ghost use Rattle.std.specs.Cmp.Rules.{comparing};

    ghost laws = { Prim.search (comparing, rules) };
}

impl PartialOrd for Key {
    ghost use Rattle.std.specs.Ordering.{as_partial_cmp, nat_cmp};
    ghost use Rattle.std.specs.Cmp.Lexicographic.{slice_cmp};
    ghost use Rattle.std.proofs.Common.{rules};
    ghost use Rattle.std.specs.Cmp.{partial_order_from_own_ties};
    ghost use Rattle.std.specs.Cmp.Rules.{comparing};

    ghost partial_cmp = { as_partial_cmp (slice_cmp nat_cmp) };

    ghost laws = { partial_order_from_own_ties (Prim.search (comparing, rules)) (Prim.search (comparing, rules)) };

    fn partial_cmp(&self, other: &Key) -> Option<Ordering> {
        Some(self.cmp(other))
    }
}

/// Keys are in the order of their bytes.
impl Ord for Key {
    ghost use Rattle.std.specs.Ordering.{nat_cmp};
    ghost use Rattle.std.specs.Cmp.Lexicographic.{slice_cmp};
    ghost use Rattle.std.proofs.Common.{rules};
    ghost use Rattle.std.specs.Cmp.Rules.{comparing};

    ghost cmp = { slice_cmp nat_cmp };

    ghost total = { Prim.search (comparing, rules) };

    ghost matches_partial_cmp = { Prim.search (comparing, rules) };

    ghost matches_eq = { Prim.search (comparing, rules) };

    #[inline(always)]
    fn cmp(&self, other: &Key) -> Ordering {
        match (&self.held, &other.held) {
            (Held::Near(one), Held::Near(two)) => cmp_near(one, two),
            _ => self.cmp_far(other),
        }
    }
}

impl Copied for Key {
    #[inline(always)]
    fn copy(&self, _alloc: Global) -> Result<Key, Memory> {
        let held = match &self.held {
            Held::Near(near) => Held::Near(near.copy()),
            Held::Far(shared) => Held::Far(Arc::try_clone(shared)?),
        };
        Ok(Key { held })
    }
}
