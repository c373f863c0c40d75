ghost use Rattle.std.specs.Prelude.{◌≡◌, ◌<◌, ◌≤◌, bytes_eq, drop, length, MatchOption};
ghost use Rattle.gr_value.specs.KeyFront.{front_of};

use std::marker::Model;
use std::sync::Arc;

/// The most bytes that stand in the value itself.
const ROOM: usize = 14;

/// A few bytes that stand in the value itself, with zeros behind them.
#[derive(Drop)]
pub struct Near {
    len: u8,
    all: [u8; ROOM],
}

impl Model for Near {
    ghost use Rattle.std.specs.Prelude.{List, ℕ, take};
    ghost use Rattle.gr_value.specs.KeyFront.{IsPadded};

    ghost Value = { List ℕ };

    ghost view = { λ near. take near.len near.all };

    ghost invariant = { λ near. IsPadded near.len near.all };
}

impl Near {
    /// These bytes, if they are few enough.
    pub fn of_bytes(bytes: &[u8]) -> Option<Near>
        ensures { MatchOption result (14 < length bytes.now) (λ near. near ≡ bytes.now) }
    {
        if bytes.len() > ROOM {
            return None;
        }
        let mut all = [0; ROOM];
        let front = &mut all[..bytes.len()];
        front.copy_from_slice(bytes);
        Some(Near {
            len: bytes.len() as u8,
            all,
        })
    }

    #[inline]
    pub fn as_slice(&self) -> &[u8]
        ensures { result.now ≡ self.now }
    {
        &self.all[..usize::from(self.len)]
    }

    /// The first eight bytes as a number, the first one counting most.
    #[inline]
    pub fn front(&self) -> u64
        ensures { result ≡ front_of self.now }
    {
        front_of(&self.all)
    }

    /// The last eight of the bytes that have room, as such a number.
    #[inline]
    pub fn back(&self) -> u64
        ensures back { result ≡ front_of (drop 6 self.now) }
        ensures few { length self.now ≤ 14 }
    {
        front_of(&self.all[6..])
    }

    /// Whether both are the same bytes.
    #[inline(always)]
    pub fn same(&self, other: &Near) -> bool
        ensures { result ≡ bytes_eq self.now other.now }
    {
        (self.len == other.len) & is_same(&self.all, &other.all)
    }

    pub fn copy(&self) -> Near
        ensures { result ≡ self.now }
    {
        Near {
            len: self.len,
            all: self.all,
        }
    }
}

// Of 14 bytes all are the same where the first eight and the last eight are.
#[inline(always)]
fn is_same(one: &[u8], two: &[u8]) -> bool
    requires one { length one.now ≡ 14 }
    requires two { length two.now ≡ 14 }
    ensures { result ≡ bytes_eq one.now two.now }
{
    (front_of(one) == front_of(two)) & (front_of(&one[6..]) == front_of(&two[6..]))
}

/// Where bytes stand: in the value itself, or far in a place that the copies share.
#[derive(Drop)]
pub enum Held<T> {
    Near(Near),
    Far(Arc<T>),
}

/// The first eight bytes as a number, the first one counting most.
#[inline]
pub fn front_of(bytes: &[u8]) -> u64
    requires { 8 ≤ length bytes.now }
    ensures { result ≡ front_of bytes.now }
{
    u64::from_be_bytes(*bytes.first_chunk::<8>().unwrap())
}
