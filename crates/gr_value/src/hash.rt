ghost use Rattle.std.specs.Prelude.{◌≡◌, ◌≤◌, ◌*◌, length};
ghost use Rattle.gr_value.specs.KeyHash.{folded, mixed, hash_of};

use crate::near::front_of;

/// What the first bytes of a key are multiplied by: an odd number whose products are spread.
const FRONT_FACTOR: u64 = 11_400_714_819_323_198_485;

/// What the last bytes of a key are multiplied by: another such number.
const BACK_FACTOR: u64 = 14_029_467_366_897_019_727;

/// The number that a key has whose eights are folded to the one number and whose last bytes spell the
/// other.
#[inline(always)]
pub fn mixed(front: u64, back: u64) -> u32
    ensures { result ≡ mixed front back }
{
    let sum = front
        .wrapping_mul(FRONT_FACTOR)
        .wrapping_add(back.wrapping_mul(BACK_FACTOR));
    (sum >> 32) as u32
}

// The first so many eights of the bytes as one number.
#[tactic(auto, using(crate::proofs::Folding::one_more))]
fn folded(bytes: &[u8], count: usize) -> u64
    requires { count * 8 ≤ length bytes.now }
    ensures { result ≡ folded count bytes.now }
{
    let mut sum = 0u64;
    for eight in 0..count {
        sum = sum
            .wrapping_mul(BACK_FACTOR)
            .wrapping_add(front_of(&bytes[eight * 8..]));
    }
    sum
}

/// The number that a key has of these bytes.
#[inline(never)]
pub fn hash_of(bytes: &[u8]) -> u32
    requires { 14 ≤ length bytes.now }
    ensures { result ≡ hash_of bytes.now }
{
    let front = folded(bytes, bytes.len() / 8);
    mixed(front, front_of(&bytes[bytes.len() - 8..]))
}
