//! The digits of numbers that have few.
ghost use Rattle.std.specs.Prelude.{◌≡◌, ◌+◌, ◌/◌, ◌%◌, ◌<◌, ◌≤◌, decimal};

/// The digits of the numbers below 100, two of each.
static PAIRS: [u8; 200] =
    *b"00010203040506070809101112131415161718192021222324252627282930313233343536373839404142434445464748495051525354555657585960616263646566676869707172737475767778798081828384858687888990919293949596979899";

#[inline(always)]
#[tactic(auto, using(crate::proofs::Digits::tens_at))]
fn tens(pair: u32) -> u8
    requires { pair < 100 }
    ensures { result ≡ 48 + pair / 10 }
{
    PAIRS[pair as usize * 2]
}

#[inline(always)]
#[tactic(auto, using(crate::proofs::Digits::ones_at))]
fn ones(pair: u32) -> u8
    requires { pair < 100 }
    ensures { result ≡ 48 + pair % 10 }
{
    PAIRS[pair as usize * 2 + 1]
}

#[inline(always)]
#[tactic(auto, using(itoa::proofs::Decimal::decimal_two))]
pub fn two_digits(number: u32) -> [u8; 2]
    requires { (10 ≤ number) × (number < 100) }
    ensures { result ≡ decimal number }
{
    [tens(number), ones(number)]
}

#[inline(always)]
#[tactic(auto, using(itoa::proofs::Decimal::decimal_pair, std::proofs::lemmas::Fmt::decimal_digit))]
pub fn three_digits(number: u32) -> [u8; 3]
    requires { (100 ≤ number) × (number < 1000) }
    ensures { result ≡ decimal number }
{
    let last = number % 100;
    [b'0' + (number / 100) as u8, tens(last), ones(last)]
}

#[inline(always)]
#[tactic(auto, using(itoa::proofs::Decimal::decimal_pair, itoa::proofs::Decimal::decimal_two))]
pub fn four_digits(number: u32) -> [u8; 4]
    requires { (1000 ≤ number) × (number < 10000) }
    ensures { result ≡ decimal number }
{
    let (first, last) = (number / 100, number % 100);
    [tens(first), ones(first), tens(last), ones(last)]
}

#[inline(always)]
#[tactic(auto, using(itoa::proofs::Decimal::decimal_four, std::proofs::lemmas::Fmt::decimal_digit))]
pub fn five_digits(number: u32) -> [u8; 5]
    requires { (10000 ≤ number) × (number < 100000) }
    ensures { result ≡ decimal number }
{
    let behind = number % 10_000;
    let (next, last) = (behind / 100, behind % 100);
    [
        b'0' + (number / 10_000) as u8,
        tens(next),
        ones(next),
        tens(last),
        ones(last),
    ]
}

#[inline(always)]
#[tactic(auto, using(itoa::proofs::Decimal::decimal_four, itoa::proofs::Decimal::decimal_two))]
pub fn six_digits(number: u32) -> [u8; 6]
    requires { (100000 ≤ number) × (number < 1000000) }
    ensures { result ≡ decimal number }
{
    let (first, behind) = (number / 10_000, number % 10_000);
    let (next, last) = (behind / 100, behind % 100);
    [
        tens(first),
        ones(first),
        tens(next),
        ones(next),
        tens(last),
        ones(last),
    ]
}
