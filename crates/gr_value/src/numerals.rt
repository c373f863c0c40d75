// Numbers that a text begins with.
ghost use Rattle.std.specs.Prelude.{◌≡◌, ◌≤◌, ◌<◌, ◌^◌, ◌+◌, ◌∷◌, ◌++◌, decimal, IfSome};
ghost use Rattle.gr_value.specs.ValueText.{scalar_text};
ghost use Rattle.gr_value.specs.Values.{IsScalar};

use crate::Scalar;

/// Digits are read up to a number that is greater. The few numbers that go on then are left to the
/// JSON reader.
const GREAT: u64 = 100_000_000_000_000_000;

// The digit that the bytes begin with, and what is left behind it.
#[inline(always)]
fn digit_begun(bytes: &[u8]) -> Option<(u64, &[u8])>
    ensures { IfSome result (λ parts. (bytes.now ≡ (48 + parts.0) ∷ parts.1.now) × (parts.0 < 10)) }
{
    match bytes {
        [digit, rest @ ..] if digit.is_ascii_digit() => Some((u64::from(*digit - b'0'), rest)),
        _ => None,
    }
}

// The number that a first digit and those behind it spell, and what is left.
fn number_further(first: u64, bytes: &[u8]) -> (u64, &[u8])
    requires some { 1 ≤ first }
    requires few { first < 10 }
    ensures text { decimal first ++ bytes.now ≡ decimal result.0 ++ result.1.now }
    ensures range { (1 ≤ result.0) × (result.0 < 2 ^ 63) }
{
    let (mut number, mut rest) = (first, bytes);
    'digits: while let Some((digit, behind)) = digit_begun(rest) {
        if number > GREAT {
            return (number, rest);
        }
        number = number * 10 + digit;
        rest = behind;
    }
    (number, rest)
}

// The number with no sign that the bytes begin with, whose first digit is 0 only if it is the only one,
// and what is left behind it.
#[inline(always)]
#[tactic(auto, using(crate::proofs::Decimals::digit_alone))]
fn digits_begun(bytes: &[u8]) -> Option<(u64, &[u8])>
    ensures { IfSome result (λ parts. (bytes.now ≡ decimal parts.0 ++ parts.1.now) × (parts.0 < 2 ^ 63)) }
{
    let (first, behind) = digit_begun(bytes)?;
    if first == 0 {
        Some((0, behind))
    } else {
        Some(number_further(first, behind))
    }
}

// The number below 0 whose digits the bytes begin with, and what is left behind it.
fn negative_begun(bytes: &[u8]) -> Option<(Scalar, &[u8])>
    ensures { IfSome result (λ parts. (45 ∷ bytes.now ≡ scalar_text parts.0 ++ parts.1.now) × IsScalar parts.0) }
{
    match digits_begun(bytes)? {
        (0, _) => None,
        (number, rest) => Some((Scalar::Int(-(number as i64)), rest)),
    }
}

/// The number that the bytes begin with, and what is left behind it.
#[inline(always)]
pub(crate) fn number_begun(bytes: &[u8]) -> Option<(Scalar, &[u8])>
    ensures { IfSome result (λ parts. (bytes.now ≡ scalar_text parts.0 ++ parts.1.now) × IsScalar parts.0) }
{
    match bytes {
        [b'-', rest @ ..] => negative_begun(rest),
        _ => {
            let (number, rest) = digits_begun(bytes)?;
            Some((Scalar::Int(number as i64), rest))
        }
    }
}
