ghost use Rattle.std.specs.Prelude.{◌≡◌, ◌++◌, ◌∷◌, ◌<◌, ◌≤◌, [], decimal, OnOk};
ghost use Rattle.gr_report.specs.Regions.{counted};

use crate::decimals::{five_digits, four_digits, six_digits, three_digits, two_digits};
use gr_value::Memory;
use itoa::{Buffer, Integer};

/// Puts a text last. One that is known where it is put is copied without a call.
#[inline(always)]
pub fn put_text(out: &mut Vec<u8>, text: &str) -> Result<(), Memory>
    ensures { OnOk result (out.new.items ≡ out.old.items ++ text.now) }
{
    out.extend_from_slice(text.as_bytes())?;
    Ok(())
}

/// Puts a byte last.
#[inline(always)]
pub fn put_byte(out: &mut Vec<u8>, byte: u8) -> Result<(), Memory>
    ensures { OnOk result (out.new.items ≡ out.old.items ++ byte ∷ []) }
{
    out.push(byte)?;
    Ok(())
}

// Nearly all numbers of a report are such, and what `itoa` gives is copied by a call. The table of pairs
// is that of `itoa`, which isn't public; its lemma is cited. Greater numbers go through `itoa`.
// Puts a number of two to six digits last, in one piece.
#[inline(always)]
fn put_short(out: &mut Vec<u8>, number: u32) -> Result<(), Memory>
    requires { (10 ≤ number) × (number < 1000000) }
    ensures { OnOk result (out.new.items ≡ out.old.items ++ decimal number) }
{
    match number {
        0..=99 => out.extend_from_slice(&two_digits(number))?,
        100..=999 => out.extend_from_slice(&three_digits(number))?,
        1000..=9999 => out.extend_from_slice(&four_digits(number))?,
        10_000..=99_999 => out.extend_from_slice(&five_digits(number))?,
        _ => out.extend_from_slice(&six_digits(number))?,
    }
    Ok(())
}

// The digits of 64 bits are found faster than those of more.
#[inline(never)]
fn put_long(out: &mut Vec<u8>, number: u128) -> Result<(), Memory>
    ensures { OnOk result (out.new.items ≡ out.old.items ++ decimal number) }
{
    match u64::try_from(number) {
        Ok(small) => put_text(out, Buffer::new().format(small)),
        Err(_) => put_text(out, Buffer::new().format(number)),
    }
}

/// Puts a number last, in decimal digits. Few digits are put at once.
#[inline(always)]
#[tactic(auto, using(crate::proofs::Digits::one_digit))]
pub fn put_number(out: &mut Vec<u8>, number: u128) -> Result<(), Memory>
    ensures { OnOk result (out.new.items ≡ out.old.items ++ decimal number) }
{
    if number < 10 {
        return put_byte(out, b'0' + number as u8);
    }
    if number < 1_000_000 {
        return put_short(out, number as u32);
    }
    put_long(out, number)
}

/// Puts a word and a number behind it last.
pub fn put_counted(out: &mut Vec<u8>, word: &str, number: u128) -> Result<(), Memory>
    ensures { OnOk result (out.new.items ≡ out.old.items ++ counted word.now number) }
{
    put_text(out, word)?;
    put_number(out, number)
}
