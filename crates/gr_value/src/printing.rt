ghost use Rattle.std.specs.Prelude.{◌≤◌, List, slice_index, All, ◌≡◌, ◌<◌, ◌/◌, ◌%◌, [], ◌∷◌, ◌++◌, codes, flat_map, OnOk, OnErr};
ghost use Rattle.std.specs.Prelude.{◌≢◌, nat_lt, if◌then◌else◌, length, take, MatchOption};
ghost use Rattle.std.specs.Char.{digit_char};
ghost use Rattle.gr_value.specs.ValueText.{escaped, quoted, scalar_text, field_text, value_text};
ghost use Rattle.gr_value.specs.Values.{IsValue};
ghost use Rattle.gr_value.specs.declared.value.Field.{Field as AField};

use crate::escapes::{hex_digit, plain_len, plain_moved, put_run};
use crate::{Field, Memory, Scalar, Value};
use itoa::Buffer;
use std::alloc::Global;

#[inline(always)]
fn put_control(byte: u8, out: &mut Vec<u8>) -> Result<(), Memory>
    ensures { OnOk result (out.new.items
        ≡ out.old.items ++ codes "\\u00" ++ digit_char (byte / 16) ∷ digit_char (byte % 16) ∷ []) }
{
    let (high, low) = (hex_digit(byte / 16), hex_digit(byte % 16));
    out.extend_from_slice(&[b'\\', b'u', b'0', b'0', high, low])?;
    Ok(())
}

// The letter that stands for a byte behind a backslash, of the bytes that are seldom.
#[inline(never)]
#[tactic(auto, unfolding(crate::specs::ValueText::escaped))]
fn rare_letter_of(byte: u8) -> Option<u8>
    requires quote { byte ≢ 0x22 }
    requires backslash { byte ≢ 0x5C }
    requires line { byte ≢ 0x0A }
    ensures { MatchOption result
        (escaped byte ≡ (if nat_lt byte 0x20
        then codes "\\u00" ++ digit_char (byte / 16) ∷ digit_char (byte % 16) ∷ [] else byte ∷ []))
        (λ letter. escaped byte ≡ 0x5C ∷ letter ∷ []) }
{
    match byte {
        0x08 => Some(b'b'),
        0x09 => Some(b't'),
        0x0C => Some(b'f'),
        0x0D => Some(b'r'),
        _ => None,
    }
}

// The letter that stands for a byte behind a backslash.
#[inline(always)]
#[tactic(auto, unfolding(crate::specs::ValueText::escaped))]
fn letter_of(byte: u8) -> Option<u8>
    ensures { MatchOption result
        (escaped byte ≡ (if nat_lt byte 0x20
        then codes "\\u00" ++ digit_char (byte / 16) ∷ digit_char (byte % 16) ∷ [] else byte ∷ []))
        (λ letter. escaped byte ≡ 0x5C ∷ letter ∷ []) }
{
    match byte {
        b'"' | b'\\' => Some(byte),
        0x0A => Some(b'n'),
        _ => rare_letter_of(byte),
    }
}

#[inline(always)]
#[tactic(auto, unfolding(crate::specs::ValueText::escaped))]
fn put_escaped(byte: u8, out: &mut Vec<u8>) -> Result<(), Memory>
    ensures { OnOk result (out.new.items ≡ out.old.items ++ escaped byte) }
{
    if let Some(letter) = letter_of(byte) {
        out.push(b'\\')?;
        out.push(letter)?;
    } else if byte < 0x20 {
        put_control(byte, out)?;
    } else {
        out.push(byte)?;
    }
    Ok(())
}

// All that is put stands in a place of its own until it is whole.
#[tactic(auto, using(crate::proofs::Kept::kept_more, crate::proofs::Kept::kept_same))]
fn put_escapes(alloc: Global, text: &[u8], out: &mut Vec<u8>) -> Result<(), Memory>
    ensures ok { OnOk result (out.new.items ≡ out.old.items ++ flat_map escaped text.now) }
    ensures kept { OnErr result (take (length out.old.items) out.new.items ≡ out.old.items) }
{
    let mut marks = Vec::with_capacity(alloc, text.len())?;
    let mut rest = text;
    'escapes: while let [byte, behind @ ..] = rest {
        put_escaped(*byte, &mut marks)?;
        rest = plain_moved(behind, &mut marks)?;
    }
    out.extend_from_slice(&marks)?;
    Ok(())
}

// Few texts have bytes that don't stand for themselves.
#[tactic(auto, using(crate::proofs::Kept::kept_more, crate::proofs::Kept::kept_same))]
fn put_quoted(alloc: Global, text: &[u8], out: &mut Vec<u8>) -> Result<(), Memory>
    ensures ok { OnOk result (out.new.items ≡ out.old.items ++ quoted text.now) }
    ensures kept { OnErr result (take (length out.old.items) out.new.items ≡ out.old.items) }
{
    let (plain, rest) = text.split_at(plain_len(text));
    out.push(b'"')?;
    put_run(plain, out)?;
    if !rest.is_empty() {
        put_escapes(alloc, rest, out)?;
    }
    out.push(b'"')?;
    Ok(())
}

#[tactic(auto, using(crate::proofs::Kept::kept_more, crate::proofs::Kept::kept_same))]
fn put_scalar(alloc: Global, scalar: &Scalar, out: &mut Vec<u8>) -> Result<(), Memory>
    ensures ok { OnOk result (out.new.items ≡ out.old.items ++ scalar_text scalar.now) }
    ensures kept { OnErr result (take (length out.old.items) out.new.items ≡ out.old.items) }
{
    match scalar {
        Scalar::Null => out.extend_from_slice(b"null")?,
        Scalar::Bool(true) => out.extend_from_slice(b"true")?,
        Scalar::Bool(false) => out.extend_from_slice(b"false")?,
        Scalar::Int(number) => {
            let mut digits = Buffer::new();
            out.extend_from_slice(digits.format(*number).as_bytes())?;
        }
        Scalar::Text(text) => put_quoted(alloc, text.bytes(), out)?,
    }
    Ok(())
}

#[inline(always)]
#[tactic(auto, using(crate::proofs::Kept::kept_more, crate::proofs::Kept::kept_same))]
fn put_field(alloc: Global, field: &Field, out: &mut Vec<u8>) -> Result<(), Memory>
    ensures ok { OnOk result (out.new.items ≡ out.old.items ++ field_text field.now) }
    ensures kept { OnErr result (take (length out.old.items) out.new.items ≡ out.old.items) }
{
    put_quoted(alloc, field.name.bytes(), out)?;
    out.push(b':')?;
    put_scalar(alloc, &field.scalar, out)?;
    Ok(())
}

#[tactic(auto, using(crate::proofs::Kept::kept_more, crate::proofs::Kept::kept_same))]
fn put_rest(alloc: Global, fields: &[Field], out: &mut Vec<u8>) -> Result<(), Memory>
    ensures ok { OnOk result (out.new.items
        ≡ out.old.items ++ flat_map (λ field. codes "," ++ field_text field) fields.now) }
    ensures kept { OnErr result (take (length out.old.items) out.new.items ≡ out.old.items) }
{
    for field in fields {
        out.push(b',')?;
        put_field(alloc, field, out)?;
    }
    Ok(())
}

#[tactic(auto, using(crate::proofs::Kept::kept_more, crate::proofs::Kept::kept_same), unfolding(crate::specs::ValueText::value_text))]
fn put_fields(alloc: Global, fields: &[Field], out: &mut Vec<u8>) -> Result<(), Memory>
    ensures ok { OnOk result (out.new.items ≡ out.old.items ++ value_text fields.now) }
    ensures kept { OnErr result (take (length out.old.items) out.new.items ≡ out.old.items) }
{
    out.push(b'{')?;
    if let [first, rest @ ..] = fields {
        put_field(alloc, first, out)?;
        put_rest(alloc, rest, out)?;
    }
    out.push(b'}')?;
    Ok(())
}

impl Value {
    /// Appends the text of the value, whole or not at all.
    pub fn print_to(&self, alloc: Global, out: &mut Vec<u8>) -> Result<(), Memory>
        ensures ok { OnOk result (out.new.items ≡ out.old.items ++ value_text self.now) }
        ensures err { OnErr result (out.new.items ≡ out.old.items) }
    {
        let before = out.len();
        let done = match self.own_text() {
            Some(text) => put_run(text, out),
            None => put_fields(alloc, self.fields(), out),
        };
        if done.is_err() {
            out.truncate(before);
        }
        done
    }
}

/// What a value prints begins with a brace, and stands on one line.
pub fn values_print_on_one_line()
    ensures brace { (fields : List AField) → slice_index (value_text fields) 0 ≡ 0x7B }
    ensures line { (fields : List AField) → IsValue fields
        → All (λ byte. 0x20 ≤ byte) (value_text fields) }
{}
