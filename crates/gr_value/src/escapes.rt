// Which bytes stand for themselves in a quoted text, and what stands for the others.
ghost use Rattle.std.specs.Prelude.{◌≡◌, ◌<◌, ◌≤◌, [], ◌∷◌, ◌++◌, length, take, flat_map, codes, IsTrue, IfSome, IfOk, OnOk, OnErr};
ghost use Rattle.std.specs.Char.{digit_char};
ghost use Rattle.gr_value.specs.ValueText.{escaped};

use crate::Memory;

/// So many bytes are looked at together.
const BLOCK: usize = 16;

/// So many bytes are looked at one by one before whole blocks are, since most runs are short.
const FEW: usize = 8;

// Whether the byte stands for itself.
#[tactic(auto, using(crate::proofs::PlainBytes::escaped_plain))]
#[inline(always)]
fn is_plain(byte: u8) -> bool
    ensures { IsTrue result → escaped byte ≡ byte ∷ [] }
{
    byte >= 0x20 && byte != b'"' && byte != b'\\'
}

// The bytes are tested side by side since none of them ends the loop.
#[tactic(auto, using(crate::proofs::PlainBytes::plain_more))]
#[inline]
fn is_plain_block(block: &[u8; BLOCK]) -> bool
    ensures { IsTrue result → flat_map escaped block.now ≡ block.now }
{
    let mut plain = true;
    for byte in block {
        plain &= is_plain(*byte);
    }
    plain
}

// Whether the bytes begin with a whole block of such bytes.
#[inline(always)]
fn begins_plain(bytes: &[u8]) -> bool
    ensures within { IsTrue result → 16 ≤ length bytes.now }
    ensures plain { IsTrue result → flat_map escaped (take 16 bytes.now) ≡ take 16 bytes.now }
{
    match bytes.first_chunk::<BLOCK>() {
        Some(block) => is_plain_block(block),
        None => false,
    }
}

// How many bytes stand in whole blocks, up to the first block with a byte that doesn't stand for itself.
fn plain_blocks_len(bytes: &[u8]) -> usize
    ensures within { result ≤ length bytes.now }
    ensures plain { flat_map escaped (take result bytes.now) ≡ take result bytes.now }
{
    let mut len = 0;
    'further: while begins_plain(&bytes[len..]) {
        len += BLOCK;
    }
    len
}

// The place of the first byte from `start` on that doesn't stand for itself, or the end.
#[tactic(auto, using(crate::proofs::PlainBytes::plain_more))]
#[inline]
fn plain_until(bytes: &[u8], start: usize, end: usize) -> usize
    requires order { start ≤ end }
    requires within { end ≤ length bytes.now }
    requires plain { flat_map escaped (take start bytes.now) ≡ take start bytes.now }
    ensures within { result ≤ end }
    ensures plain { flat_map escaped (take result bytes.now) ≡ take result bytes.now }
{
    for place in start..end {
        if !is_plain(bytes[place]) {
            return place;
        }
    }
    end
}

/// How many bytes stand for themselves in a quoted text, up to the first that doesn't.
pub(crate) fn plain_len(bytes: &[u8]) -> usize
    ensures within { result ≤ length bytes.now }
    ensures plain { flat_map escaped (take result bytes.now) ≡ take result bytes.now }
{
    let few = bytes.len().min(FEW);
    let len = plain_until(bytes, 0, few);
    if len < few {
        return len;
    }
    plain_until(bytes, plain_blocks_len(bytes), bytes.len())
}

/// Appends a run of bytes. To push a few costs less than the call that copies many.
#[tactic(auto, using(crate::proofs::Kept::kept_more, crate::proofs::Kept::kept_same))]
pub(crate) fn put_run(run: &[u8], out: &mut Vec<u8>) -> Result<(), Memory>
    ensures ok { OnOk result (out.new.items ≡ out.old.items ++ run.now) }
    ensures kept { OnErr result (take (length out.old.items) out.new.items ≡ out.old.items) }
{
    if run.len() > FEW {
        out.extend_from_slice(run)?;
        return Ok(());
    }
    for byte in run {
        out.push(*byte)?;
    }
    Ok(())
}

/// The digit below 16, as a byte of text.
pub(crate) fn hex_digit(digit: u8) -> u8
    requires { digit < 16 }
    ensures { result ≡ digit_char digit }
{
    if digit < 10 {
        b'0' + digit
    } else {
        b'a' - 10 + digit
    }
}

// The byte that a letter behind a backslash stands for, of the letters that are seldom.
#[inline(never)]
#[tactic(auto, unfolding(crate::specs::ValueText::escaped))]
fn byte_of_rare_letter(letter: u8) -> Option<u8>
    ensures { IfSome result (λ byte. escaped byte ≡ 0x5C ∷ letter ∷ []) }
{
    match letter {
        b'b' => Some(0x08),
        b't' => Some(0x09),
        b'f' => Some(0x0C),
        b'r' => Some(0x0D),
        _ => None,
    }
}

// The byte that a letter behind a backslash stands for.
#[inline(always)]
#[tactic(auto, unfolding(crate::specs::ValueText::escaped))]
fn byte_of_letter(letter: u8) -> Option<u8>
    ensures { IfSome result (λ byte. escaped byte ≡ 0x5C ∷ letter ∷ []) }
{
    match letter {
        b'"' | b'\\' => Some(letter),
        b'n' => Some(0x0A),
        _ => byte_of_rare_letter(letter),
    }
}

// The byte that `\u00` and two digits stand for, if it has no letter.
#[tactic(auto, unfolding(crate::specs::ValueText::escaped))]
fn byte_of_digits(high: u8, low: u8) -> Option<u8>
    ensures { IfSome result (λ byte. escaped byte ≡ codes "\\u00" ++ high ∷ low ∷ []) }
{
    let above_nine = if low > b'9' { 9 } else { 0 };
    let byte = (high & 1) * 16 + (low & 0x0F) + above_nine;
    let has_letter = matches!(byte, 0x08 | 0x09 | 0x0A | 0x0C | 0x0D);
    if has_letter || byte >= 0x20 {
        return None;
    }
    if hex_digit(byte / 16) == high && hex_digit(byte % 16) == low {
        Some(byte)
    } else {
        None
    }
}

// The byte in front, if it stands for itself, and what is left behind it.
#[inline(always)]
fn plain_begun(bytes: &[u8]) -> Option<(u8, &[u8])>
    ensures { IfSome result (λ parts.
        (bytes.now ≡ parts.0 ∷ parts.1.now) × (escaped parts.0 ≡ parts.0 ∷ [])) }
{
    match bytes {
        [byte, rest @ ..] if is_plain(*byte) => Some((*byte, rest)),
        _ => None,
    }
}

// The byte that stands behind `\u00` as two digits, and what is left behind it.
#[inline(never)]
fn control_begun(bytes: &[u8]) -> Option<(u8, &[u8])>
    ensures { IfSome result (λ parts. bytes.now ≡ escaped parts.0 ++ parts.1.now) }
{
    match bytes {
        [b'\\', b'u', b'0', b'0', high, low, rest @ ..] => Some((
            byte_of_digits(*high, *low)?,
            rest,
        )),
        _ => None,
    }
}

/// The byte whose escape the bytes begin with, and what is left behind it.
#[inline(always)]
pub(crate) fn escape_begun(bytes: &[u8]) -> Option<(u8, &[u8])>
    ensures { IfSome result (λ parts. bytes.now ≡ escaped parts.0 ++ parts.1.now) }
{
    match bytes {
        [b'\\', letter, rest @ ..] => match byte_of_letter(*letter) {
            Some(byte) => Some((byte, rest)),
            None => control_begun(bytes),
        },
        _ => None,
    }
}

// Moves blocks of bytes that stand for themselves to the end of `out`, if its length is such that
// they are to be looked for. Answers what is left.
#[inline(always)]
fn blocks_moved<'a>(bytes: &'a [u8], out: &mut Vec<u8>) -> Result<&'a [u8], Memory>
    ensures read { IfOk result (λ rest.
        flat_map escaped out.old.items ++ bytes.now ≡ flat_map escaped out.new.items ++ rest.now) }
    ensures printed { IfOk result (λ rest.
        out.old.items ++ flat_map escaped bytes.now ≡ out.new.items ++ flat_map escaped rest.now) }
    ensures within { IfOk result (λ rest. length rest.now ≤ length bytes.now) }
{
    if out.len() % BLOCK != 0 || !begins_plain(bytes) {
        return Ok(bytes);
    }
    let (plain, rest) = bytes.split_at(plain_blocks_len(bytes));
    out.extend_from_slice(plain)?;
    Ok(rest)
}

/// Moves the bytes in front that stand for themselves to the end of `out`, one by one at first, since
/// most runs are short. Answers what is left.
#[inline(always)]
pub(crate) fn plain_moved<'a>(bytes: &'a [u8], out: &mut Vec<u8>) -> Result<&'a [u8], Memory>
    ensures read { IfOk result (λ rest.
        flat_map escaped out.old.items ++ bytes.now ≡ flat_map escaped out.new.items ++ rest.now) }
    ensures printed { IfOk result (λ rest.
        out.old.items ++ flat_map escaped bytes.now ≡ out.new.items ++ flat_map escaped rest.now) }
    ensures within { IfOk result (λ rest. length rest.now ≤ length bytes.now) }
{
    let mut rest = bytes;
    'bytes: while let Some((byte, behind)) = plain_begun(rest) {
        out.push(byte)?;
        rest = blocks_moved(behind, out)?;
    }
    Ok(rest)
}
