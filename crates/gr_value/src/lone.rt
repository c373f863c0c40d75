// A value of one field, with a number and a short name of ASCII, is read at once from the text that it
// prints, which takes no memory.
ghost use Rattle.std.specs.Prelude.{◌≡◌, ◌∷◌, ◌++◌, [], IsTrue, IfSome};
ghost use Rattle.std.specs.Str.{is_utf8};
ghost use Rattle.gr_value.specs.ValueText.{quoted, value_text};
ghost use Rattle.gr_value.specs.Values.{IsField};

use crate::escapes::plain_len;
use crate::numerals::number_begun;
use crate::{Field, Text};

// What stands behind the byte, where the text begins with it.
#[inline(always)]
fn behind(byte: u8, bytes: &[u8]) -> Option<&[u8]>
    ensures { IfSome result (λ rest. bytes.now ≡ byte ∷ rest.now) }
{
    match bytes {
        [first, rest @ ..] if *first == byte => Some(rest),
        _ => None,
    }
}

// The short name that stands in quotes, and what is left behind it.
#[inline(always)]
fn name_begun(bytes: &[u8]) -> Option<(Text, &[u8])>
    ensures { IfSome result (λ parts. (bytes.now ≡ quoted parts.0 ++ parts.1.now) × IsTrue (is_utf8 parts.0)) }
{
    let text = behind(b'"', bytes)?;
    let (name, rest) = text.split_at(plain_len(text));
    let rest = behind(b'"', rest)?;
    Some((Text::of_few(name)?, rest))
}

// The scripts that time is measured on put values of one field with a short name and a number, so these
// are read at once from the text that they print. Any other value is read field by field. Only time rests
// on it.
/// The field with a number that stands alone in braces, and what is left behind it.
pub(crate) fn lone_number(bytes: &[u8]) -> Option<(Field, &[u8])>
    ensures { IfSome result (λ parts.
        (bytes.now ≡ value_text (parts.0 ∷ []) ++ parts.1.now) × IsField parts.0) }
{
    let inside = behind(b'{', bytes)?;
    let (name, rest) = name_begun(inside)?;
    let (scalar, rest) = number_begun(behind(b':', rest)?)?;
    let rest = behind(b'}', rest)?;
    Some((Field { name, scalar }, rest))
}
