ghost use Rattle.std.specs.Prelude.{◌≡◌, ◌≤◌, length, bytes_eq};
ghost use Rattle.gr_script.specs.Forms.{word};
ghost use Rattle.gr_script.specs.Fields.{len_of, piece, left, is_filled, fits, first, second, is_client, form_of};

use crate::cuts::{after_spaces, field_len};
use crate::forms::{FieldKind, LineKind, kind_of};
use crate::numeral::are_digits;
use crate::piece::piece_len;

fn len_of(kind: FieldKind, text: &[u8]) -> usize
    ensures exact { result ≡ len_of kind text.now }
    ensures within { result ≤ length text.now }
{
    match kind {
        FieldKind::Value => piece_len(text),
        FieldKind::Query => text.len(),
        _ => field_len(text),
    }
}

/// The piece in front that is a field of this kind, and what stands behind it.
pub(crate) fn cut(kind: FieldKind, text: &[u8]) -> (&[u8], &[u8])
    ensures piece { result.0.now ≡ piece kind text.now }
    ensures left { result.1.now ≡ left kind text.now }
{
    let len = len_of(kind, text);
    (&text[..len], after_spaces(&text[len..]))
}

fn is_filled(kind: FieldKind, piece: &[u8]) -> bool
    ensures { result ≡ is_filled kind piece.now }
{
    match kind {
        FieldKind::At => piece == b"at".as_slice(),
        FieldKind::Version => piece == b"1".as_slice(),
        _ => !piece.is_empty(),
    }
}

/// Whether no field is missing, and none too many.
pub(crate) fn fits(kinds: &[FieldKind], text: &[u8]) -> bool
    ensures { result ≡ fits kinds.now text.now }
{
    let mut rest = text;
    for kind in kinds {
        let (piece, left) = cut(*kind, rest);
        if !is_filled(*kind, piece) {
            return false;
        }
        rest = left;
    }
    rest.is_empty()
}

/// The form that the line's word names.
pub(crate) fn form_of(text: &[u8]) -> Option<LineKind>
    ensures { result ≡ form_of text.now }
{
    let (first, left) = cut(FieldKind::Word, text);
    if are_digits(first) {
        kind_of(true, cut(FieldKind::Word, left).0)
    } else {
        kind_of(false, first)
    }
}

/// Whether the line's first field is the word of this form.
pub(crate) fn has_word(kind: LineKind, text: &[u8]) -> bool
    ensures { result ≡ bytes_eq (first text.now) (word kind) }
{
    cut(FieldKind::Word, text).0 == kind.word()
}
