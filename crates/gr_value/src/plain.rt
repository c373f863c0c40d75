// A text that is just what its value prints is read without the JSON reader, which costs several
// times as much. That is right since a value's text reads as that value: each call here shows that
// what it took is the text of what it answers, and any other text is left to the JSON reader.
ghost use Rattle.std.specs.Prelude.{◌≡◌, ◌≤◌, ◌++◌, length, flat_map, codes, IsTrue, IfSome, IfOk};
ghost use Rattle.std.specs.Bool.{MatchBool};
ghost use Rattle.std.specs.List.{AllByRecursion, join_by};
ghost use Rattle.std.specs.Str.{is_utf8};
ghost use Rattle.gr_value.specs.ValueText.{escaped, quoted, scalar_text, field_text, value_text};
ghost use Rattle.gr_value.specs.Values.{IsScalar, IsField, IsValue, HasAscendingNames};

use crate::escapes::{escape_begun, plain_len, plain_moved};
use crate::fields::Fields;
use crate::lone::lone_number;
use crate::numerals::number_begun;
use crate::value::MOST_BYTES;
use crate::{Field, Memory, Scalar, Text, Value};
use std::alloc::Global;
use std::marker::Model;

/// What is left of a text.
#[derive(Drop)]
struct Cursor<'a> {
    rest: &'a [u8],
}

impl<'a> Model for Cursor<'a> {
    ghost use Rattle.std.specs.Prelude.{List, ℕ};

    ghost Value = { List ℕ };

    ghost view = { λ cursor. cursor.rest.now };
}

// How often a comma stands before a quote, up to the first closing brace, so room for so many fields
// is seldom too much.
fn further_fields(bytes: &[u8]) -> usize
    ensures { result ≤ length bytes.now }
{
    let mut count = 0;
    let mut after_comma = false;
    for byte in bytes {
        if *byte == b'}' {
            return count;
        }
        if after_comma && *byte == b'"' {
            count += 1;
        }
        after_comma = *byte == b',';
    }
    count
}

impl<'a> Cursor<'a> {
    // Takes these bytes, if the text goes on with them.
    fn take(&mut self, front: &[u8]) -> bool
        ensures { MatchBool result (self.old ≡ front.now ++ self.new) (self.new ≡ self.old) }
    {
        match self.rest.strip_prefix(front) {
            Some(rest) => {
                self.rest = rest;
                true
            }
            None => false,
        }
    }

    // Takes the bytes that stand for themselves.
    fn take_plain(&mut self) -> &'a [u8]
        ensures { self.old ≡ flat_map escaped result.now ++ self.new }
    {
        let (plain, rest) = self.rest.split_at(plain_len(self.rest));
        self.rest = rest;
        plain
    }

    // Takes the rest of a quoted text that has begun with bytes that stand for themselves.
    fn take_escaped(&mut self, alloc: Global, front: &[u8]) -> Result<Option<Vec<u8>>, Memory>
        ensures { IfOk result (λ found. IfSome found (λ text.
            flat_map escaped front.now ++ self.old ≡ flat_map escaped text.items ++ (codes "\"" ++ self.new))) }
    {
        let mut text = Vec::with_capacity(alloc, front.len() + self.rest.len().min(MOST_BYTES))?;
        text.extend_from_slice(front)?;
        let mut rest = self.rest;
        'escapes: while let Some((byte, behind)) = escape_begun(rest) {
            text.push(byte)?;
            rest = plain_moved(behind, &mut text)?;
        }
        self.rest = rest;
        Ok(self.take(b"\"").then_some(text))
    }

    fn take_number(&mut self) -> Option<Scalar>
        ensures { IfSome result (λ number. (self.old ≡ scalar_text number ++ self.new) × IsScalar number) }
    {
        let (number, rest) = number_begun(self.rest)?;
        self.rest = rest;
        Some(number)
    }

    fn take_text(&mut self, alloc: Global) -> Result<Option<Text>, Memory>
        ensures { IfOk result (λ found. IfSome found (λ text.
            (self.old ≡ quoted text ++ self.new) × IsTrue (is_utf8 text))) }
    {
        if !self.take(b"\"") {
            return Ok(None);
        }
        let front = self.take_plain();
        if self.take(b"\"") {
            return Text::of_bytes(alloc, front);
        }
        match self.take_escaped(alloc, front)? {
            Some(text) => Text::of_bytes(alloc, &text),
            None => Ok(None),
        }
    }

    fn take_scalar(&mut self, alloc: Global) -> Result<Option<Scalar>, Memory>
        ensures { IfOk result (λ found. IfSome found (λ scalar.
            (self.old ≡ scalar_text scalar ++ self.new) × IsScalar scalar)) }
    {
        match self.rest.first() {
            Some(b'"') => Ok(self.take_text(alloc)?.map(Scalar::Text)),
            Some(b'n') => Ok(self.take(b"null").then_some(Scalar::Null)),
            Some(b't') => Ok(self.take(b"true").then_some(Scalar::Bool(true))),
            Some(b'f') => Ok(self.take(b"false").then_some(Scalar::Bool(false))),
            _ => Ok(self.take_number()),
        }
    }

    fn take_field(&mut self, alloc: Global) -> Result<Option<Field>, Memory>
        ensures { IfOk result (λ found. IfSome found (λ field.
            (self.old ≡ field_text field ++ self.new) × IsField field)) }
    {
        let Some(name) = self.take_text(alloc)? else {
            return Ok(None);
        };
        if !self.take(b":") {
            return Ok(None);
        }
        let Some(scalar) = self.take_scalar(alloc)? else {
            return Ok(None);
        };
        Ok(Some(Field { name, scalar }))
    }

    // Takes what follows the first of several fields.
    fn take_further(&mut self, alloc: Global, first: Field) -> Result<Option<Fields>, Memory>
        requires { IsField first }
        ensures { IfOk result (λ found. IfSome found (λ fields.
            (field_text first ++ self.old ≡ join_by field_text (codes ",") fields ++ self.new)
            × AllByRecursion IsField fields)) }
    {
        let mut fields = Vec::with_capacity(alloc, 1 + further_fields(self.rest))?;
        fields.push(first)?;
        'fields: while self.take(b",") {
            let Some(field) = self.take_field(alloc)? else {
                return Ok(None);
            };
            fields.push(field)?;
        }
        Ok(Some(Fields::of_vec(fields)))
    }

    // Takes fields with commas between them, one at least.
    fn take_fields(&mut self, alloc: Global) -> Result<Option<Fields>, Memory>
        ensures { IfOk result (λ found. IfSome found (λ fields.
            (self.old ≡ join_by field_text (codes ",") fields ++ self.new)
            × AllByRecursion IsField fields)) }
    {
        let Some(first) = self.take_field(alloc)? else {
            return Ok(None);
        };
        if self.rest.starts_with(b",") {
            self.take_further(alloc, first)
        } else {
            Ok(Some(Fields::one(first)))
        }
    }

    // Takes fields in braces, one at least.
    fn take_braced(&mut self, alloc: Global) -> Result<Option<Fields>, Memory>
        ensures { IfOk result (λ found. IfSome found (λ fields.
            (self.old ≡ value_text fields ++ self.new) × AllByRecursion IsField fields)) }
    {
        if !self.take(b"{") {
            return Ok(None);
        }
        let Some(fields) = self.take_fields(alloc)? else {
            return Ok(None);
        };
        if self.take(b"}") {
            Ok(Some(fields))
        } else {
            Ok(None)
        }
    }

    fn take_value(&mut self, alloc: Global) -> Result<Option<Fields>, Memory>
        ensures text { IfOk result (λ found. IfSome found (λ fields.
            self.old ≡ value_text fields ++ self.new)) }
        ensures ascending { IfOk result (λ found. IfSome found (λ fields.
            HasAscendingNames fields)) }
        ensures readable { IfOk result (λ found. IfSome found (λ fields.
            AllByRecursion IsField fields)) }
    {
        if let Some((field, rest)) = lone_number(self.rest) {
            self.rest = rest;
            return Ok(Some(Fields::one(field)));
        }
        if self.take(b"{}") {
            return Ok(Some(Fields::none(alloc)));
        }
        let Some(fields) = self.take_braced(alloc)? else {
            return Ok(None);
        };
        if names_ascend(fields.as_slice()) {
            Ok(Some(fields))
        } else {
            Ok(None)
        }
    }
}

fn names_ascend(fields: &[Field]) -> bool
    ensures { IsTrue result → HasAscendingNames fields.now }
{
    for place in 1..fields.len() {
        let (before, next) = (&fields[place - 1].name, &fields[place].name);
        if before.bytes().cmp(next.bytes()).is_ge() {
            return false;
        }
    }
    true
}

/// The fields of the value that prints these very bytes, if they are found in one plain pass.
pub(crate) fn fields_by_text(alloc: Global, bytes: &[u8]) -> Result<Option<Fields>, Memory>
    ensures text { IfOk result (λ found. IfSome found (λ fields.
        bytes.now ≡ value_text fields)) }
    ensures ascending { IfOk result (λ found. IfSome found (λ fields.
        HasAscendingNames fields)) }
    ensures readable { IfOk result (λ found. IfSome found (λ fields.
        AllByRecursion IsField fields)) }
{
    let mut cursor = Cursor { rest: bytes };
    let Some(fields) = cursor.take_value(alloc)? else {
        return Ok(None);
    };
    if cursor.rest.is_empty() {
        Ok(Some(fields.with_text(alloc, bytes)?))
    } else {
        Ok(None)
    }
}

impl Value {
    /// The value whose own text the bytes begin with, and what is left behind it. None where they
    /// begin otherwise than a value prints, as with spaces: `read` tells what such bytes are.
    pub fn begun(alloc: Global, bytes: &[u8]) -> Result<Option<(Value, &[u8])>, Memory>
        ensures text { IfOk result (λ found. IfSome found (λ parts.
            bytes.now ≡ value_text parts.0 ++ parts.1.now)) }
        ensures value { IfOk result (λ found. IfSome found (λ parts. IsValue parts.0)) }
    {
        let front = &bytes[..bytes.len().min(MOST_BYTES)];
        let mut cursor = Cursor { rest: front };
        let Some(fields) = cursor.take_value(alloc)? else {
            return Ok(None);
        };
        let len = front.len() - cursor.rest.len();
        let (text, rest) = (&bytes[..len], &bytes[len..]);
        let value = Value::of_fields(alloc, fields.with_text(alloc, text)?)?;
        Ok(Some((value, rest)))
    }
}
