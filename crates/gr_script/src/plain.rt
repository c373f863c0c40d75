// Most lines are calls, peeks and deliveries that are spelled just as they are printed. Such a line is read in one
// pass, without the list of its fields. That is right since what is printed is read as the step that it
// is printed for; any other line is left to the reading of fields.
ghost use Rattle.std.specs.Prelude.{◌≡◌, ◌<◌, ◌+◌, ◌∷◌, ◌++◌, [], IfOk, IfSome, codes};
ghost use Rattle.std.specs.Fmt.{decimal};
ghost use Rattle.gr_value.specs.KeyBytes.{IsKey};
ghost use Rattle.gr_value.specs.Values.{IsValue};
ghost use Rattle.gr_value.specs.ValueText.{value_text};
ghost use Rattle.gr_script.specs.declared.forms.LineKind.TheVariants as kind;
ghost use Rattle.gr_script.specs.declared.operation.Operation.TheVariants.{OfKey, OfValue, OfPair};
ghost use Rattle.gr_script.specs.Forms.{word};
ghost use Rattle.gr_script.specs.Plain.{IsPrinted, IsSpelled, delivery_saying};
ghost use Rattle.gr_script.specs.Printing.{saying_text};

use crate::Act;
use crate::forms::LineKind;
use crate::numeral::number_of;
use crate::operation::{Keyed, Operation, Paired, Valued, operation_in};
use crate::text::spaced;
use gr_value::{Key, KeyFault, Memory, Value};
use std::alloc::Global;

/// A client's call or peek, with the kind of its line.
#[derive(Drop)]
pub(crate) struct PlainStep {
    pub(crate) kind: LineKind,
    pub(crate) client: u8,
    pub(crate) act: Act,
}

/// A change that is delivered: to which member, and which step of which client made it.
#[derive(Clone, Copy)]
pub(crate) struct Delivery {
    pub(crate) to: u8,
    pub(crate) client: u8,
    pub(crate) seq: u32,
}

fn digit(byte: u8) -> Option<u8>
    ensures { IfSome result (λ digit. (byte ≡ 48 + digit) × (digit < 10)) }
{
    byte.is_ascii_digit().then(|| byte - b'0')
}

#[tactic(auto, using(crate::proofs::Plainly::one_digit))]
fn of_one_digit(mark: u8, text: &[u8]) -> Option<(u8, &[u8])>
    ensures { IfSome result (λ parts. text.now ≡ decimal parts.0 ++ mark ∷ parts.1.now) }
{
    let [ones, found, rest @ ..] = text else {
        return None;
    };
    if *found != mark {
        return None;
    }
    Some((digit(*ones)?, rest))
}

#[tactic(auto, using(crate::proofs::Plainly::two_digits))]
fn of_two_digits(mark: u8, text: &[u8]) -> Option<(u8, &[u8])>
    ensures { IfSome result (λ parts. text.now ≡ decimal parts.0 ++ mark ∷ parts.1.now) }
{
    let [tens, ones, found, rest @ ..] = text else {
        return None;
    };
    if *found != mark {
        return None;
    }
    let (tens, ones) = (digit(*tens)?, digit(*ones)?);
    (tens != 0).then_some((tens * 10 + ones, rest))
}

// The number in front, which has one digit or two, and what stands behind the mark that follows it.
fn number_before(mark: u8, text: &[u8]) -> Option<(u8, &[u8])>
    ensures { IfSome result (λ parts. text.now ≡ decimal parts.0 ++ mark ∷ parts.1.now) }
{
    match of_one_digit(mark, text) {
        None => of_two_digits(mark, text),
        found => found,
    }
}

// The kind whose word stands in front, and what stands behind the space that follows it.
fn kind_in(text: &[u8]) -> Option<(LineKind, &[u8])>
    ensures { IfSome result (λ parts. text.now ≡ word parts.0 ++ 0x20 ∷ parts.1.now) }
{
    match text {
        [b'p', b'e', b'e', b'k', b' ', rest @ ..] => Some((LineKind::Peek, rest)),
        _ => {
            let (operation, rest) = operation_in(text)?;
            Some((LineKind::Call(operation), rest))
        }
    }
}

// The key that these bytes are.
fn key_of(alloc: Global, bytes: &[u8]) -> Result<Option<Key>, Memory>
    ensures { IfOk result (λ found. IfSome found (λ key. (key ≡ bytes.now) × IsKey key)) }
{
    match Key::read(alloc, bytes) {
        Ok(key) => Ok(Some(key)),
        Err(KeyFault::Memory) => Err(Memory),
        Err(_) => Ok(None),
    }
}

// The value that all these bytes are printed for.
#[inline(always)]
fn value_of(alloc: Global, bytes: &[u8]) -> Result<Option<Value>, Memory>
    ensures { IfOk result (λ found. IfSome found (λ value. (bytes.now ≡ value_text value) × IsValue value)) }
{
    match Value::begun(alloc, bytes)? {
        Some((value, [])) => Ok(Some(value)),
        _ => Ok(None),
    }
}

// The values that these bytes are printed for, with a space between them.
fn values_of(alloc: Global, bytes: &[u8]) -> Result<Option<(Value, Value)>, Memory>
    ensures { IfOk result (λ found. IfSome found (λ values.
        (bytes.now ≡ value_text values.0 ++ 0x20 ∷ value_text values.1) × IsValue values.0 × IsValue values.1)) }
{
    match Value::begun(alloc, bytes)? {
        Some((first, [b' ', rest @ ..])) => match value_of(alloc, rest)? {
            Some(second) => Ok(Some((first, second))),
            None => Ok(None),
        },
        _ => Ok(None),
    }
}

#[tactic(auto, using(crate::proofs::Plainly::spelled_as, crate::proofs::Plainly::peek_spelled))]
fn peek_in(alloc: Global, rest: &[u8]) -> Result<Option<Act>, Memory>
    ensures { IfOk result (λ found. IfSome found (IsSpelled kind.Peek rest.now)) }
{
    match key_of(alloc, rest)? {
        Some(key) => Ok(Some(Act::Peek(key))),
        None => Ok(None),
    }
}

#[tactic(auto, using(crate::proofs::Plainly::spelled_as, crate::proofs::Plainly::keyed_spelled))]
fn keyed_in(alloc: Global, operation: Keyed, rest: &[u8]) -> Result<Option<Act>, Memory>
    ensures { IfOk result (λ found. IfSome found (IsSpelled (kind.Call (OfKey operation)) rest.now)) }
{
    match key_of(alloc, rest)? {
        Some(key) => Ok(Some(Act::Call(operation.ask(key)))),
        None => Ok(None),
    }
}

#[tactic(auto, using(crate::proofs::Plainly::spelled_as, crate::proofs::Plainly::valued_spelled))]
fn valued_in(alloc: Global, operation: Valued, rest: &[u8]) -> Result<Option<Act>, Memory>
    ensures { IfOk result (λ found. IfSome found (IsSpelled (kind.Call (OfValue operation)) rest.now)) }
{
    let Some((key, rest)) = spaced(rest) else {
        return Ok(None);
    };
    let Some(key) = key_of(alloc, key)? else {
        return Ok(None);
    };
    match value_of(alloc, rest)? {
        Some(value) => Ok(Some(Act::Call(operation.ask(key, value)))),
        None => Ok(None),
    }
}

fn paired_in(alloc: Global, operation: Paired, rest: &[u8]) -> Result<Option<Act>, Memory>
    ensures { IfOk result (λ found. IfSome found (IsSpelled (kind.Call (OfPair operation)) rest.now)) }
{
    let Some((key, rest)) = spaced(rest) else {
        return Ok(None);
    };
    let Some(key) = key_of(alloc, key)? else {
        return Ok(None);
    };
    match values_of(alloc, rest)? {
        Some((old, new)) => Ok(Some(Act::Call(operation.ask(key, old, new)))),
        None => Ok(None),
    }
}

// What a client does at a line of this kind, with this behind its word.
fn act_in(alloc: Global, kind: LineKind, rest: &[u8]) -> Result<Option<Act>, Memory>
    ensures { IfOk result (λ found. IfSome found (IsSpelled kind rest.now)) }
{
    match kind {
        LineKind::Call(Operation::OfKey(operation)) => keyed_in(alloc, operation, rest),
        LineKind::Call(Operation::OfValue(operation)) => valued_in(alloc, operation, rest),
        LineKind::Call(Operation::OfPair(operation)) => paired_in(alloc, operation, rest),
        LineKind::Peek => peek_in(alloc, rest),
        _ => Ok(None),
    }
}

// Such a line is read in one pass, without a list of its fields, and its values are taken where their own
// text stands. That is right since what is printed is read as what it is printed for. Any other line is
// cut into fields as the grammar says, so another spelling takes more time and nothing else.
/// The call or peek that the line is printed for. None of another line, and of one that is spelled
/// otherwise, as with more spaces.
#[tactic(auto, using(crate::proofs::Plainly::printed))]
pub(crate) fn step_in(alloc: Global, line: &[u8]) -> Result<Option<PlainStep>, Memory>
    ensures { IfOk result (λ found. IfSome found (IsPrinted line.now)) }
{
    let Some((client, rest)) = number_before(b' ', line) else {
        return Ok(None);
    };
    let Some((kind, rest)) = kind_in(rest) else {
        return Ok(None);
    };
    match act_in(alloc, kind, rest)? {
        Some(act) => Ok(Some(PlainStep { kind, client, act })),
        None => Ok(None),
    }
}

// The number that all these bytes are printed for.
#[tactic(auto, using(crate::proofs::Plainly::decimal_of))]
fn decimal_in(text: &[u8]) -> Option<u32>
    ensures { IfSome result (λ number. text.now ≡ decimal number) }
{
    u32::try_from(number_of(text)?).ok()
}

// What stands behind the word of a delivery and its space. To look at the bytes costs less than to compare.
fn behind_deliver(line: &[u8]) -> Option<&[u8]>
    ensures { IfSome result (λ rest. line.now ≡ codes "deliver " ++ rest.now) }
{
    match line {
        [b'd', b'e', b'l', b'i', b'v', b'e', b'r', b' ', rest @ ..] => Some(rest),
        _ => None,
    }
}

/// The delivery that the line is printed for. None of another line, and of one that is spelled otherwise.
#[tactic(auto, using(crate::proofs::Plainly::delivery_printed))]
pub(crate) fn delivery_in(line: &[u8]) -> Option<Delivery>
    ensures { IfSome result (λ delivery. line.now ≡ saying_text (delivery_saying delivery)) }
{
    let (to, rest) = number_before(b' ', behind_deliver(line)?)?;
    let (client, rest) = number_before(b'.', rest)?;
    let seq = decimal_in(rest)?;
    Some(Delivery { to, client, seq })
}
