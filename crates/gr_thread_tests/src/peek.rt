ghost use Rattle.std.specs.Prelude.{◌≡◌, []};

use gr_peek::{Eye, PeekEnd, Published, Seen, Turned, peek};
use gr_value::{Key, KeyFault, Memory, Scalar, Value};
use std::alloc::Global;
use std::sync::Wait;
use std::test::Fail;

mod crowd;

// The key of one letter.
fn key_of(alloc: Global, letter: u8) -> Result<Key, KeyFault> {
    Key::read(alloc, &[letter])
}

// The value with the one field `n`.
pub(crate) fn value_of(alloc: Global, number: u64) -> Result<Value, Memory> {
    let text = format!(in alloc; "{{\"n\":{number}}}")?;
    Value::read(alloc, text.as_bytes()).map_err(|_| Memory)
}

// The number in a value, where there is one.
pub(crate) fn number_in(value: &Value) -> Option<i64> {
    match value.field("n")? {
        Scalar::Int(number) => Some(*number),
        _ => None,
    }
}

// The number in what was seen, where there is one.
pub(crate) fn number_of(seen: &Seen) -> Option<i64> {
    number_in(seen.value.as_ref()?)
}

// A key that turns from nothing to the number, or to nothing.
fn turned(alloc: Global, letter: u8, number: Option<u64>) -> Result<Turned, Memory> {
    let new = match number {
        None => None,
        Some(number) => Some(value_of(alloc, number)?),
    };
    let Ok(key) = key_of(alloc, letter) else {
        return Err(Memory);
    };
    let has = new.is_some();
    Ok(Turned {
        key,
        old: None,
        new,
        had: false,
        has,
    })
}

// What is seen at a key: its number and the place.
fn peeked(alloc: Global, eye: &mut Eye, letter: u8) -> Result<(Option<i64>, u64), PeekEnd>
    ensures { eye.new.copy ≡ eye.old.copy }
{
    let Ok(key) = key_of(alloc, letter) else {
        return Err(PeekEnd::Memory);
    };
    match peek(alloc, eye, &key) {
        Ok(seen) => Ok((number_of(&seen), seen.at)),
        Err(end) => Err(end),
    }
}

// Makes four publications, of which the second and the last turn no key.
fn publish_four<R: Wait>(rt: &R, alloc: Global, copy: &mut Published) -> Result<(), Memory>
    requires { copy.old.publications ≡ [] }
    ensures { copy.new.copy ≡ copy.old.copy }
{
    let first = [turned(alloc, b'a', Some(1))?, turned(alloc, b'b', Some(2))?];
    copy.publish(rt, alloc, &first, 1)?;
    copy.publish(rt, alloc, &[], 2)?;
    copy.publish(rt, alloc, &[turned(alloc, b'a', None)?], 3)?;
    copy.publish(rt, alloc, &[], 4)
}

#[test]
fn a_copy_is_peeked(rt: HostRuntime) -> Result<(), Fail> {
    let alloc = rt.alloc();
    let Ok((mut copy, mut eyes)) = Published::new(&rt, alloc, 2, true) else {
        panic!(rt; "no memory")
    };
    let (Some(mut one), Some(mut two)) = (eyes.pop(), eyes.pop()) else {
        panic!(rt; "no eye")
    };
    let nothing = peeked(alloc, &mut one, b'a');
    if publish_four(&rt, alloc, &mut copy).is_err() {
        panic!(rt; "no memory")
    }
    let told = copy.tell();
    one.learn(&told);
    let noted = peeked(alloc, &mut one, b'b');
    let unnoted = peeked(alloc, &mut two, b'b');
    one.reach(&rt, &told);
    let gone = peeked(alloc, &mut one, b'a');
    copy.end(&rt);
    assert_eq!(rt; nothing, Ok((None, 0)));
    assert_eq!(rt; told.at(), 4);
    assert_eq!(rt; noted, Ok((Some(2), 4)));
    // (what isn't noted may be left out where it turns no key)
    assert!(rt; unnoted == Ok((Some(2), 3)) || unnoted == Ok((Some(2), 4)));
    assert_eq!(rt; gone, Ok((None, 4)));
    assert_eq!(rt; peeked(alloc, &mut two, b'b'), Err(PeekEnd::Denied));
    Ok(())
}

#[test]
fn a_copy_that_is_not_shown_is_not_peeked(rt: HostRuntime) -> Result<(), Fail> {
    let alloc = rt.alloc();
    let Ok((copy, mut eyes)) = Published::new(&rt, alloc, 1, false) else {
        panic!(rt; "no memory")
    };
    let Some(mut eye) = eyes.pop() else {
        panic!(rt; "no eye")
    };
    let denied = peeked(alloc, &mut eye, b'a');
    copy.end(&rt);
    assert_eq!(rt; denied, Err(PeekEnd::Denied));
    Ok(())
}
