use gr_stamp::{LIMIT, Stamp, decide};
use std::process::Abort;
use std::test::Fail;

/// A version, a member and the member's number.
type Parts = (u64, u8, u64);

// Of each pair the first is the greater.
static PAIRS: [(Parts, Parts); 7] = [
    ((2, 1, 1), (1, 2, 9)),
    ((2, 1, 1), (1, 8, LIMIT)),
    ((LIMIT, 1, 1), (LIMIT - 1, 8, 1)),
    ((1, 2, 1), (1, 1, 9)),
    ((7, 8, 1), (7, 7, LIMIT)),
    ((1, 1, 2), (1, 1, 1)),
    ((LIMIT, 8, LIMIT), (LIMIT, 8, LIMIT - 1)),
];

fn stamp(rt: &impl Abort, (ver, member, rv): Parts) -> Stamp {
    Stamp::new(ver, member, rv).expect(rt, "a stamp")
}

fn is_beaten(rt: &impl Abort, less: &Stamp, greater: &Stamp) {
    assert!(rt; greater.beats(less) && !less.beats(greater));
    assert!(rt; decide(Some(less), greater) && !decide(Some(greater), less));
    assert!(rt; !less.beats(less) && !decide(Some(greater), greater));
    assert!(rt; decide(None, less));
}

// A stamp beats another by the version, then by the member, then by the member's number, and never itself.
#[test]
fn stamps_are_in_order(rt: HostRuntime) -> Result<(), Fail> {
    for (greater, less) in &PAIRS {
        is_beaten(&rt, &stamp(&rt, *less), &stamp(&rt, *greater));
    }
    Ok(())
}
