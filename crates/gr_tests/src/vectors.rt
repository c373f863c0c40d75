ghost use Rattle.std.specs.Prelude.{◌≤◌};

use gr_value::Memory;
use gr_vector::Vector;
use std::alloc::Global;
use std::process::Abort;
use std::test::Fail;

/// The greatest number that a change can have.
const GREATEST: u64 = 281474976710655;

// A vector that these numbers of a member were noted in, in this order.
fn noted(alloc: Global, member: u8, numbers: &[u64]) -> Result<Vector, Memory>
    requires some { 1 ≤ member }
    requires most { member ≤ 8 }
{
    let mut vector = Vector::new(alloc)?;
    for number in numbers {
        if (1..=GREATEST).contains(number) {
            vector.note(member, *number)?;
        }
    }
    Ok(vector)
}

fn note_the_greatest(rt: &impl Abort, vector: &mut Vector) -> Result<(), Memory> {
    assert!(rt; vector.note(1, 3)?);
    assert!(rt; vector.top(1) == 3);
    assert!(rt; vector.exceptions(1) == 1);
    assert!(rt; !vector.holds(1, 2));
    assert!(rt; !vector.covers(1, 3));
    Ok(())
}

fn note_the_others(rt: &impl Abort, vector: &mut Vector) -> Result<(), Memory> {
    assert!(rt; vector.note(1, 1)?);
    assert!(rt; vector.note(1, 2)?);
    assert!(rt; vector.covers(1, 3));
    assert!(rt; vector.exceptions(1) == 0);
    assert!(rt; !vector.note(1, 2)?);
    Ok(())
}

fn unite_another(rt: &impl Abort, alloc: Global, vector: &mut Vector) -> Result<(), Memory> {
    let other = noted(alloc, 2, &[1])?;
    vector.unite(&other)?;
    assert!(rt; vector.holds(2, 1));
    Ok(())
}

#[test]
fn a_late_number_below_the_greatest_is_new(rt: HostRuntime) -> Result<(), Fail> {
    let mut vector = Vector::new(rt.alloc())?;
    note_the_greatest(&rt, &mut vector)?;
    note_the_others(&rt, &mut vector)?;
    unite_another(&rt, rt.alloc(), &mut vector)?;
    Ok(())
}

// The notes, then the greatest, the ranges that are missing below it, and up to where all are held.
static NOTES: [(&[u64], u64, u64, u64); 9] = [
    (&[], 0, 0, 0),
    (&[1, 2, 3], 3, 0, 3),
    (&[2], 2, 1, 0),
    (&[5, 3, 1], 5, 2, 1),
    (&[5, 1, 3, 2], 5, 1, 3),
    (&[10, 5, 7, 6, 1], 10, 2, 1),
    (&[4, 2, 3, 1], 4, 0, 4),
    (&[6, 4, 5, 5, 2], 6, 2, 0),
    (&[GREATEST, 2, 1], GREATEST, 1, 2),
];

fn is_noted_so(rt: &impl Abort, vector: &Vector, top: u64, exceptions: u64, upto: u64) {
    assert!(rt; vector.top(8) == top);
    assert!(rt; vector.exceptions(8) == exceptions);
    assert!(rt; upto < GREATEST);
    assert!(rt; vector.covers(8, upto));
    assert!(rt; !vector.covers(8, upto + 1));
    assert!(rt; !vector.covers(8, u64::MAX));
    assert!(rt; vector.top(7) == 0);
}

#[test]
fn numbers_come_in_any_order(rt: HostRuntime) -> Result<(), Fail> {
    for (numbers, top, exceptions, upto) in &NOTES {
        is_noted_so(
            &rt,
            &noted(rt.alloc(), 8, numbers)?,
            *top,
            *exceptions,
            *upto,
        );
    }
    Ok(())
}

// Of one member, the notes of both, and what is told of the two united.
static UNITED: [(&[u64], &[u64], u64, u64); 5] = [
    (&[1, 2, 3], &[], 3, 0),
    (&[1, 3, 5], &[2, 4], 5, 0),
    (&[10], &[4], 10, 2),
    (&[2, 7], &[9, 3, 4], 9, 3),
    (&[GREATEST], &[1, 2], GREATEST, 1),
];

// The greatest number of both united, and the ranges that are missing below it.
fn united(alloc: Global, ours: &[u64], theirs: &[u64]) -> Result<(u64, u64), Memory> {
    let mut vector = noted(alloc, 1, ours)?;
    vector.unite(&noted(alloc, 1, theirs)?)?;
    Ok((vector.top(1), vector.exceptions(1)))
}

#[test]
fn what_either_holds_is_united(rt: HostRuntime) -> Result<(), Fail> {
    for (ours, theirs, top, exceptions) in &UNITED {
        let told = united(rt.alloc(), ours, theirs)?;
        assert!(rt; told.0 == *top);
        assert!(rt; told.1 == *exceptions);
    }
    Ok(())
}
