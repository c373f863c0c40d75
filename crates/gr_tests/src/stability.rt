use gr_stable::Heard;
use gr_stamp::Stamp;
use gr_value::Shared;
use gr_vector::{Report, Vector};
use std::alloc::Global;
use std::process::Abort;
use std::test::Fail;

// A vector with the first so many numbers of each of three members.
fn known(alloc: Global, upto: [u64; 3]) -> Result<Vector, Fail> {
    let mut vector = Vector::new(alloc)?;
    for (place, last) in upto.iter().enumerate() {
        for before in 0..*last {
            if place < 3 && before < 9 {
                vector.note(place as u8 + 1, before + 1)?;
            }
        }
    }
    Ok(vector)
}

// A report of a member at a place, with so many own changes, that knows these numbers.
fn report(alloc: Global, member: u8, at: u64, own: u64, upto: [u64; 3]) -> Result<Report, Fail> {
    Ok(Report {
        member,
        at,
        own,
        to: 0,
        vector: Shared::new(alloc, known(alloc, upto)?)?,
    })
}

// A place, own changes and known changes of the first member, as they are reported.
type Told = (u64, u64, u64);

fn keep(
    alloc: Global,
    heard: &mut Heard,
    member: u8,
    (at, own, of_first): Told,
) -> Result<(), Fail> {
    heard.keep(report(alloc, member, at, own, [of_first, 0, 0])?);
    Ok(())
}

// A report with a place of 0 is left out.
fn hear(
    alloc: Global,
    heard: &mut Heard,
    member: u8,
    (at, own, of_first): Told,
) -> Result<(), Fail> {
    if at > 0 {
        let report = report(alloc, member, at, own, [of_first, 0, 0])?;
        heard.hear(alloc, &report)?;
    }
    Ok(())
}

// The second change of the first member.
fn tombstone(rt: &impl Abort) -> Stamp {
    Stamp::new(5, 1, 2).expect(rt, "a stamp")
}

// What the second and the third member report, and what is known here.
fn told(
    alloc: Global,
    heard: &mut Heard,
    second: Told,
    third: Told,
    here: [u64; 3],
) -> Result<Vector, Fail> {
    keep(alloc, heard, 2, second)?;
    hear(alloc, heard, 3, third)?;
    known(alloc, here)
}

fn is_row_so(
    rt: &impl Abort,
    alloc: Global,
    second: Told,
    third: Told,
    here: [u64; 3],
    stable: bool,
) -> Result<(), Fail> {
    let mut heard = Heard::new(alloc)?;
    let here = told(alloc, &mut heard, second, third, here)?;
    assert!(rt; heard.stable(&tombstone(rt), 1, 3, 0, &here) == stable);
    assert!(rt; heard.stable(&tombstone(rt), 1, 1, 0, &here));
    Ok(())
}

// The first of three members made the tombstone as its second change. Each row has the place, own
// changes and known changes of the first member that both others report, what is known here, and
// whether the tombstone is stable; a row with a place of 0 leaves the third's report out.
#[test]
fn a_part_of_the_rule_is_missing(rt: HostRuntime) -> Result<(), Fail> {
    let cases = [
        ((4, 1, 2), (5, 3, 2), [2, 1, 3], true),
        ((4, 1, 2), (0, 0, 0), [2, 1, 3], false),
        ((4, 1, 2), (5, 3, 1), [2, 1, 3], false),
        ((4, 1, 1), (5, 3, 2), [2, 1, 3], false),
        ((4, 1, 2), (5, 3, 2), [2, 1, 2], false),
        ((4, 1, 2), (5, 3, 2), [2, 0, 3], false),
        ((4, 1, 2), (5, u64::MAX, 2), [2, 1, 3], false),
        ((4, 0, 2), (5, 0, 2), [0, 0, 0], true),
    ];
    for (second, third, here, stable) in cases {
        is_row_so(&rt, rt.alloc(), second, third, here, stable)?;
    }
    Ok(())
}

// The reports of the second member, and some whose members are none.
fn reported(
    alloc: Global,
    heard: &mut Heard,
    (at, of_first): (u64, u64),
    (next_at, next_of_first): (u64, u64),
) -> Result<Vector, Fail> {
    keep(alloc, heard, 2, (at, 0, of_first))?;
    keep(alloc, heard, 2, (next_at, 0, next_of_first))?;
    for other in [0, 9, 255] {
        keep(alloc, heard, other, (9, 0, 2))?;
    }
    known(alloc, [2, 0, 0])
}

fn is_latest_so(
    rt: &impl Abort,
    alloc: Global,
    report: (u64, u64),
    next: (u64, u64),
    stable: bool,
) -> Result<(), Fail> {
    let mut heard = Heard::new(alloc)?;
    let here = reported(alloc, &mut heard, report, next)?;
    assert!(rt; heard.stable(&tombstone(rt), 1, 2, 0, &here) == stable);
    Ok(())
}

// Of one member's reports the one with the greatest place counts, and of two with that place the
// first; each row has whether the tombstone is known in the first and in the second report.
#[test]
fn the_latest_report_counts(rt: HostRuntime) -> Result<(), Fail> {
    let cases = [
        ((7, 2), (8, 1), false),
        ((7, 1), (8, 2), true),
        ((8, 2), (7, 1), true),
        ((7, 2), (7, 1), true),
        ((7, 1), (7, 2), false),
    ];
    for (report, next, stable) in cases {
        is_latest_so(&rt, rt.alloc(), report, next, stable)?;
    }
    Ok(())
}

// What the second and the fourth member reported, of which the second's changes go to these members.
fn sent(alloc: Global, heard: &mut Heard, to: u8) -> Result<(), Fail> {
    heard.keep(Report {
        to,
        ..report(alloc, 2, 4, 1, [2, 0, 0])?
    });
    heard.keep(Report {
        to: 4,
        ..report(alloc, 4, 4, 0, [0, 0, 0])?
    });
    Ok(())
}

fn is_asked_so(
    rt: &impl Abort,
    alloc: Global,
    here: &Vector,
    (to, given, stable): (u8, u8, bool),
) -> Result<(), Fail> {
    let mut heard = Heard::new(alloc)?;
    sent(alloc, &mut heard, to)?;
    assert!(rt; heard.stable(&tombstone(rt), 1, 2, given, here) == stable);
    Ok(())
}

// Of two founders the first made the tombstone, and the second reported that it knows it; the third member
// reported nothing, and the fourth that it knows nothing. Each row has the members to which the second's
// changes go, those that were given something here, and whether the tombstone is stable.
#[test]
fn only_members_that_count_are_asked(rt: HostRuntime) -> Result<(), Fail> {
    let cases = [
        (0, 0, true),
        (1, 0, true),
        (3, 3, true),
        (4, 0, false),
        (0, 4, false),
        (8, 0, false),
        (0, 8, false),
        (128, 0, false),
        (0, 128, false),
    ];
    let here = known(rt.alloc(), [2, 1, 0])?;
    for row in cases {
        is_asked_so(&rt, rt.alloc(), &here, row)?;
    }
    Ok(())
}
