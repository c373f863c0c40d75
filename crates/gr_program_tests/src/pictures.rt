use gr_picture::{Halt, drawn};
use std::test::Fail;

// Each row has what follows the first two lines of a report, and the line that is refused, or 0.
#[test]
fn the_line_that_cannot_be_read_is_told(rt: HostRuntime) -> Result<(), Fail> {
    let alloc = rt.alloc();
    let cases = [
        ("histories\nend\n", 0),
        ("", 3),
        ("end\n", 3),
        ("member 1 entries 1 tombstones 0\nhistories\nend\n", 4),
        ("member 1 entries 1 tombstones 0\na {} 1.1\nend\n", 4),
        ("member 1 entries x tombstones 0\nend\n", 3),
        ("histories\n", 4),
        ("histories\nhistory 1 0\nend\n", 4),
        ("histories\nhistory 1 0 1\nend\n", 5),
        ("histories\nhistory 1 0 1\ncall 1.1 get\nend\n", 5),
        (
            "histories\nhistory 1 0 1\ntake a put {} 1.2 applied\nend\n",
            5,
        ),
        (
            "histories\nhistory 1 0 1\ntake a put {} 1.2.1 applied\nend\n",
            5,
        ),
        ("histories\nhistory 1 0 1\nheard 1 at 0 own 0\nend\n", 5),
        ("histories\nend\nend\n", 5),
    ];
    for (behind, line) in cases {
        let report = format!(in alloc; "replies\nregions\n{behind}")?;
        let told = match drawn(alloc, report.as_bytes()) {
            Err(Halt::Line(line)) => line,
            _ => 0,
        };
        assert!(rt; told == line);
    }
    Ok(())
}
