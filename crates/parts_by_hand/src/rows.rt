use crate::steps::Step;

/// A step with what is printed of it.
pub type Named = (&'static str, Step);

// The mails are counted from 0: the changes, reports and own changes in the order in which they are made.

/// A tombstone expires once it is old and the other member reported it.
pub static STABLE_TOMBSTONE: [Named; 9] = [
    ("1 put a {}", Step::Put(1, "{}")),
    ("1 destroy a", Step::Destroy(1)),
    ("deliver 2 1.2", Step::Mail(2, 1)),
    ("deliver 2 1.1", Step::Mail(2, 0)),
    ("report 2", Step::Report(2)),
    ("hear 1 2 1", Step::Mail(1, 2)),
    ("sweep 1 599", Step::Sweep(1, 599)),
    ("sweep 1 600", Step::Sweep(1, 600)),
    ("sweep 2 600", Step::Sweep(2, 600)),
];

/// A joiner's tombstone is dropped by an image, and its next put has a version above it by the floor.
pub static IMAGE_DROPS_TOMBSTONE: [Named; 15] = [
    ("1 put a {}", Step::Put(1, "{}")),
    ("deliver 2 1.1", Step::Mail(2, 0)),
    ("2 destroy a", Step::Destroy(2)),
    ("deliver 1 2.1", Step::Mail(1, 1)),
    ("deliver 3 2.1", Step::Mail(3, 1)),
    ("report 1", Step::Report(1)),
    ("report 3", Step::Report(3)),
    ("hear 2 1 1", Step::Mail(2, 2)),
    ("hear 2 3 1", Step::Mail(2, 3)),
    ("sweep 2 600", Step::Sweep(2, 600)),
    ("join 3 2, 1 gives", Step::GiveOwn(1)),
    ("join 3 2, 3 takes", Step::Mail(3, 4)),
    ("join 3 2, 2 gives", Step::GiveImage(2)),
    ("join 3 2, 3 merges", Step::Merge(3)),
    ("3 put a {\"x\":1}", Step::Put(3, "{\"x\":1}")),
];

const P: &str = "SELECT * FROM /r";

const Q: &str = "SELECT * FROM /r WHERE x >= 2";

/// Queries are opened, told, stopped and closed.
pub static QUERY_STATES: [Named; 15] = [
    ("2 put a {\"x\":2}", Step::Put(2, "{\"x\":2}")),
    ("1 put a {\"x\":1}", Step::Put(1, "{\"x\":1}")),
    ("2 open p", Step::Open("p", P)),
    ("2 open q", Step::Open("q", Q)),
    ("deliver 2 1.1", Step::Mail(2, 1)),
    ("2 put a {\"x\":3}", Step::Put(2, "{\"x\":3}")),
    ("2 fetch p", Step::Fetch("p")),
    ("2 fetch q", Step::Fetch("q")),
    ("2 stop q", Step::Stop("q")),
    ("2 put a {\"x\":4}", Step::Put(2, "{\"x\":4}")),
    ("2 fetch q", Step::Fetch("q")),
    ("2 stop q", Step::Stop("q")),
    ("2 close q", Step::Close("q")),
    ("2 fetch q", Step::Fetch("q")),
    ("2 open p", Step::Open("p", P)),
];
