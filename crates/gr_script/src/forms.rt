ghost use Rattle.std.specs.Prelude.{◌≡◌, if◌then◌else◌};
ghost use Rattle.gr_script.specs.Forms.{word, fields, place, rank, is_step, is_kind, client_kinds, other_kinds, kind_of};

use crate::operation::Operation;

/// What a line is, by its word.
#[derive(Clone, Copy)]
pub(crate) enum LineKind {
    Georep,
    Region,
    Members,
    Shards,
    Inbox,
    Trouble,
    Floor,
    Client,
    Call(Operation),
    Peek,
    Open,
    Stop,
    Close,
    Fetch,
    Deliver,
    Report,
    Hear,
    Sweep,
    Join,
    Depart,
    Leave,
    Back,
}

/// What a field of a line is.
#[derive(Clone, Copy)]
pub(crate) enum FieldKind {
    /// The word that says what the line is.
    Word,
    /// The word `at`.
    At,
    /// The version of the format.
    Version,
    /// The region's name.
    Region,
    /// A number from the one to the other.
    Number { least: u128, most: u128 },
    /// The number of a member.
    Member,
    /// The number of a client that is stated.
    Client,
    /// Which one it is, counted from 1.
    Ordinal,
    /// A client and which of its steps it is, with a dot between them.
    Step,
    Key,
    Value,
    /// The text of a query.
    Query,
}

/// The lines that begin with a client's number and are no calls.
const MORE_KINDS: [LineKind; 7] = [
    LineKind::Peek,
    LineKind::Open,
    LineKind::Stop,
    LineKind::Close,
    LineKind::Fetch,
    LineKind::Leave,
    LineKind::Back,
];

const OTHER_KINDS: [LineKind; 14] = [
    LineKind::Georep,
    LineKind::Region,
    LineKind::Members,
    LineKind::Shards,
    LineKind::Inbox,
    LineKind::Trouble,
    LineKind::Floor,
    LineKind::Client,
    LineKind::Deliver,
    LineKind::Report,
    LineKind::Hear,
    LineKind::Sweep,
    LineKind::Join,
    LineKind::Depart,
];

impl LineKind {
    /// How it is spelled.
    pub(crate) fn word(self) -> &'static [u8]
        ensures { result.now ≡ word self }
    {
        match self {
            LineKind::Georep => b"georep",
            LineKind::Region => b"region",
            LineKind::Members => b"members",
            LineKind::Shards => b"shards",
            LineKind::Inbox => b"inbox",
            LineKind::Trouble => b"trouble",
            LineKind::Floor => b"floor",
            LineKind::Client => b"client",
            LineKind::Call(operation) => operation.word(),
            LineKind::Peek => b"peek",
            LineKind::Open => b"open",
            LineKind::Stop => b"stop",
            LineKind::Close => b"close",
            LineKind::Fetch => b"fetch",
            LineKind::Deliver => b"deliver",
            LineKind::Report => b"report",
            LineKind::Hear => b"hear",
            LineKind::Sweep => b"sweep",
            LineKind::Join => b"join",
            LineKind::Depart => b"depart",
            LineKind::Leave => b"leave",
            LineKind::Back => b"back",
        }
    }

    /// The fields of the line.
    pub(crate) fn fields(self) -> &'static [FieldKind]
        ensures { result.now ≡ fields self }
    {
        match self {
            LineKind::Georep => &[FieldKind::Word, FieldKind::Version],
            LineKind::Region => &[FieldKind::Word, FieldKind::Region],
            LineKind::Members => &[
                FieldKind::Word,
                FieldKind::Number { least: 1, most: 8 },
                FieldKind::Number { least: 1, most: 8 },
            ],
            LineKind::Shards => &[FieldKind::Word, FieldKind::Number { least: 1, most: 32 }],
            LineKind::Inbox => &[
                FieldKind::Word,
                FieldKind::Number {
                    least: 1,
                    most: 4096,
                },
            ],
            LineKind::Trouble => &[
                FieldKind::Word,
                FieldKind::Number {
                    least: 0,
                    most: 2147483646,
                },
            ],
            LineKind::Floor => &[
                FieldKind::Word,
                FieldKind::Number {
                    least: 0,
                    most: 281474976710655,
                },
            ],
            LineKind::Client => &[
                FieldKind::Word,
                FieldKind::Number { least: 1, most: 64 },
                FieldKind::At,
                FieldKind::Member,
            ],
            LineKind::Call(Operation::OfKey(_)) => {
                &[FieldKind::Client, FieldKind::Word, FieldKind::Key]
            }
            LineKind::Call(Operation::OfValue(_)) => &[
                FieldKind::Client,
                FieldKind::Word,
                FieldKind::Key,
                FieldKind::Value,
            ],
            LineKind::Call(Operation::OfPair(_)) => &[
                FieldKind::Client,
                FieldKind::Word,
                FieldKind::Key,
                FieldKind::Value,
                FieldKind::Value,
            ],
            LineKind::Peek => &[FieldKind::Client, FieldKind::Word, FieldKind::Key],
            LineKind::Open => &[
                FieldKind::Client,
                FieldKind::Word,
                FieldKind::Key,
                FieldKind::Query,
            ],
            LineKind::Stop => &[FieldKind::Client, FieldKind::Word, FieldKind::Key],
            LineKind::Close => &[FieldKind::Client, FieldKind::Word, FieldKind::Key],
            LineKind::Fetch => &[FieldKind::Client, FieldKind::Word, FieldKind::Key],
            LineKind::Deliver => &[FieldKind::Word, FieldKind::Member, FieldKind::Step],
            LineKind::Report => &[FieldKind::Word, FieldKind::Member],
            LineKind::Hear => &[
                FieldKind::Word,
                FieldKind::Member,
                FieldKind::Member,
                FieldKind::Ordinal,
            ],
            LineKind::Sweep => &[
                FieldKind::Word,
                FieldKind::Member,
                FieldKind::Number {
                    least: 0,
                    most: 4294967295,
                },
            ],
            LineKind::Join => &[FieldKind::Word, FieldKind::Member, FieldKind::Member],
            LineKind::Depart => &[FieldKind::Word, FieldKind::Member],
            LineKind::Leave | LineKind::Back => &[
                FieldKind::Client,
                FieldKind::Word,
                FieldKind::Number {
                    least: 0,
                    most: 4294967295,
                },
            ],
        }
    }
}

fn kind_among(kinds: &[LineKind], text: &[u8]) -> Option<LineKind>
    ensures { result ≡ kind_of kinds.now text.now }
{
    kinds.iter().copied().find(|kind| text == kind.word())
}

#[tactic(auto, using(crate::proofs::Operations::client_call, crate::proofs::Operations::client_other))]
fn client_kind(text: &[u8]) -> Option<LineKind>
    ensures { result ≡ kind_of client_kinds text.now }
{
    match Operation::called(text) {
        Some(operation) => Some(LineKind::Call(operation)),
        None => kind_among(&MORE_KINDS, text),
    }
}

/// The kind with this word, of those that begin with a client's number or of the others.
pub(crate) fn kind_of(is_client: bool, text: &[u8]) -> Option<LineKind>
    ensures { result ≡ kind_of (if is_client then client_kinds else other_kinds) text.now }
{
    if is_client {
        client_kind(text)
    } else {
        kind_among(&OTHER_KINDS, text)
    }
}

/// Whether the line is a step of a client.
pub(crate) fn is_step(kind: LineKind) -> bool
    ensures { result ≡ is_step kind }
{
    matches!(
        kind,
        LineKind::Call(_)
            | LineKind::Peek
            | LineKind::Open
            | LineKind::Stop
            | LineKind::Close
            | LineKind::Fetch
    )
}

// Which of the kinds it is, counted from 0; all calls are of one.
fn place(kind: LineKind) -> u8
    ensures { result ≡ place kind }
{
    match kind {
        LineKind::Georep => 0,
        LineKind::Region => 1,
        LineKind::Members => 2,
        LineKind::Shards => 3,
        LineKind::Inbox => 4,
        LineKind::Trouble => 5,
        LineKind::Floor => 6,
        LineKind::Client => 7,
        LineKind::Call(_) => 8,
        LineKind::Peek => 9,
        LineKind::Open => 10,
        LineKind::Stop => 11,
        LineKind::Close => 12,
        LineKind::Fetch => 13,
        LineKind::Deliver => 14,
        LineKind::Report => 15,
        LineKind::Hear => 16,
        LineKind::Sweep => 17,
        LineKind::Join => 18,
        LineKind::Depart => 19,
        LineKind::Leave => 20,
        LineKind::Back => 21,
    }
}

/// Its rank. A line of a greater rank stands behind one of a lesser.
pub(crate) fn rank(kind: LineKind) -> u8
    ensures { result ≡ rank kind }
{
    place(kind).min(8)
}

/// Whether lines are of the same kind.
pub(crate) fn is_kind(kind: LineKind, other: LineKind) -> bool
    ensures { result ≡ is_kind kind other }
{
    place(kind) == place(other)
}
