use crate::layout::Place;
use crate::letters::{after_words, last_words, number, outside_quotes};

/// Where the places of closing reports begin, which are those of no deed.
const CLOSING: u64 = 1152921504606846976;

/// A change, by the member that made it and its number there.
#[derive(Clone, Copy, PartialEq, Eq, PartialOrd, Ord)]
pub struct ChangeId {
    pub member: u64,
    pub rv: u64,
}

/// What a deed comes from, at the same shard.
#[derive(Clone, Copy, PartialEq, Eq)]
pub enum Origin {
    /// Nothing but what is here.
    Here,
    /// The deed that made a change.
    Change(ChangeId),
    /// The deed of a member at a place of its history, counted from 0.
    Deed { member: u64, place: u64 },
}

/// How a deed is drawn.
#[derive(Clone, Copy, PartialEq, Eq)]
pub enum Look {
    /// A change of this member came to stand.
    Applied { member: u64 },
    /// A change came, and nothing changed.
    Passed,
    /// Nothing changed.
    Quiet,
    /// An image was given or merged.
    Image,
    /// What is known was told or heard, or tombstones went.
    Notice,
}

/// A line of a box: words of the report, and what is said around them.
#[derive(Clone, Copy)]
pub struct Note<'a> {
    pub before: &'static str,
    pub words: &'a str,
    pub behind: &'static str,
}

impl<'a> Note<'a> {
    fn of(words: &'a str) -> Note<'a> {
        Note {
            before: "",
            words,
            behind: "",
        }
    }

    fn behind(before: &'static str, words: &'a str) -> Note<'a> {
        Note {
            before,
            words,
            behind: "",
        }
    }
}

/// A deed of a history, as its line says it.
#[derive(Clone, Copy)]
pub struct Deed<'a> {
    /// Its line in the report, counted from 1.
    pub line: usize,
    pub text: &'a str,
    pub title: &'a str,
    pub note: Note<'a>,
    pub look: Look,
    /// The change that it made, if it made one.
    pub made: Option<ChangeId>,
    pub origin: Origin,
    /// The deed that it comes from, once that is known.
    pub from: Option<Place>,
    /// Which column it is drawn in, counted from 0, once that is known.
    pub column: Option<usize>,
    /// How many deeds of its history stand above it in its column.
    pub depth: usize,
}

/// The change of a stamp, `VER.MEMBER.RV`.
pub fn change_of(stamp: &str) -> Option<ChangeId> {
    let (ver, rest) = stamp.split_once('.')?;
    let (member, rv) = rest.split_once('.')?;
    number(ver)?;
    Some(ChangeId {
        member: number(member)?,
        rv: number(rv)?,
    })
}

// A list of members, or `-`.
fn is_list(text: &str) -> bool {
    text == "-" || text.split(',').all(|part| number(part).is_some())
}

// What stands from the word `made` on at the end of a line, and its change: a stamp and the members it
// goes to.
fn made_of(text: &str) -> Option<(&str, ChangeId)> {
    let (_, tail) = last_words(text, 4)?;
    let (stamp, rest) = tail.strip_prefix("made ")?.split_once(' ')?;
    if !is_list(rest.strip_prefix("to ")?) {
        return None;
    }
    Some((tail, change_of(stamp)?))
}

// A deed that comes from nothing and made nothing.
fn plain<'a>(line: usize, text: &'a str, title: &'a str, note: Note<'a>, look: Look) -> Deed<'a> {
    Deed {
        line,
        text,
        title,
        note,
        look,
        made: None,
        origin: Origin::Here,
        from: None,
        column: None,
        depth: 0,
    }
}

// `call C.S ASK -> REPLY`, and what was made.
fn call(line: usize, text: &str) -> Option<Deed<'_>> {
    let rest = text.strip_prefix("call ")?;
    let (front, behind) = after_words(rest, 3)?;
    let place = outside_quotes(behind, "-> ")?;
    let (_, arrow) = behind.split_at_checked(place)?;
    let (title, _) = rest.split_at_checked(front.len().saturating_add(place))?;
    let reply = arrow.strip_prefix("-> ")?;
    match made_of(reply) {
        Some((tail, change)) => Some(Deed {
            made: Some(change),
            ..plain(
                line,
                text,
                title,
                Note::of(tail),
                Look::Applied {
                    member: change.member,
                },
            )
        }),
        None => Some(plain(
            line,
            text,
            title,
            Note::behind("answered ", reply),
            Look::Quiet,
        )),
    }
}

// `ask C.S ASK -> REPLY`
fn ask(line: usize, text: &str) -> Option<Deed<'_>> {
    let (front, reply) = text.rsplit_once(" -> ")?;
    let title = front.strip_prefix("ask ")?;
    after_words(title, 3)?;
    let note = Note::behind("answered ", reply);
    Some(plain(line, text, title, note, Look::Quiet))
}

// How a change that came in is drawn, and what its verdict means.
fn verdict_of(verdict: &str, member: u64) -> Option<(Look, &'static str)> {
    match verdict {
        "applied" => Some((Look::Applied { member }, ": it stands")),
        "discarded" => Some((Look::Passed, ": it loses")),
        "repeat" => Some((Look::Passed, ": known before")),
        _ => None,
    }
}

// `take KEY put VALUE STAMP VERDICT`, or `take KEY invalid STAMP VERDICT`, or the same of `remove`
fn take(line: usize, text: &str) -> Option<Deed<'_>> {
    let (title, words) = last_words(text, 2)?;
    after_words(title, 3)?;
    let (stamp, verdict) = words.split_once(' ')?;
    let change = change_of(stamp)?;
    let (look, behind) = verdict_of(verdict, change.member)?;
    let note = Note {
        before: "",
        words,
        behind,
    };
    Some(Deed {
        origin: Origin::Change(change),
        ..plain(line, text, title, note, look)
    })
}

// `gave M image` or `gave M own`
fn gave(line: usize, text: &str) -> Option<Deed<'_>> {
    let (_, what) = last_words(text, 1)?;
    let note = match what {
        "image" => Note::of("all that stands here"),
        "own" => Note::of("all that was made here"),
        _ => return None,
    };
    Some(plain(line, text, text, note, Look::Image))
}

// `image from M at P rows N floor F`
fn image(line: usize, text: &str) -> Option<Deed<'_>> {
    let (title, note) = after_words(text, 5)?;
    let (member, place) = title.strip_prefix("image from ")?.split_once(" at ")?;
    Some(Deed {
        origin: Origin::Deed {
            member: number(member)?,
            place: number(place)?,
        },
        ..plain(line, text, title, Note::of(note), Look::Image)
    })
}

// What a report says of its member's own changes.
fn own_of(note: &str) -> Option<Note<'_>> {
    Some(Note::behind("own changes: ", note.strip_prefix("own ")?))
}

// `report at P own N`
fn report(line: usize, text: &str) -> Option<Deed<'_>> {
    let (title, note) = after_words(text, 3)?;
    Some(plain(line, text, title, own_of(note)?, Look::Notice))
}

// A report comes from the deed that made it, but a closing one, which its hearer made itself.
fn heard_from(member: u64, place: u64) -> Origin {
    if place < CLOSING {
        Origin::Deed { member, place }
    } else {
        Origin::Here
    }
}

// `heard M at P own N`
fn heard(line: usize, text: &str) -> Option<Deed<'_>> {
    let (title, note) = after_words(text, 4)?;
    let (member, place) = title.strip_prefix("heard ")?.split_once(" at ")?;
    Some(Deed {
        origin: heard_from(number(member)?, number(place)?),
        ..plain(line, text, title, own_of(note)?, Look::Notice)
    })
}

// `sweep T expired N`, and the keys
fn sweep(line: usize, text: &str) -> Option<Deed<'_>> {
    let (title, note) = after_words(text, 2)?;
    Some(plain(line, text, title, Note::of(note), Look::Notice))
}

impl<'a> Deed<'a> {
    /// The deed that a line of a history says.
    pub fn read(line: usize, text: &'a str) -> Option<Deed<'a>> {
        let (kind, _) = text.split_once(' ')?;
        match kind {
            "call" => call(line, text),
            "ask" => ask(line, text),
            "take" => take(line, text),
            "gave" => gave(line, text),
            "image" => image(line, text),
            "report" => report(line, text),
            "heard" => heard(line, text),
            "sweep" => sweep(line, text),
            _ => None,
        }
    }
}
