ghost use Rattle.std.specs.Prelude.{[], OnOk, codes, string_bytes};
ghost use Rattle.gr_picture.specs.Elements.{Draws, IsBegun, IsInside, sized};

use crate::deed::{Deed, Look, Note};
use crate::elements::{alone, attribute, begin, close, feed, inside, number, words};
use crate::halt::Halt;
use crate::letters::shortened;
use crate::measures::{BOX_HEIGHT, BOX_WIDTH, LETTERS, Point};
use crate::style::{Style, put_style};
use std::alloc::Global;

// The colours of a box: inside and border. A change has those of the member that made it.
fn colours(look: Look) -> (&'static str, &'static str) {
    match look {
        Look::Applied { member } => match member % 8 {
            1 => ("#dbe9ff", "#4a78c0"),
            2 => ("#ffe9cc", "#c08a3a"),
            3 => ("#dff3dc", "#4f9a47"),
            4 => ("#f6dcf2", "#a4509a"),
            5 => ("#fbf6c8", "#a89a2c"),
            6 => ("#d8f2f2", "#3f9696"),
            7 => ("#f9dcd8", "#b5564a"),
            _ => ("#e6e0f6", "#7058b0"),
        },
        Look::Passed => ("#dddddd", "#777777"),
        Look::Quiet => ("#ffffff", "#aaaaaa"),
        Look::Image => ("#e4e4fb", "#333399"),
        Look::Notice => ("#fffbe6", "#999977"),
    }
}

fn put_shortened(out: &mut String, text: &str, most: usize) -> Result<(), Halt>
    ensures { OnOk result (Draws (string_bytes out.old) (string_bytes out.new)) }
{
    let (front, more) = shortened(text, most);
    words(out, front)?;
    words(out, if more { "..." } else { "" })
}

// Begins a text at a point.
fn begin_text(out: &mut String, at: Point, style: Style) -> Result<(), Halt>
    ensures { OnOk result (IsInside (codes "text") [] (string_bytes out.old) (string_bytes out.new)) }
{
    begin(out, "text")?;
    number(out, "x", at.x)?;
    number(out, "y", at.y)?;
    put_style(out, style)?;
    inside(out)
}

/// A text at a point, of so many letters at most.
pub fn put_text(
    out: &mut String,
    at: Point,
    style: Style,
    text: &str,
    most: usize,
) -> Result<(), Halt>
    ensures { OnOk result (Draws (string_bytes out.old) (string_bytes out.new)) }
{
    begin_text(out, at, style)?;
    put_shortened(out, text, most)?;
    close(out, "text")?;
    feed(out)
}

/// A note whose middle is at a point, of so many letters at most.
pub fn put_note(out: &mut String, at: Point, note: Note, most: usize) -> Result<(), Halt>
    ensures { OnOk result (Draws (string_bytes out.old) (string_bytes out.new)) }
{
    let taken = note.before.len().saturating_add(note.behind.len());
    begin_text(out, at, Style::Middle)?;
    words(out, note.before)?;
    put_shortened(out, note.words, most.saturating_sub(taken))?;
    words(out, note.behind)?;
    close(out, "text")?;
    feed(out)
}

/// An element `title`, which is shown where one points at what it stands in.
pub fn put_title(out: &mut String, text: &str) -> Result<(), Halt>
    ensures { OnOk result (Draws (string_bytes out.old) (string_bytes out.new)) }
{
    begin(out, "title")?;
    inside(out)?;
    words(out, text)?;
    close(out, "title")?;
    feed(out)
}

// Begins a rectangle with its upper left corner at a point.
fn begin_rectangle(out: &mut String, at: Point, width: usize, height: usize) -> Result<(), Halt>
    ensures { OnOk result (IsBegun (codes "rect") (sized at.x at.y width height) (string_bytes out.old) (string_bytes out.new)) }
{
    begin(out, "rect")?;
    number(out, "x", at.x)?;
    number(out, "y", at.y)?;
    number(out, "width", width)?;
    number(out, "height", height)
}

/// A box with its upper left corner at a point.
pub fn put_rectangle(
    out: &mut String,
    at: Point,
    width: usize,
    height: usize,
    look: Look,
) -> Result<(), Halt>
    ensures { OnOk result (Draws (string_bytes out.old) (string_bytes out.new)) }
{
    let (within, border) = colours(look);
    begin_rectangle(out, at, width, height)?;
    attribute(out, "rx", "4")?;
    attribute(out, "fill", within)?;
    attribute(out, "stroke", border)?;
    alone(out)?;
    feed(out)
}

/// A band without a border.
pub fn put_band(out: &mut String, at: Point, width: usize, height: usize) -> Result<(), Halt>
    ensures { OnOk result (Draws (string_bytes out.old) (string_bytes out.new)) }
{
    begin_rectangle(out, at, width, height)?;
    attribute(out, "fill", "#f5f5f5")?;
    alone(out)?;
    feed(out)
}

/// An arrow along four points.
pub fn put_arrow(out: &mut String, alloc: Global, points: [Point; 4]) -> Result<(), Halt>
    ensures { OnOk result (Draws (string_bytes out.old) (string_bytes out.new)) }
{
    let way = way_of(alloc, points)?;
    begin(out, "path")?;
    attribute(out, "d", way.as_str())?;
    attribute(out, "fill", "none")?;
    attribute(out, "stroke", "#555")?;
    attribute(out, "stroke-width", "1.3")?;
    attribute(out, "marker-end", "url(#tip)")?;
    alone(out)?;
    feed(out)
}

// The way along four points, as SVG says it.
fn way_of(alloc: Global, points: [Point; 4]) -> Result<String, Halt> {
    let [start, first, second, end] = points;
    let (start_x, start_y) = (start.x, start.y);
    let (first_x, first_y) = (first.x, first.y);
    let (second_x, second_y) = (second.x, second.y);
    let (end_x, end_y) = (end.x, end.y);
    Ok(format!(in alloc;
        "M{start_x} {start_y} L{first_x} {first_y} L{second_x} {second_y} L{end_x} {end_y}"
    )?)
}

// The words of a deed's box below one another.
fn put_words(out: &mut String, corner: Point, deed: &Deed) -> Result<(), Halt>
    ensures { OnOk result (Draws (string_bytes out.old) (string_bytes out.new)) }
{
    let title = Note {
        before: "",
        words: deed.title,
        behind: "",
    };
    put_note(out, corner.moved(BOX_WIDTH / 2, 14), title, LETTERS)?;
    put_note(out, corner.moved(BOX_WIDTH / 2, 28), deed.note, LETTERS)
}

/// The box of a deed, with its upper left corner at a point.
pub fn put_deed(out: &mut String, corner: Point, deed: &Deed) -> Result<(), Halt>
    ensures { OnOk result (Draws (string_bytes out.old) (string_bytes out.new)) }
{
    begin(out, "g")?;
    inside(out)?;
    put_title(out, deed.text)?;
    put_rectangle(out, corner, BOX_WIDTH, BOX_HEIGHT, deed.look)?;
    put_words(out, corner, deed)?;
    close(out, "g")?;
    feed(out)
}
