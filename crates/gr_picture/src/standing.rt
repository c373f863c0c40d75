use crate::halt::Halt;
use crate::measures::{LINE, MARGIN, Point};
use crate::pen::Pen;
use crate::reading::{Entry, Standing};
use crate::style::Style;
use std::alloc::Global;

// A member's part, from one to the next, and its most entries.
const PART: usize = 280;

const PART_STEP: usize = 293;

const ENTRIES: usize = 12;

const PAIR_LETTERS: usize = 29;

const COUNT_LETTERS: usize = 42;

// How many parts stand side by side.
fn parts_in(width: usize) -> usize {
    (width.saturating_sub(MARGIN) / PART_STEP).max(1)
}

fn height_of(member: &Standing) -> usize {
    let lines = member.entries.len().min(ENTRIES + 1);
    lines.saturating_add(3).saturating_mul(LINE)
}

fn put_entry(pen: &mut Pen, at: Point, entry: &Entry) -> Result<(), Halt> {
    pen.text(at, Style::Plain, entry.pair, PAIR_LETTERS)?;
    pen.text(at.moved(PART, 0), Style::AtEnd, entry.stamp, PAIR_LETTERS)
}

fn put_part(pen: &mut Pen, alloc: Global, corner: Point, member: &Standing) -> Result<(), Halt> {
    let name = format!(in alloc; "at the end at member {}", member.member)?;
    let mut at = corner.moved(0, LINE);
    pen.text(at, Style::Bold, name.as_str(), PAIR_LETTERS)?;
    for entry in member.entries.iter().take(ENTRIES) {
        at = at.moved(0, LINE);
        put_entry(pen, at, entry)?;
    }
    let more = member.entries.len().saturating_sub(ENTRIES);
    if more > 0 {
        at = at.moved(0, LINE);
        let text = format!(in alloc; "and {more} more")?;
        pen.text(at, Style::Plain, text.as_str(), PAIR_LETTERS)?;
    }
    pen.text(at.moved(0, LINE), Style::Dim, member.counts, COUNT_LETTERS)
}

/// Draws what stands at each member at the end, side by side, and gives the height below it.
pub fn put_standing(
    pen: &mut Pen,
    alloc: Global,
    top: usize,
    width: usize,
    members: &[Standing],
) -> Result<usize, Halt> {
    let parts = parts_in(width);
    let (mut line, mut height) = (top, 0);
    for (index, member) in members.iter().enumerate() {
        let place = index.checked_rem(parts).unwrap_or(0);
        if place == 0 {
            line = line.saturating_add(height);
            height = 0;
        }
        let corner = Point { x: MARGIN, y: line };
        put_part(
            pen,
            alloc,
            corner.moved(place.saturating_mul(PART_STEP), 0),
            member,
        )?;
        height = height.max(height_of(member));
    }
    Ok(line.saturating_add(height))
}
