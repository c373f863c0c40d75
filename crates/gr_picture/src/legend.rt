use crate::deed::Look;
use crate::halt::Halt;
use crate::measures::{LINE, MARGIN, Point};
use crate::pen::Pen;
use crate::reading::Standing;
use crate::style::Style;
use std::alloc::Global;

// A colour with its words, from one to the next.
const SIGN: usize = 205;

const SIGN_LETTERS: usize = 40;

const SWATCH: usize = 12;

const WORDS_LETTERS: usize = 120;

const WORDS: [&str; 3] = [
    "Read a row from the left, and each column downwards; an arrow leads to what comes from elsewhere.",
    "A stamp is VERSION.MEMBER.NUMBER; NUMBER counts the changes of that member at that shard.",
    "The greater version wins, and of equal versions the greater member.",
];

const OTHERS: [(Look, &str); 4] = [
    (Look::Passed, "came, and changed nothing"),
    (Look::Quiet, "read, or asked in vain"),
    (Look::Image, "given to a joiner"),
    (Look::Notice, "report or sweep"),
];

// Colours with their words, side by side.
#[derive(Drop)]
struct Signs {
    top: usize,
    in_line: usize,
    count: usize,
}

impl Signs {
    fn below(top: usize, width: usize) -> Signs {
        Signs {
            top,
            in_line: (width.saturating_sub(MARGIN) / SIGN).max(1),
            count: 0,
        }
    }

    fn put(&mut self, pen: &mut Pen, look: Look, words: &str) -> Result<(), Halt> {
        let line = self.count.checked_div(self.in_line).unwrap_or(0);
        let place = self.count.checked_rem(self.in_line).unwrap_or(0);
        let corner = Point {
            x: MARGIN,
            y: self.top,
        };
        let at = corner.moved(place.saturating_mul(SIGN), line.saturating_mul(LINE + 4));
        pen.rectangle(at, SWATCH, SWATCH, look)?;
        pen.text(
            at.moved(SWATCH + 6, SWATCH - 2),
            Style::Plain,
            words,
            SIGN_LETTERS,
        )?;
        self.count = self.count.saturating_add(1);
        Ok(())
    }

    fn end(&self) -> usize {
        let lines = self
            .count
            .saturating_sub(1)
            .checked_div(self.in_line)
            .unwrap_or(0);
        self.top
            .saturating_add(lines.saturating_mul(LINE + 4))
            .saturating_add(LINE + 4)
    }
}

// Draws what each colour of a change is.
fn put_members(
    signs: &mut Signs,
    pen: &mut Pen,
    alloc: Global,
    members: &[Standing],
) -> Result<(), Halt> {
    for standing in members.iter() {
        let member = standing.member;
        let words = format!(in alloc; "change of member {member}")?;
        signs.put(pen, Look::Applied { member }, words.as_str())?;
    }
    Ok(())
}

// Draws what the other colours are.
fn put_others(signs: &mut Signs, pen: &mut Pen) -> Result<(), Halt> {
    for (look, words) in OTHERS.iter() {
        signs.put(pen, *look, words)?;
    }
    Ok(())
}

/// Draws what the colours are and how to read the picture, and gives the height below it.
pub fn put_legend(
    pen: &mut Pen,
    alloc: Global,
    top: usize,
    width: usize,
    members: &[Standing],
) -> Result<usize, Halt> {
    let mut signs = Signs::below(top, width);
    put_members(&mut signs, pen, alloc, members)?;
    put_others(&mut signs, pen)?;
    let mut at = Point {
        x: MARGIN,
        y: signs.end(),
    };
    for words in WORDS.iter() {
        at = at.moved(0, LINE);
        pen.text(at, Style::Dark, words, WORDS_LETTERS)?;
    }
    Ok(at.y)
}
