use crate::deed::Deed;
use crate::reading::History;

/// A point of the picture, in its units.
#[derive(Clone, Copy)]
pub struct Point {
    pub x: usize,
    pub y: usize,
}

impl Point {
    /// The point so far to the right and below.
    pub fn moved(self, right: usize, down: usize) -> Point {
        Point {
            x: self.x.saturating_add(right),
            y: self.y.saturating_add(down),
        }
    }
}

/// What is left free around the picture.
pub const MARGIN: usize = 12;

/// A box, and what is left free beside and below it.
pub const BOX_WIDTH: usize = 189;

pub const BOX_HEIGHT: usize = 34;

pub const GAP: usize = 40;

pub const STEP: usize = 38;

/// A row's name, and the way between two rows.
pub const HEAD: usize = 22;

pub const WAY: usize = 24;

/// From a line of text to the next.
pub const LINE: usize = 16;

/// The most letters of a line in a box.
pub const LETTERS: usize = 27;

const LEAST_WIDTH: usize = 660;

/// How many columns the deeds have.
fn columns(histories: &[History]) -> usize {
    histories
        .iter()
        .filter_map(|history| history.deeds.last())
        .filter_map(|deed| deed.column)
        .max()
        .map_or(0, |last| last.saturating_add(1))
}

/// The width of the whole picture.
pub fn width_of(histories: &[History]) -> usize {
    columns(histories)
        .saturating_mul(BOX_WIDTH + GAP)
        .saturating_add(MARGIN + MARGIN)
        .saturating_sub(GAP)
        .max(LEAST_WIDTH)
}

/// The height of a row: its name, and its highest column.
pub fn height_of(history: &History) -> usize {
    history
        .deeds
        .iter()
        .map(|deed| deed.depth)
        .max()
        .map_or(0, |deepest| deepest.saturating_add(1))
        .saturating_mul(STEP)
        .saturating_add(HEAD)
}

/// The upper left corner of a deed's box, in a row with this top.
pub fn corner_of(top: usize, deed: &Deed) -> Point {
    let corner = Point {
        x: MARGIN,
        y: top.saturating_add(HEAD),
    };
    corner.moved(
        deed.column.unwrap_or(0).saturating_mul(BOX_WIDTH + GAP),
        deed.depth.saturating_mul(STEP),
    )
}
