use crate::deed::Deed;
use crate::halt::Halt;
use crate::layout::Place;
use crate::measures::{
    BOX_HEIGHT, BOX_WIDTH, GAP, LETTERS, MARGIN, Point, WAY, corner_of, height_of,
};
use crate::pen::Pen;
use crate::reading::History;
use crate::style::Style;
use std::alloc::Global;

// How far from a box's side an arrow turns.
const TURN: usize = 32;

// Where the ways of arrows lie between two rows: from the row, and from one another.
const WAY_OFF: usize = 5;

const WAY_STEP: usize = 4;

/// The tops of the rows, in order, and the end of the last one.
#[derive(Drop)]
pub struct Rows {
    tops: Vec<usize>,
    pub end: usize,
}

impl Rows {
    /// Rows below one another, the first of them at this height.
    pub fn below(alloc: Global, top: usize, histories: &[History]) -> Result<Rows, Halt> {
        let mut tops = Vec::new(alloc);
        let mut end = top;
        for history in histories.iter() {
            tops.push(end)?;
            end = end.saturating_add(height_of(history)).saturating_add(WAY);
        }
        Ok(Rows { tops, end })
    }

    fn top(&self, row: usize) -> usize {
        self.tops.get(row).copied().unwrap_or(0)
    }

    // The corner of a deed's box, and how many boxes stand above it.
    fn corner(&self, histories: &[History], place: Place) -> Option<(Point, usize)> {
        let deed = histories.get(place.history)?.deeds.get(place.deed)?;
        Some((corner_of(self.top(place.history), deed), deed.depth))
    }

    // The height at which an arrow goes along to a row: above it where it comes from above, else below it.
    fn way(&self, history: &History, row: usize, from: Place, depth: usize) -> usize {
        let top = self.top(row);
        let off = (depth % 4).saturating_mul(WAY_STEP).saturating_add(WAY_OFF);
        if from.history < row {
            top.saturating_sub(off)
        } else {
            top.saturating_add(height_of(history)).saturating_add(off)
        }
    }

    /// Draws the rows: bands with names, then the arrows, then the boxes.
    pub fn draw(
        &self,
        pen: &mut Pen,
        alloc: Global,
        width: usize,
        histories: &[History],
    ) -> Result<(), Halt> {
        for (row, history) in histories.iter().enumerate() {
            put_name(pen, alloc, self.top(row), width, history)?;
        }
        for (row, history) in histories.iter().enumerate() {
            self.put_arrows(pen, histories, row, history)?;
        }
        for (row, history) in histories.iter().enumerate() {
            put_boxes(pen, self.top(row), history)?;
        }
        Ok(())
    }

    fn put_arrows(
        &self,
        pen: &mut Pen,
        histories: &[History],
        row: usize,
        history: &History,
    ) -> Result<(), Halt> {
        for deed in history.deeds.iter() {
            self.put_arrow(pen, histories, row, history, deed)?;
        }
        Ok(())
    }

    // The arrow to a deed from the one that it comes from, if it comes from any. It begins at the right side
    // of a box, ends at the left side of another, and goes between the columns and between the rows.
    fn put_arrow(
        &self,
        pen: &mut Pen,
        histories: &[History],
        row: usize,
        history: &History,
        deed: &Deed,
    ) -> Result<(), Halt> {
        let Some(from) = deed.from else {
            return Ok(());
        };
        let Some((corner, depth)) = self.corner(histories, from) else {
            return Ok(());
        };
        let start = corner.moved(BOX_WIDTH, BOX_HEIGHT / 2);
        let end = corner_of(self.top(row), deed).moved(0, BOX_HEIGHT / 2);
        if end.x <= start.x.saturating_add(GAP) {
            return pen.arrow([start, start, end, end]);
        }
        let y = self.way(history, row, from, depth);
        let turns = (start.x.saturating_add(TURN), end.x.saturating_sub(TURN));
        pen.arrow([start, Point { x: turns.0, y }, Point { x: turns.1, y }, end])
    }
}

// The band of a history, with its name.
fn put_name(
    pen: &mut Pen,
    alloc: Global,
    top: usize,
    width: usize,
    history: &History,
) -> Result<(), Halt> {
    let at = Point { x: 0, y: top };
    let History { member, shard, .. } = history;
    pen.band(at, width, height_of(history))?;
    let name = format!(in alloc; "member {member} shard {shard}")?;
    pen.text(at.moved(MARGIN, 15), Style::Bold, name.as_str(), LETTERS)
}

fn put_boxes(pen: &mut Pen, top: usize, history: &History) -> Result<(), Halt> {
    for deed in history.deeds.iter() {
        pen.deed(corner_of(top, deed), deed)?;
    }
    Ok(())
}
