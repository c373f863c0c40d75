use crate::deed::{ChangeId, Deed, Origin};
use crate::halt::Halt;
use crate::reading::History;
use std::alloc::Global;
use std::collections::BTreeMap;

/// A deed of a picture: which history it stands in, and where, both counted from 0.
#[derive(Clone, Copy, PartialEq, Eq)]
pub struct Place {
    pub history: usize,
    pub deed: usize,
}

/// Where a deed is drawn: its column, and how many deeds of its history stand above it there.
#[derive(Clone, Copy)]
struct Spot {
    column: usize,
    depth: usize,
}

/// Where each deed that another may come from stands.
#[derive(Drop)]
struct Index {
    /// By shard and change, the deed that made it.
    made: BTreeMap<(u64, ChangeId), Place>,
    /// By member and shard, the history.
    histories: BTreeMap<(u64, u64), usize>,
}

impl Index {
    fn new(alloc: Global, histories: &[History]) -> Result<Index, Halt> {
        let mut index = Index {
            made: BTreeMap::new(alloc),
            histories: BTreeMap::new(alloc),
        };
        for (place, history) in histories.iter().enumerate() {
            index.add(place, history)?;
        }
        Ok(index)
    }

    fn add(&mut self, place: usize, history: &History) -> Result<(), Halt> {
        self.histories
            .insert((history.member, history.shard), place)?;
        for (deed, one) in history.deeds.iter().enumerate() {
            if let Some(change) = one.made {
                let place = Place {
                    history: place,
                    deed,
                };
                self.made.insert((history.shard, change), place)?;
            }
        }
        Ok(())
    }

    // The deed that one of this shard comes from, if it comes from any.
    fn origin(&self, shard: u64, deed: &Deed) -> Result<Option<Place>, Halt> {
        let found = match deed.origin {
            Origin::Here => return Ok(None),
            Origin::Change(change) => self.made.get(&(shard, change)).copied(),
            Origin::Deed { member, place } => self.histories.get(&(member, shard)).map(
                |history| Place {
                    history: *history,
                    deed: place as usize,
                },
            ),
        };
        match found {
            Some(place) => Ok(Some(place)),
            None => Err(Halt::Line(deed.line)),
        }
    }

    // Notes of each deed the one that it comes from.
    fn link(&self, history: &mut History) -> Result<(), Halt> {
        let shard = history.shard;
        for deed in history.deeds.iter_mut() {
            deed.from = self.origin(shard, deed)?;
        }
        Ok(())
    }
}

fn deed_at<'a, 'b>(histories: &'b [History<'a>], place: Place) -> Option<&'b Deed<'a>> {
    histories.get(place.history)?.deeds.get(place.deed)
}

// The spot below that of a deed, where it has one.
fn spot_below(histories: &[History], place: Place) -> Option<Spot> {
    let deed = deed_at(histories, place)?;
    Some(Spot {
        column: deed.column?,
        depth: deed.depth.saturating_add(1),
    })
}

// The first column behind that of a deed, where it has one.
fn behind(histories: &[History], place: Place) -> Option<usize> {
    let column = deed_at(histories, place)?.column?;
    Some(column.saturating_add(1))
}

// Where a deed stands: in the column of the deed before it, below it, or in the first column behind that of
// the deed that it comes from. `None` where these have no column yet.
fn spot_of(histories: &[History], place: Place) -> Option<Spot> {
    let below = match place.deed {
        0 => Spot {
            column: 0,
            depth: 0,
        },
        deed => spot_below(
            histories,
            Place {
                deed: deed - 1,
                ..place
            },
        )?,
    };
    let Some(from) = deed_at(histories, place)?.from else {
        return Some(below);
    };
    let column = behind(histories, from)?;
    if column <= below.column {
        Some(below)
    } else {
        Some(Spot { column, depth: 0 })
    }
}

fn set_spot(histories: &mut [History], place: Place, spot: Spot) {
    if let Some(history) = histories.get_mut(place.history) {
        if let Some(deed) = history.deeds.get_mut(place.deed) {
            deed.column = Some(spot.column);
            deed.depth = spot.depth;
        }
    }
}

// Gives columns to the deeds of a history from a place on, as far as it goes, and says how far.
fn advance(histories: &mut [History], history: usize, from: usize) -> usize {
    for deed in from..usize::MAX {
        let place = Place { history, deed };
        match spot_of(histories, place) {
            Some(spot) => set_spot(histories, place, spot),
            None => return deed,
        }
    }
    usize::MAX
}

// Gives columns in each history as far as it goes, and says whether that was further than before.
fn round(histories: &mut [History], drawn: &mut [usize]) -> bool {
    let mut further = false;
    for (history, upto) in drawn.iter_mut().enumerate() {
        let now = advance(histories, history, *upto);
        further = further || now != *upto;
        *upto = now;
    }
    further
}

// The first line without a column.
fn first_left(histories: &[History]) -> Option<usize> {
    histories
        .iter()
        .flat_map(|history| history.deeds.iter())
        .find(|deed| deed.column.is_none())
        .map(|deed| deed.line)
}

/// Gives each deed its column: that of the deed before it, or, where it comes from a deed that stands there or
/// farther right, the first one behind that. The deeds of a history in one column stand below one another.
pub fn lay_out(alloc: Global, histories: &mut [History]) -> Result<(), Halt> {
    let index = Index::new(alloc, histories)?;
    for history in histories.iter_mut() {
        index.link(history)?;
    }
    let mut drawn = vec![in alloc; 0usize; histories.len()]?;
    for _ in 0..usize::MAX {
        if !round(histories, &mut drawn) {
            break;
        }
    }
    match first_left(histories) {
        None => Ok(()),
        Some(line) => Err(Halt::Line(line)),
    }
}
