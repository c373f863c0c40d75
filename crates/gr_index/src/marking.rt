ghost use Rattle.std.specs.Prelude.{◌≡◌, IfOk};
ghost use Rattle.gr_index.specs.Cells.{mark_of, placed, cell_at};

use crate::cell::{Cell, Mark, Place};
use crate::words::Words;
use gr_value::{Copied, Key, Memory, Scalar};
use std::alloc::Global;

impl Mark {
    pub(crate) fn of(alloc: Global, scalar: &Scalar) -> Result<Mark, Memory>
        ensures { IfOk result (λ mark. mark ≡ mark_of scalar.now) }
    {
        match scalar {
            Scalar::Null => Ok(Mark::Null),
            Scalar::Bool(truth) => Ok(Mark::Bool(*truth)),
            Scalar::Int(number) => Ok(Mark::Int(*number)),
            Scalar::Text(text) => Ok(Mark::Text(Words {
                text: text.copy(alloc)?,
            })),
        }
    }
}

impl Cell {
    pub(crate) fn placed(alloc: Global, scalar: &Scalar, place: Place) -> Result<Cell, Memory>
        ensures { IfOk result (λ cell. cell ≡ placed scalar.now place) }
    {
        Ok(Cell {
            mark: Mark::of(alloc, scalar)?,
            place,
        })
    }

    pub(crate) fn at(alloc: Global, scalar: &Scalar, key: &Key) -> Result<Cell, Memory>
        ensures { IfOk result (λ cell. cell ≡ cell_at scalar.now key.now) }
    {
        Cell::placed(alloc, scalar, Place::At(key.copy(alloc)?))
    }
}
