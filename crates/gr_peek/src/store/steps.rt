ghost use Rattle.std.specs.Prelude.{◌≡◌, IfOk};
ghost use Rattle.gr_peek.specs.Writing.{turn_of};

use super::Step;
use gr_cq::Turned;
use gr_value::{Copied, Memory};
use std::alloc::Global;

impl Step {
    /// The key gets its new value.
    pub(crate) fn turn(alloc: Global, one: &Turned) -> Result<Step, Memory>
        ensures { IfOk result (λ step. step ≡ turn_of one.now) }
    {
        Ok(Step::Turn {
            key: one.key.copy(alloc)?,
            value: one.new.copy(alloc)?,
        })
    }
}

impl Copied for Step {
    fn copy(&self, alloc: Global) -> Result<Step, Memory> {
        match self {
            Step::Turn { key, value } => Ok(Step::Turn {
                key: key.copy(alloc)?,
                value: value.copy(alloc)?,
            }),
            Step::Close { told } => Ok(Step::Close { told: told.again() }),
        }
    }
}
