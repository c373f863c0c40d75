ghost use Rattle.std.specs.Prelude.{◌≡◌, MatchResult};
ghost use Rattle.gr_peek.specs.declared.store.Step.TheVariants.{Turn};
ghost use Rattle.gr_peek.specs.Rule.{after};

use super::{Step, Store};
use gr_value::{Copied, Key, Value};
use left_right::Absorb;
use std::alloc::AllocError;

impl Store {
    // The key has this value from now on, or none. Where memory is refused the step comes back.
    fn turn(&mut self, key: Key, value: Option<Value>) -> Result<(), Step>
        ensures { MatchResult result
            (λ _. self.new ≡ after self.old (Turn key value))
            (λ step. (step ≡ Turn key value) × (self.new ≡ self.old)) }
    {
        let Some(value) = value else {
            self.entries.take(&key);
            return Ok(());
        };
        match self.entries.put(key, value) {
            Ok(()) => Ok(()),
            Err(refused) => {
                let (key, value) = refused.value;
                Err(Step::Turn {
                    key,
                    value: Some(value),
                })
            }
        }
    }
}

impl Absorb<Step> for Store {
    type State = Store;

    ghost use Rattle.gr_peek.specs.Rule.{after};

    ghost state = { λ store. store };

    ghost applied = { after };

    fn absorb_first(&mut self, step: &Step, other: &Store) -> Result<(), AllocError> {
        let Ok(step) = step.copy(self.alloc) else {
            return Err(AllocError);
        };
        match self.absorb_second(step, other) {
            Ok(()) => Ok(()),
            Err(_) => Err(AllocError),
        }
    }

    fn absorb_second(&mut self, step: Step, _other: &Store) -> Result<(), Step> {
        match step {
            Step::Turn { key, value } => self.turn(key, value),
            Step::Close { told } => {
                self.told = told;
                Ok(())
            }
        }
    }
}
