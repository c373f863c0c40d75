ghost use Rattle.std.specs.Prelude.{◌≡◌, ◌<◌, ◌≤◌, [], ℕ, IfOk, Some, length};
ghost use Rattle.gr_world.specs.Noted.{Notes, place_of};

use crate::noted::Noted;
use crate::place::DeedPlace;
use crate::step::StepName;
use gr_value::Memory;
use std::alloc::Global;
use std::marker::Model;

// Where a step made nothing the place of member 0 is kept, which is none: so a step takes 16 bytes, where
// an `Option` took 24.
/// Where what each step of each client made stands, if it made anything.
#[derive(Drop)]
pub struct Made {
    alloc: Global,
    rows: Vec<Noted>,
}

impl Model for Made {
    ghost use Rattle.std.specs.Prelude.{List, Option};
    ghost use Rattle.gr_world.specs.declared.place.DeedPlace.{DeedPlace};

    ghost Value = { List (List (Option DeedPlace)) };

    ghost view = { λ made. made.rows.items };
}

impl Made {
    pub fn new(alloc: Global) -> Made
        ensures { result ≡ [] }
    {
        Made {
            alloc,
            rows: Vec::new(alloc),
        }
    }

    pub fn find(&self, client: u8, number: u32) -> Option<DeedPlace>
        ensures { result ≡ place_of self.now client number }
    {
        match self.rows.get(usize::from(client)) {
            Some(row) => row.find(number),
            None => None,
        }
    }

    // Lists of clients that made nothing, up to this one.
    fn lengthen(&mut self, client: usize) -> Result<(), Memory>
        ensures same { IfOk result (λ _. (own number : ℕ) → place_of self.new own number ≡ place_of self.old own number) }
        ensures long { IfOk result (λ _. client < length self.new) }
    {
        while self.rows.len() <= client {
            self.rows.push(Noted::new(self.alloc))?;
        }
        Ok(())
    }

    pub fn note(&mut self, step: StepName, place: DeedPlace) -> Result<(), Memory>
        requires { 1 ≤ place.site.member }
        ensures { IfOk result (λ _. Notes step.client step.seq (Some place) self.old self.new) }
    {
        let client = usize::from(step.client);
        self.lengthen(client)?;
        self.rows[client].note(step.seq, place)
    }
}
