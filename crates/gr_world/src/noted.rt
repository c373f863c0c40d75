ghost use Rattle.std.specs.Prelude.{◌≡◌, ◌<◌, ◌≤◌, [], ℕ, IfOk, None, get_or, length, option_and_then, option_copied};
ghost use Rattle.gr_world.specs.Noted.{HasNoted, place_kept};

use crate::place::DeedPlace;
use crate::site::Site;
use gr_value::Memory;
use std::alloc::Global;
use std::marker::Model;

/// Where what each step of one client made stands, if it made anything, by the numbers of the steps.
/// Where it made nothing a place of member 0 is kept, whom there isn't.
#[derive(Drop)]
pub struct Noted {
    places: Vec<DeedPlace>,
}

impl Model for Noted {
    ghost use Rattle.std.specs.Prelude.{List, Option, map};
    ghost use Rattle.gr_world.specs.declared.place.DeedPlace.{DeedPlace};
    ghost use Rattle.gr_world.specs.Noted.{place_kept};

    ghost Value = { List (Option DeedPlace) };

    ghost view = { λ noted. map place_kept noted.places.items };
}

// The place of what is kept, if it is one.
fn place_kept(kept: Option<&DeedPlace>) -> Option<DeedPlace>
    ensures { result ≡ option_and_then place_kept (option_copied kept.entry) }
{
    match kept {
        Some(place) if place.site.member != 0 => Some(*place),
        _ => None,
    }
}

// What is kept where nothing was made.
fn nowhere() -> DeedPlace
    ensures { place_kept result ≡ None }
{
    let site = Site {
        member: 0,
        shard: 0,
    };
    DeedPlace { site, at: 0 }
}

impl Noted {
    pub fn new(alloc: Global) -> Noted
        ensures { result ≡ [] }
    {
        Noted {
            places: Vec::new(alloc),
        }
    }

    #[tactic(auto, using(crate::proofs::Kept::get_kept))]
    pub fn find(&self, number: u32) -> Option<DeedPlace>
        ensures { result ≡ get_or self.now number None }
    {
        place_kept(self.places.get(number as usize))
    }

    // Numbers of steps that made nothing, up to this one.
    #[tactic(auto, using(crate::proofs::Kept::get_lengthened))]
    fn lengthen(&mut self, number: usize) -> Result<(), Memory>
        ensures same { IfOk result (λ _. (k : ℕ) → get_or self.new k None ≡ get_or self.old k None) }
        ensures long { IfOk result (λ _. number < length self.new) }
    {
        while self.places.len() <= number {
            self.places.push(nowhere())?;
        }
        Ok(())
    }

    pub fn note(&mut self, number: u32, place: DeedPlace) -> Result<(), Memory>
        requires { 1 ≤ place.site.member }
        ensures { IfOk result (λ _. HasNoted number place self.old self.new) }
    {
        self.lengthen(number as usize)?;
        self.places[number as usize] = place;
        Ok(())
    }
}
