ghost use Rattle.std.specs.Prelude.{◌≡◌, false, IfOk, IsOk};
ghost use Rattle.gr_picture.specs.Elements.{IsContent};

use crate::deed::{Deed, Look};
use crate::halt::Halt;
use crate::measures::Point;
use crate::shapes::{put_arrow, put_band, put_deed, put_rectangle, put_text};
use crate::style::Style;
use std::alloc::Global;
use std::marker::Model;

/// What is drawn so far: whole elements, unless memory was refused within one. Nothing is to be seen of it then.
#[derive(Drop)]
pub struct Pen {
    alloc: Global,
    out: String,
    torn: bool,
}

impl Model for Pen {
    ghost use Rattle.std.specs.Prelude.{◌≡◌, List, ℕ, false, string_bytes};
    ghost use Rattle.gr_picture.specs.Elements.{IsContent};

    ghost Value = { List ℕ };

    ghost view = { λ pen. string_bytes pen.out };

    ghost invariant = { λ pen. pen.torn ≡ false → IsContent (string_bytes pen.out) };
}

// Whether an element isn't whole, now that one more was put.
fn is_torn(torn: bool, put: &Result<(), Halt>) -> bool
    ensures whole { result ≡ false → torn ≡ false }
    ensures put { result ≡ false → IsOk put.now }
{
    torn || put.is_err()
}

impl Pen {
    pub fn new(alloc: Global) -> Pen {
        Pen {
            alloc,
            out: String::new(alloc),
            torn: false,
        }
    }

    pub fn drawn(&self) -> Result<&str, Halt>
        ensures { IfOk result (λ text. IsContent text.now) }
    {
        if self.torn {
            return Err(Halt::Memory);
        }
        Ok(self.out.as_str())
    }

    /// A text at a point, of so many letters at most.
    pub fn text(&mut self, at: Point, style: Style, text: &str, most: usize) -> Result<(), Halt> {
        let put = put_text(&mut self.out, at, style, text, most);
        self.torn = is_torn(self.torn, &put);
        put
    }

    /// A box with its upper left corner at a point.
    pub fn rectangle(
        &mut self,
        at: Point,
        width: usize,
        height: usize,
        look: Look,
    ) -> Result<(), Halt> {
        let put = put_rectangle(&mut self.out, at, width, height, look);
        self.torn = is_torn(self.torn, &put);
        put
    }

    /// A band without a border.
    pub fn band(&mut self, at: Point, width: usize, height: usize) -> Result<(), Halt> {
        let put = put_band(&mut self.out, at, width, height);
        self.torn = is_torn(self.torn, &put);
        put
    }

    /// An arrow along four points.
    pub fn arrow(&mut self, points: [Point; 4]) -> Result<(), Halt> {
        let put = put_arrow(&mut self.out, self.alloc, points);
        self.torn = is_torn(self.torn, &put);
        put
    }

    /// The box of a deed, with its upper left corner at a point.
    pub fn deed(&mut self, corner: Point, deed: &Deed) -> Result<(), Halt> {
        let put = put_deed(&mut self.out, corner, deed);
        self.torn = is_torn(self.torn, &put);
        put
    }
}
