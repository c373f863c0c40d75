ghost use Rattle.std.specs.Prelude.{[], ◌∷◌, IfOk, OnOk, codes, string_bytes};
ghost use Rattle.gr_picture.specs.Elements.{Draws, IsBegun, IsInside, frame_attributes, marker_attributes, svg_space};

use crate::elements::{alone, attribute, begin, close, feed, inside, number};
use crate::halt::Halt;
use std::alloc::Global;

const SPACE: &str = "http://www.w3.org/2000/svg";

const FONTS: &str = "DejaVu Sans Mono, Menlo, Consolas, monospace";

// Begins the first tag.
fn begin_frame(out: &mut String, width: usize, height: usize, all: &str) -> Result<(), Halt>
    ensures { OnOk result (IsBegun (codes "svg") (svg_space ∷ frame_attributes width height all.now) (string_bytes out.old) (string_bytes out.new)) }
{
    begin(out, "svg")?;
    attribute(out, "xmlns", SPACE)?;
    number(out, "width", width)?;
    number(out, "height", height)?;
    attribute(out, "viewBox", all)
}

/// The first tag of a picture of this size.
pub fn opened(alloc: Global, width: usize, height: usize) -> Result<String, Halt>
    ensures { IfOk result (λ tag. IsInside (codes "svg") (svg_space ∷ []) [] (string_bytes tag)) }
{
    let all = format!(in alloc; "0 0 {width} {height}")?;
    let mut out = String::new(alloc);
    begin_frame(&mut out, width, height, all.as_str())?;
    attribute(&mut out, "role", "img")?;
    attribute(&mut out, "font-family", FONTS)?;
    attribute(&mut out, "font-size", "11")?;
    inside(&mut out)?;
    feed(&mut out)?;
    Ok(out)
}

// Begins the tag of a marker.
fn begin_marker(out: &mut String) -> Result<(), Halt>
    ensures { OnOk result (IsBegun (codes "marker") marker_attributes (string_bytes out.old) (string_bytes out.new)) }
{
    begin(out, "marker")?;
    attribute(out, "id", "tip")?;
    attribute(out, "viewBox", "0 0 10 10")?;
    attribute(out, "refX", "9")?;
    attribute(out, "refY", "5")?;
    attribute(out, "markerWidth", "7")?;
    attribute(out, "markerHeight", "7")
}

// The tip of an arrow.
fn put_tip(out: &mut String) -> Result<(), Halt>
    ensures { OnOk result (Draws (string_bytes out.old) (string_bytes out.new)) }
{
    begin(out, "path")?;
    attribute(out, "d", "M0 0 L10 5 L0 10 z")?;
    attribute(out, "fill", "#555")?;
    alone(out)
}

fn put_marker(out: &mut String) -> Result<(), Halt>
    ensures { OnOk result (Draws (string_bytes out.old) (string_bytes out.new)) }
{
    begin_marker(out)?;
    attribute(out, "orient", "auto")?;
    inside(out)?;
    put_tip(out)?;
    close(out, "marker")
}

/// What arrows end with, for all that comes behind it.
pub fn put_definitions(out: &mut String) -> Result<(), Halt>
    ensures { OnOk result (Draws (string_bytes out.old) (string_bytes out.new)) }
{
    begin(out, "defs")?;
    inside(out)?;
    put_marker(out)?;
    close(out, "defs")?;
    feed(out)
}

/// The ground that all is drawn on.
pub fn put_ground(out: &mut String) -> Result<(), Halt>
    ensures { OnOk result (Draws (string_bytes out.old) (string_bytes out.new)) }
{
    begin(out, "rect")?;
    attribute(out, "width", "100%")?;
    attribute(out, "height", "100%")?;
    attribute(out, "fill", "#fff")?;
    alone(out)?;
    feed(out)
}
