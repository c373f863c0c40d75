ghost use Rattle.std.specs.Prelude.{◌≡◌, ◌++◌, OnOk, flat_map, string_bytes};
ghost use Rattle.gr_picture.specs.Elements.{attribute_text};
ghost use Rattle.gr_picture.specs.Styles.{style_attributes};

use crate::elements::attribute;
use crate::halt::Halt;

/// How a text is drawn: in which weight and colour, and which of its points is given, its left end but
/// for the last two.
#[derive(Clone, Copy)]
pub enum Style {
    Plain,
    Bold,
    Dim,
    Dark,
    Middle,
    AtEnd,
}

/// Puts what the style adds into a tag that was begun.
pub fn put_style(out: &mut String, style: Style) -> Result<(), Halt>
    ensures { OnOk result (string_bytes out.new ≡ string_bytes out.old ++ flat_map attribute_text (style_attributes style)) }
{
    match style {
        Style::Plain => Ok(()),
        Style::Bold => attribute(out, "font-weight", "bold"),
        Style::Dim => attribute(out, "fill", "#555"),
        Style::Dark => attribute(out, "fill", "#333"),
        Style::Middle => attribute(out, "text-anchor", "middle"),
        Style::AtEnd => attribute(out, "text-anchor", "end"),
    }
}
