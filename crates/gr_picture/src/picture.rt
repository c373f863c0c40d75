ghost use Rattle.std.specs.Prelude.{IfOk, string_bytes};
ghost use Rattle.gr_picture.specs.Elements.{IsPicture};

use crate::elements::{close, feed};
use crate::frame::{opened, put_definitions, put_ground};
use crate::halt::Halt;
use crate::legend::put_legend;
use crate::measures::{MARGIN, width_of};
use crate::pen::Pen;
use crate::reading::Report;
use crate::rows::Rows;
use crate::shapes::put_title;
use crate::standing::put_standing;
use std::alloc::Global;

// A picture of this size with this title, in which is what the pen drew.
fn framed(
    alloc: Global,
    width: usize,
    height: usize,
    title: &str,
    pen: &Pen,
) -> Result<String, Halt>
    ensures { IfOk result (λ picture. IsPicture (string_bytes picture)) }
{
    let mut out = opened(alloc, width, height)?;
    put_title(&mut out, title)?;
    put_definitions(&mut out)?;
    put_ground(&mut out)?;
    out.push_str(pen.drawn()?)?;
    close(&mut out, "svg")?;
    feed(&mut out)?;
    Ok(out)
}

/// The picture of a report whose deeds have their columns.
pub fn picture_of(alloc: Global, report: &Report) -> Result<String, Halt>
    ensures { IfOk result (λ picture. IsPicture (string_bytes picture)) }
{
    let histories = report.histories.as_slice();
    let members = report.members.as_slice();
    let width = width_of(histories);
    let rows = Rows::below(alloc, MARGIN, histories)?;
    let mut pen = Pen::new(alloc);
    rows.draw(&mut pen, alloc, width, histories)?;
    let end = put_standing(&mut pen, alloc, rows.end, width, members)?;
    let legend = put_legend(&mut pen, alloc, end, width, members)?;
    let height = legend.saturating_add(MARGIN);
    let count = members.len();
    let title = format!(in alloc;
        "What happened at {count} members, and what stands there at the end"
    )?;
    framed(alloc, width, height, title.as_str(), &pen)
}
