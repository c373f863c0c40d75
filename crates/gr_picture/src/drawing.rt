ghost use Rattle.std.specs.Prelude.{IfOk, string_bytes};
ghost use Rattle.gr_picture.specs.Elements.{IsPicture};

use crate::halt::Halt;
use crate::layout::lay_out;
use crate::picture::picture_of;
use crate::reading::report_of;
use std::alloc::Global;

/// The picture of a report with histories, or the first line that isn't what such a report has there.
pub fn drawn(alloc: Global, bytes: &[u8]) -> Result<String, Halt>
    ensures { IfOk result (λ picture. IsPicture (string_bytes picture)) }
{
    let mut report = report_of(alloc, bytes)?;
    lay_out(alloc, &mut report.histories)?;
    picture_of(alloc, &report)
}
