ghost use Rattle.std.specs.Prelude.{◌≡◌, IfOk};
ghost use Rattle.gr_ask.specs.Wants.{rows_text};

use gr_history::Row;
use gr_report::{put_all, put_number, put_text};
use gr_value::Memory;
use std::alloc::Global;

/// The text of rows, with their number before them.
pub(crate) fn rows_text(alloc: Global, rows: &[Row]) -> Result<Vec<u8>, Memory>
    ensures { IfOk result (λ text. text.items ≡ rows_text rows.now) }
{
    let mut out = Vec::new(alloc);
    put_text(&mut out, "rows ")?;
    put_number(&mut out, rows.len() as u128)?;
    put_all(alloc, &mut out, rows)?;
    put_text(&mut out, "\nend\n")?;
    Ok(out)
}
