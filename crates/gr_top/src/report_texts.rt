ghost use Rattle.std.specs.Prelude.{◌≡◌, IfOk};
ghost use Rattle.gr_top.specs.ReportTexts.{report_text, text_with_tables};

use crate::words::Detail;
use gr_durable::{print_tables, tables};
use gr_history::Record;
use gr_report::{put_text, report_in, report_open};
use gr_value::Memory;
use std::alloc::Global;

fn text_with_tables(alloc: Global, room: Vec<u8>, record_of: &Record) -> Result<Vec<u8>, Memory>
    ensures { IfOk result (λ text. text.items ≡ text_with_tables record_of.now) }
{
    let tables = tables(alloc, record_of)?;
    let mut out = report_open(alloc, room, record_of, false)?;
    print_tables(alloc, &tables, &mut out)?;
    put_text(&mut out, "end\n")?;
    Ok(out)
}

/// The text of a record with what is told besides, in the memory of a list whose bytes are let go.
pub(crate) fn report_text(
    alloc: Global,
    room: Vec<u8>,
    detail: Detail,
    record_of: &Record,
) -> Result<Vec<u8>, Memory>
    ensures { IfOk result (λ text. text.items ≡ report_text detail record_of.now) }
{
    match detail {
        Detail::Plain => report_in(alloc, room, record_of, false),
        Detail::Histories => report_in(alloc, room, record_of, true),
        Detail::Tables => text_with_tables(alloc, room, record_of),
    }
}
