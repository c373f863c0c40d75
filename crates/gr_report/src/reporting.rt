ghost use Rattle.std.specs.Prelude.{◌≡◌, IfOk};
ghost use Rattle.gr_report.specs.Report.{open_text, record_text};

use crate::histories::put_histories;
use crate::put::put_text;
use crate::written::put_all;
use gr_history::Record;
use gr_value::Memory;
use std::alloc::Global;

/// The text of a record: what each client was told, what stands at each member, and on demand all
/// that happened at each shard. Where shards share a key, which no script leaves, the row of the last of
/// them is told, and `entries` counts each.
pub fn report(alloc: Global, record_of: &Record, histories: bool) -> Result<Vec<u8>, Memory>
    ensures { IfOk result (λ text. text.items ≡ record_text histories record_of.now) }
{
    report_in(alloc, Vec::new(alloc), record_of, histories)
}

// Once a script was played its text is let go, and the report is put into the same memory, which the
// system need not hand out anew. Only time and memory rest on it.
/// The same text, in the memory of a list whose bytes are let go.
pub fn report_in(
    alloc: Global,
    room: Vec<u8>,
    record_of: &Record,
    histories: bool,
) -> Result<Vec<u8>, Memory>
    ensures { IfOk result (λ text. text.items ≡ record_text histories record_of.now) }
{
    let mut out = report_open(alloc, room, record_of, histories)?;
    put_text(&mut out, "end\n")?;
    Ok(out)
}

/// The same but for the last line, before which more can be put.
pub fn report_open(
    alloc: Global,
    room: Vec<u8>,
    record_of: &Record,
    histories: bool,
) -> Result<Vec<u8>, Memory>
    ensures { IfOk result (λ text. text.items ≡ open_text histories record_of.now) }
{
    let mut out = room;
    out.clear();
    put_text(&mut out, "replies\n")?;
    put_all(alloc, &mut out, record_of.clients.as_slice())?;
    put_text(&mut out, "regions\n")?;
    put_all(alloc, &mut out, record_of.members.as_slice())?;
    if histories {
        put_text(&mut out, "histories\n")?;
        put_histories(alloc, &mut out, record_of.members.as_slice())?;
    }
    Ok(out)
}
