ghost use Rattle.std.specs.Prelude.{◌≡◌, ◌++◌, OnOk};
ghost use Rattle.gr_report.specs.Regions.{stamp_text, put_text as text_of_put, row_line, member_line, member_text};

use crate::counts::{Counts, count_all};
use crate::put::{put_counted, put_number, put_text};
use crate::rows::put_rows;
use crate::written::Written;
use gr_history::MemberRecord;
use gr_stamp::{Change, Kind, Stamp};
use gr_value::Memory;
use std::alloc::Global;

/// Puts a stamp last.
pub fn put_stamp(out: &mut Vec<u8>, stamp: &Stamp) -> Result<(), Memory>
    ensures { OnOk result (out.new.items ≡ out.old.items ++ stamp_text stamp.now) }
{
    put_number(out, u128::from(stamp.ver()))?;
    put_text(out, ".")?;
    put_number(out, u128::from(stamp.member()))?;
    put_text(out, ".")?;
    put_number(out, u128::from(stamp.rv()))
}

fn put_kind(alloc: Global, out: &mut Vec<u8>, kind: &Kind) -> Result<(), Memory>
    ensures { OnOk result (out.new.items ≡ out.old.items ++ text_of_put kind.now) }
{
    match kind {
        Kind::Put(value) => value.print_to(alloc, out),
        Kind::Invalid => put_text(out, "-"),
        Kind::Remove => Ok(()),
    }
}

impl Written for Change {
    ghost text = { row_line };

    #[tactic(auto, unfolding(crate::specs::Regions::row_line))]
    fn put(&self, alloc: Global, out: &mut Vec<u8>) -> Result<(), Memory> {
        out.extend_from_slice(self.key.bytes())?;
        put_text(out, " ")?;
        put_kind(alloc, out, &self.kind)?;
        put_text(out, " ")?;
        put_stamp(out, &self.stamp)?;
        put_text(out, "\n")
    }
}

#[tactic(auto, unfolding(crate::specs::Regions::member_line))]
fn put_member_line(out: &mut Vec<u8>, member: u8, counts: Counts) -> Result<(), Memory>
    ensures { OnOk result (out.new.items ≡ out.old.items ++ member_line member counts) }
{
    put_counted(out, "member ", u128::from(member))?;
    put_counted(out, " entries ", counts.entries)?;
    put_counted(out, " tombstones ", counts.tombstones)?;
    put_counted(out, " conflated ", counts.conflated)?;
    put_counted(out, " repeats ", counts.repeats)?;
    put_text(out, "\n")
}

impl Written for MemberRecord {
    ghost text = { member_text };

    fn put(&self, alloc: Global, out: &mut Vec<u8>) -> Result<(), Memory> {
        put_member_line(out, self.member, count_all(self.shards.as_slice()))?;
        put_rows(alloc, out, self.shards.as_slice())
    }
}
