ghost use Rattle.std.specs.Prelude.{◌≡◌, ◌++◌, OnOk, flat_map};
ghost use Rattle.gr_report.specs.Histories.{history_line, history_text, histories_of};

use crate::put::{put_counted, put_text};
use crate::written::{Numbered, put_all, put_numbered};
use gr_history::{MemberRecord, ShardRecord};
use gr_value::Memory;
use std::alloc::Global;

#[tactic(auto, unfolding(crate::specs::Histories::history_line))]
fn put_history_line(out: &mut Vec<u8>, member: u8, shard: u64, deeds: u64) -> Result<(), Memory>
    ensures { OnOk result (out.new.items ≡ out.old.items ++ history_line member shard deeds) }
{
    put_counted(out, "history ", u128::from(member))?;
    put_counted(out, " ", u128::from(shard))?;
    put_counted(out, " ", u128::from(deeds))?;
    put_text(out, "\n")
}

impl Numbered for ShardRecord {
    ghost text = { history_text };

    fn put(&self, alloc: Global, out: &mut Vec<u8>, owner: u8, number: u64) -> Result<(), Memory> {
        put_history_line(out, owner, number, self.history.len())?;
        put_all(alloc, out, self.history.as_slice())
    }
}

// The histories of a member, shard after shard.
fn put_histories_of(
    alloc: Global,
    out: &mut Vec<u8>,
    member_record: &MemberRecord,
) -> Result<(), Memory>
    ensures { OnOk result (out.new.items ≡ out.old.items ++ histories_of member_record.now) }
{
    put_numbered(
        alloc,
        out,
        member_record.member,
        0,
        member_record.shards.as_slice(),
    )
}

/// Puts the histories of all members last.
pub fn put_histories(
    alloc: Global,
    out: &mut Vec<u8>,
    members: &[MemberRecord],
) -> Result<(), Memory>
    ensures { OnOk result (out.new.items ≡ out.old.items ++ flat_map histories_of members.now) }
{
    for member_record in members {
        put_histories_of(alloc, out, member_record)?;
    }
    Ok(())
}
