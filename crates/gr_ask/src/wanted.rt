ghost use Rattle.std.specs.Prelude.{◌≡◌, IfOk};
ghost use Rattle.gr_ask.specs.Wants.{IsWantedText, shards_at};

use crate::row_texts::rows_text;
use crate::telling::openings_text;
use gr_history::{MemberRecord, Record, ShardRecord};
use gr_index::ask;
use gr_oql::Query;
use gr_value::Memory;
use std::alloc::Global;

/// What is wanted of a member.
#[derive(Drop)]
pub enum Wanted {
    /// The rows that a query finds in its last region.
    Rows(Query),
    /// The events of all queries that were opened there.
    Events,
}

// What is left of the shards of a member.
fn shards_at(members: &[MemberRecord], member: u8) -> &[ShardRecord]
    ensures { result.now ≡ shards_at member members.now }
{
    for one in members {
        if one.member == member {
            return one.shards.as_slice();
        }
    }
    &[]
}

/// The text of what is wanted of a member.
pub fn wanted_text(
    alloc: Global,
    member: u8,
    wanted: &Wanted,
    record_of: &Record,
) -> Result<Vec<u8>, Memory>
    ensures { IfOk result (λ text. IsWantedText member wanted.now record_of.now text.items) }
{
    let shards = shards_at(record_of.members.as_slice(), member);
    match wanted {
        Wanted::Rows(query) => {
            let rows = ask(alloc, query, shards)?;
            rows_text(alloc, rows.as_slice())
        }
        Wanted::Events => openings_text(alloc, member, shards, record_of.clients.as_slice()),
    }
}
