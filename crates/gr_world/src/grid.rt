ghost use Rattle.std.specs.Prelude.{◌≡◌, ◌≤◌, IfOk, length};
ghost use Rattle.std.specs.Borrow.{Lends, sem};
ghost use Rattle.gr_shard.specs.View.{IsPlace};
ghost use Rattle.gr_world.specs.Numbered.{numbers_from, PairsFrom};
ghost use Rattle.gr_world.specs.Worlds.{IsCell, IsMemberOf, account_at, new_row, with_account};
ghost use Rattle.gr_world.specs.contracts.cell.Cell.{the_row as cell_row};
ghost use Rattle.gr_world.specs.contracts.grid.Grid.{the_row};

use crate::cell::Cell;
use crate::row::Row;
use crate::site::Site;
use gr_history::{Identity, MemberRecordList};
use gr_value::Memory;
use std::alloc::Global;
use std::marker::Model;

/// All members' shards.
#[derive(Drop)]
pub struct Grid {
    rows: Vec<Row>,
}

impl Model for Grid {
    ghost use Rattle.std.specs.Prelude.{List};
    ghost use Rattle.std.specs.Coded.{codes};
    ghost use Rattle.gr_oql.specs.Question.{question_code};
    ghost use Rattle.gr_shard.specs.View.{Account};

    ghost Value = { List (List Account) };

    ghost coded = { Prim.hlevel (codes, question_code) };

    ghost view = { λ grid. grid.rows.items };
}

impl Grid {
    /// Shards with no deeds. The identity is that of the first one of the first member.
    pub fn new(alloc: Global, id: Identity, floor: u64) -> Result<Grid, Memory>
        requires { IsPlace id floor }
        ensures { IfOk result (λ grid. grid ≡ numbers_from 1 id.members (new_row id floor)) }
    {
        let mut rows = Vec::new(alloc);
        for below in 0..id.members {
            let member = below + 1;
            rows.push(Row::new(alloc, Identity { member, ..id }, floor)?)?;
        }
        Ok(Grid { rows })
    }

    /// A member's shard.
    pub fn cell(&self, site: Site) -> &Cell
        requires { IsCell self.now site.member site.shard }
        ensures { result.now ≡ account_at self.now site.member site.shard }
    {
        self.rows[usize::from(site.member) - 1].cell(site.shard)
    }

    /// Lends a member's shard to be changed, and the others stay as they are.
    pub fn cell_mut(&mut self, site: Site) -> &mut Cell
        requires { IsCell self.old site.member site.shard }
        ensures* writes_back { sem 𝓛 (Lends the_row cell_row self.entry result (with_account self.old site.member site.shard)) }
        ensures shows { result.now ≡ account_at self.old site.member site.shard }
    {
        let row = &mut self.rows[usize::from(site.member) - 1];
        row.cell_mut(site.shard)
    }

    /// What all members leave.
    pub fn into_records(self, alloc: Global) -> Result<MemberRecordList, Memory>
        requires { length self ≤ 8 }
        ensures { IfOk result (PairsFrom IsMemberOf 1 self) }
    {
        let mut members = MemberRecordList::new(alloc)?;
        let mut member = 0u8;
        for row in self.rows {
            member += 1;
            members.push(row.into_record(alloc, member)?)?;
        }
        Ok(members)
    }
}
