ghost use Rattle.std.specs.Prelude.{◌≡◌, ◌<◌, IfOk, length, set};
ghost use Rattle.std.specs.Borrow.{Lends, sem};
ghost use Rattle.gr_shard.specs.Records.{IsRecordOf};
ghost use Rattle.gr_shard.specs.View.{IsPlace};
ghost use Rattle.gr_world.specs.Numbered.{PairsFrom};
ghost use Rattle.gr_world.specs.Worlds.{account_in, new_row};
ghost use Rattle.gr_world.specs.contracts.cell.Cell.{the_row as cell_row};
ghost use Rattle.gr_world.specs.contracts.row.Row.{the_row};

use crate::cell::Cell;
use gr_history::{Identity, MemberRecord, ShardRecordList};
use gr_value::Memory;
use std::alloc::Global;
use std::marker::Model;

/// A member's shards.
#[derive(Drop)]
pub struct Row {
    cells: Vec<Cell>,
}

impl Model for Row {
    ghost use Rattle.std.specs.Prelude.{List};
    ghost use Rattle.std.specs.Coded.{codes};
    ghost use Rattle.gr_oql.specs.Question.{question_code};
    ghost use Rattle.gr_shard.specs.View.{Account};

    ghost Value = { List Account };

    ghost coded = { Prim.hlevel (codes, question_code) };

    ghost view = { λ row. row.cells.items };
}

impl Row {
    /// Shards with no deeds. The identity is that of the first.
    pub fn new(alloc: Global, id: Identity, floor: u64) -> Result<Row, Memory>
        requires { IsPlace id floor }
        ensures { IfOk result (λ row. row ≡ new_row id floor id.member) }
    {
        let mut cells = Vec::new(alloc);
        for shard in 0..id.shards {
            cells.push(Cell::new(alloc, Identity { shard, ..id }, floor)?)?;
        }
        Ok(Row { cells })
    }

    pub fn cell(&self, shard: u8) -> &Cell
        requires { shard < length self.now }
        ensures { result.now ≡ account_in self.now shard }
    {
        &self.cells[usize::from(shard)]
    }

    /// Lends a shard to be changed, and the others stay as they are.
    pub fn cell_mut(&mut self, shard: u8) -> &mut Cell
        requires { shard < length self.old }
        ensures* writes_back { sem 𝓛 (Lends the_row cell_row self.entry result (set self.old shard)) }
        ensures shows { result.now ≡ account_in self.old shard }
    {
        &mut self.cells[usize::from(shard)]
    }

    /// What the member leaves.
    pub fn into_record(self, alloc: Global, member: u8) -> Result<MemberRecord, Memory>
        ensures member { IfOk result (λ left. left.member ≡ member) }
        ensures shards { IfOk result (λ left. PairsFrom (λ _. IsRecordOf) 0 self left.shards) }
    {
        let mut shards = ShardRecordList::new(alloc)?;
        for cell in self.cells {
            shards.push(cell.into_shard().into_record(alloc)?)?;
        }
        Ok(MemberRecord { member, shards })
    }
}
