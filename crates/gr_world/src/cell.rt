ghost use Rattle.std.specs.Prelude.{◌≡◌, [], IfOk, OnOk, option_copied, reverse, slice_get};
ghost use Rattle.gr_shard.specs.View.{IsPlace};
ghost use Rattle.gr_history.specs.declared.deed.Deed.TheVariants as deed;
ghost use Rattle.gr_shard.specs.Calls.{served};
ghost use Rattle.gr_world.specs.Doings.{Asks, Calls, Gives, Reports};
ghost use Rattle.gr_world.specs.Named.{numbered, reports};
ghost use Rattle.gr_world.specs.Tasks.{BelongsTo, IsGiven, doing_of};
ghost use Rattle.gr_world.specs.Worlds.{deed_at, gives_at, longer};

use crate::step::StepName;
use crate::task::Task;
use gr_history::{Ask, Gift, Identity, QueryAsk, QueryReply, What};
use gr_shard::{Served, Shard};
use gr_value::Memory;
use gr_vector::Report;
use std::alloc::Global;
use std::marker::Model;

/// A member's shard, with the reports that were made there, the oldest first.
#[derive(Drop)]
pub struct Cell {
    shard: Shard,
    reported: Vec<Report>,
}

impl Model for Cell {
    ghost use Rattle.std.specs.Prelude.{◌≡◌, reverse};
    ghost use Rattle.std.specs.Coded.{codes};
    ghost use Rattle.gr_oql.specs.Question.{question_code};
    ghost use Rattle.gr_shard.specs.View.{Account};
    ghost use Rattle.gr_world.specs.Named.{reports};

    ghost Value = { Account };

    ghost coded = { Prim.hlevel (codes, question_code) };

    ghost view = { λ cell. cell.shard };

    ghost invariant = { λ cell. cell.reported.items ≡ reverse (reports (reverse cell.shard.deeds)) };
}

// The report at a place, counted from 0.
fn at(reports: &[Report], place: usize) -> Option<&Report>
    ensures { option_copied result ≡ slice_get reports.now place }
{
    reports.get(place)
}

impl Cell {
    pub fn new(alloc: Global, id: Identity, floor: u64) -> Result<Cell, Memory>
        requires { IsPlace id floor }
        ensures { IfOk result (λ cell. cell ≡ record { id = id; opening = floor; deeds = []; spare = 0 }) }
    {
        Ok(Cell {
            shard: Shard::new(alloc, id, floor)?,
            reported: Vec::new(alloc),
        })
    }

    pub fn shard(&self) -> &Shard
        ensures { result.now ≡ self.now }
    {
        &self.shard
    }

    pub fn into_shard(self) -> Shard
        ensures { result ≡ self }
    {
        self.shard
    }

    /// The report of a number, counted from 1 at the oldest.
    pub fn reported(&self, number: u32) -> Option<&Report>
        ensures { option_copied result ≡ numbered number (reports (reverse self.now.deeds)) }
    {
        if number == 0 {
            return None;
        }
        at(&self.reported, number as usize - 1)
    }

    pub fn call(&mut self, alloc: Global, step: StepName, ask: Ask) -> Result<Served, Memory>
        requires { BelongsTo self.old (Calls step.client step.seq ask) }
        ensures told { IfOk result (λ told. told ≡ served (gives_at self.old ask)) }
        ensures added { OnOk result (self.new ≡ longer self.old (deed_at self.old (Calls step.client step.seq ask))) }
    {
        self.shard.serve(alloc, step.client, step.seq, ask)
    }

    /// Does a client's step on one of its queries.
    pub fn query(
        &mut self,
        alloc: Global,
        step: StepName,
        ask: &QueryAsk,
    ) -> Result<QueryReply, Memory>
        ensures reply { IfOk result
            (λ reply. deed.Asked step.client step.seq ask.now reply ≡ deed_at self.old (Asks step.client step.seq ask.now)) }
        ensures added { IfOk result (λ reply. self.new ≡ longer self.old (deed.Asked step.client step.seq ask.now reply)) }
    {
        self.shard.query(alloc, step.client, step.seq, ask)
    }

    /// Gives a joiner the image or the own changes.
    pub fn give(&mut self, alloc: Global, to: u8, what: What) -> Result<Gift, Memory>
        requires { BelongsTo self.old (Gives to what) }
        ensures given { IfOk result (IsGiven self.old what) }
        ensures added { OnOk result (self.new ≡ longer self.old (deed_at self.old (Gives to what))) }
    {
        self.shard.give(alloc, to, what)
    }

    /// Does one thing, which adds its deed.
    pub fn does(&mut self, alloc: Global, task: Task) -> Result<(), Memory>
        requires { BelongsTo self.old (doing_of task) }
        ensures { OnOk result (self.new ≡ longer self.old (deed_at self.old (doing_of task.entry))) }
    {
        match task {
            Task::Take(change) => {
                let _ = self.shard.take_in(alloc, change)?;
                Ok(())
            }
            Task::Merge(image) => self.shard.merge(alloc, image),
            Task::Report => self.report(alloc),
            Task::Hear(report) => self.shard.hear(alloc, report),
            Task::Sweep(moment) => {
                let _ = self.shard.sweep(alloc, moment)?;
                Ok(())
            }
        }
    }

    // Makes a report, and keeps it.
    fn report(&mut self, alloc: Global) -> Result<(), Memory>
        ensures { OnOk result (self.new ≡ longer self.old (deed_at self.old Reports)) }
    {
        self.reported.reserve(1)?;
        let report = self.shard.report(alloc)?;
        let _ = self.reported.push(report);
        Ok(())
    }
}
