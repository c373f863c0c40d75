ghost use Rattle.std.specs.Prelude.{◌≡◌, IfOk, OnOk, []};
ghost use Rattle.std.specs.List.{AllByRecursion, cons_option};
ghost use Rattle.gr_script.specs.Scripts.{heading_of};
ghost use Rattle.gr_script.specs.Steps.{departs};
ghost use Rattle.gr_depart.specs.Lines.{CanDo, after_all, gone_after};
ghost use Rattle.gr_durable.specs.Expanding.{lines_in};
ghost use Rattle.gr_world.specs.Courses.{after};
ghost use Rattle.gr_world.specs.Stages.{PlaysAt, heading_at};
ghost use Rattle.gr_world.specs.Worlds.{IsAtWork, IsWorld};

use crate::closing::sweep;
use crate::copying::{deliver, depart};
use gr_durable::Turn;
use gr_script::{Line, LineList, Script};
use gr_value::{Copied, Memory};
use gr_world::{Stage, World};
use std::alloc::Global;

/// The world, and the members that departed, the last one first.
#[derive(Drop)]
pub struct Departing {
    pub world: World,
    pub gone: Vec<u8>,
}

impl Departing {
    /// Before the first line.
    pub fn new(alloc: Global, script: &Script) -> Result<Departing, Memory>
        ensures world { IfOk result (λ departing. IsWorld (heading_of script.now) [] departing.world) }
        ensures gone { IfOk result (λ departing. departing.gone.items ≡ []) }
    {
        Ok(Departing {
            world: World::new(alloc, script)?,
            gone: Vec::new(alloc),
        })
    }

    /// Does what a line names.
    #[inline(always)]
    pub fn play(&mut self, stage: Stage, line: Line) -> Result<(), Memory>
        requires work { IsAtWork (heading_at stage) self.old.world }
        requires stated { CanDo (heading_at stage) line }
        ensures done { IfOk result
            (λ _. PlaysAt stage.entry (λ heading. after heading self.old.gone.items line) self.old.world self.new.world) }
        ensures gone { OnOk result (self.new.gone.items ≡ cons_option (departs line) self.old.gone.items) }
    {
        let world = &mut self.world;
        match line {
            Line::Step { client, seq, act } => Ok(world.play(
                stage,
                Line::Step { client, seq, act },
            )?),
            Line::Deliver { to, client, seq } => {
                Ok(deliver(world, stage, &self.gone, to, client, seq)?)
            }
            Line::Report { member } => Ok(world.play(stage, Line::Report { member })?),
            Line::Hear { by, of, number } => Ok(world.play(stage, Line::Hear { by, of, number })?),
            Line::Sweep { member, moment } => Ok(sweep(world, stage, &self.gone, member, moment)?),
            Line::Join { member, from } => Ok(world.join(stage, &self.gone, member, from)?),
            Line::Depart { member } => {
                self.gone.insert(0, member)?;
                Ok(depart(world, stage, &self.gone, member)?)
            }
            Line::Leave { .. } | Line::Back { .. } => Ok(()),
        }
    }

    // Does what these lines name, in their order.
    fn play_all(&mut self, stage: Stage, lines: LineList) -> Result<(), Memory>
        requires work { IsAtWork (heading_at stage) self.old.world }
        requires stated { AllByRecursion (CanDo (heading_at stage)) lines }
        ensures done { IfOk result
            (λ _. PlaysAt stage.entry (λ heading. after_all heading self.old.gone.items lines) self.old.world self.new.world) }
        ensures gone { OnOk result (self.new.gone.items ≡ gone_after lines self.old.gone.items) }
    {
        for line in lines.into_vec() {
            self.play(stage, line)?;
        }
        Ok(())
    }

    /// Does what is played in place of a line.
    #[inline(always)]
    pub fn turn(&mut self, stage: Stage, turn: Turn) -> Result<(), Memory>
        requires work { IsAtWork (heading_at stage) self.old.world }
        requires stated { AllByRecursion (CanDo (heading_at stage)) (lines_in turn) }
        ensures done { IfOk result
            (λ _. PlaysAt stage.entry (λ heading. after_all heading self.old.gone.items (lines_in turn)) self.old.world self.new.world) }
        ensures gone { OnOk result (self.new.gone.items ≡ gone_after (lines_in turn) self.old.gone.items) }
    {
        match turn {
            Turn::Line(line) => Ok(self.play(stage, line)?),
            Turn::Lines(lines) => Ok(self.play_all(stage, lines)?),
        }
    }
}
