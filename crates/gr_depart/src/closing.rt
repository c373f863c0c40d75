ghost use Rattle.std.specs.Prelude.{◌≡◌, IfOk, not, reverse};
ghost use Rattle.gr_script.specs.declared.line.Line.TheVariants as line;
ghost use Rattle.gr_script.specs.Rules.{IsMember};
ghost use Rattle.gr_script.specs.Steps.{is_gone};
ghost use Rattle.gr_world.specs.Courses.{after, closes, closes_all, sweeps_at, unless};
ghost use Rattle.gr_world.specs.Departures.{closing_report};
ghost use Rattle.gr_world.specs.Stages.{HasSite, PlaysAt, heading_at};
ghost use Rattle.gr_world.specs.Worlds.{IsAtWork};

use gr_shard::Shard;
use gr_value::{Memory, Shared};
use gr_vector::Report;
use gr_world::{Site, Stage, Task, World, is_gone};
use std::alloc::Global;

/// Where the places of closing reports begin, behind those of all others.
const BEHIND_ALL: u64 = 1152921504606846976;

// The closing report of a member that departed, for a shard that hears it now.
fn closing_report(alloc: Global, shard: &Shard, of: u8) -> Result<Report, Memory>
    ensures { IfOk result (λ report. report ≡ closing_report of (reverse shard.now.deeds)) }
{
    let vector = shard.vector().copy(alloc)?;
    Ok(Report {
        member: of,
        at: BEHIND_ALL + shard.history().as_slice().len() as u64,
        own: 0,
        to: 0,
        vector: Shared::new(alloc, vector)?,
    })
}

// A member hears the closing report of one that departed.
fn close(world: &mut World, stage: Stage, site: Site, of: u8) -> Result<(), Memory>
    requires { HasSite (heading_at stage) world.old site }
    ensures { IfOk result (λ _. PlaysAt stage.entry (λ heading. closes heading site.member site.shard of) world.old world.new) }
{
    let report = closing_report(stage.alloc, world.view(stage, site), of)?;
    Ok(world.does(stage, site, Task::Hear(&report))?)
}

// It hears that of another member, if that one departed.
fn close_if_gone(
    world: &mut World,
    stage: Stage,
    gone: &[u8],
    site: Site,
    of: u8,
) -> Result<(), Memory>
    requires { HasSite (heading_at stage) world.old site }
    ensures { IfOk result
        (λ _. PlaysAt stage.entry
        (λ heading. unless (not (is_gone gone.now of)) (closes heading site.member site.shard of)) world.old world.new) }
{
    if is_gone(gone, of) {
        close(world, stage, site, of)?;
    }
    Ok(())
}

// It hears that of each that departed.
fn close_all(world: &mut World, stage: Stage, gone: &[u8], site: Site) -> Result<(), Memory>
    requires { HasSite (heading_at stage) world.old site }
    ensures { IfOk result
        (λ _. PlaysAt stage.entry (λ heading. closes_all heading gone.now site.member site.shard) world.old world.new) }
{
    for below in 0..stage.script.members {
        close_if_gone(world, stage, gone, site, below + 1)?;
    }
    Ok(())
}

// A sweep goes through behind these.
fn sweep_at(
    world: &mut World,
    stage: Stage,
    gone: &[u8],
    site: Site,
    moment: u64,
) -> Result<(), Memory>
    requires { HasSite (heading_at stage) world.old site }
    ensures { IfOk result
        (λ _. PlaysAt stage.entry (λ heading. sweeps_at heading gone.now site.member moment site.shard) world.old world.new) }
{
    close_all(world, stage, gone, site)?;
    Ok(world.does(stage, site, Task::Sweep(moment))?)
}

/// A member sweeps each of its shards, once it has heard the closing reports.
pub fn sweep(
    world: &mut World,
    stage: Stage,
    gone: &[u8],
    member: u8,
    moment: u64,
) -> Result<(), Memory>
    requires work { IsAtWork (heading_at stage) world.old }
    requires member { IsMember (heading_at stage) member }
    ensures { IfOk result
        (λ _. PlaysAt stage.entry (λ heading. after heading gone.now (line.Sweep member moment)) world.old world.new) }
{
    for shard in 0..stage.script.shards {
        sweep_at(world, stage, gone, Site { member, shard }, moment)?;
    }
    Ok(())
}
