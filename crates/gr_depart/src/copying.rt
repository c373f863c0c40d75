ghost use Rattle.std.specs.Prelude.{◌≡◌, ◌<◌, ◌==◌, ◌||◌, ◌++◌, ◌∷◌, [], IfOk, OnOk, Some, reverse};
ghost use Rattle.gr_vector.specs.Ids.{has_id};
ghost use Rattle.gr_history.specs.Ids.{id_of, ids};
ghost use Rattle.gr_script.specs.declared.line.Line.TheVariants as line;
ghost use Rattle.gr_script.specs.Rules.{IsMember};
ghost use Rattle.gr_script.specs.Steps.{is_gone};
ghost use Rattle.gr_world.specs.Courses.{after, copies, copies_all, delivers, for_each, hands_over, takes_new, takes_new_all, unless};
ghost use Rattle.gr_world.specs.Departures.{taken_of};
ghost use Rattle.gr_world.specs.Stages.{HasSite, PlaysAt, heading_at};
ghost use Rattle.gr_world.specs.Worlds.{IsAtWork};

use gr_history::Entry;
use gr_shard::Shard;
use gr_stamp::Change;
use gr_value::{Copied, Memory, Shared};
use gr_world::{Site, Stage, Task, World, is_gone};
use std::alloc::Global;

// Whether the change's id is known at the shard.
fn is_known(shard: &Shard, change: &Change) -> bool
    ensures { result ≡ has_id (id_of change.now) (ids (reverse shard.now.deeds)) }
{
    let stamp = &change.stamp;
    shard.vector().holds(stamp.member(), stamp.rv())
}

// Puts a change of the member last, if the deed took one in.
fn add_taken(
    alloc: Global,
    taken: &mut Vec<Shared<Change>>,
    deed: &Entry,
    of: u8,
) -> Result<(), Memory>
    ensures { OnOk result (taken.new.items ≡ taken.old.items ++ taken_of of (deed.now ∷ [])) }
{
    if let Some(change) = deed.taken() {
        if change.get().stamp.member() == of {
            taken.push(change.copy(alloc)?)?;
        }
    }
    Ok(())
}

// The changes of the member that were taken in, the oldest first.
fn taken_of(alloc: Global, shard: &Shard, of: u8) -> Result<Vec<Shared<Change>>, Memory>
    ensures { IfOk result (λ taken. taken.items ≡ reverse (taken_of of (reverse shard.now.deeds))) }
{
    let mut taken = Vec::new(alloc);
    let history = shard.history();
    for deed in history.as_slice() {
        add_taken(alloc, &mut taken, deed, of)?;
    }
    Ok(taken)
}

// A member takes in a change that it doesn't know yet. What another one took in at this shard has a key of
// it; where that weren't so, this gives up as where memory is refused.
fn take_new(
    world: &mut World,
    stage: Stage,
    site: Site,
    change: &Shared<Change>,
) -> Result<(), Memory>
    requires { HasSite (heading_at stage) world.old site }
    ensures { IfOk result
        (λ _. PlaysAt stage.entry (λ heading. takes_new heading site.member site.shard change.now) world.old world.new) }
{
    if is_known(world.view(stage, site), change.get()) {
        return Ok(());
    }
    if change.get().key.shard(stage.script.shards) != site.shard {
        return Err(Memory);
    }
    Ok(world.does(stage, site, Task::Take(change))?)
}

// It takes in each of these that it doesn't know, in their order.
fn take_new_all(
    world: &mut World,
    stage: Stage,
    site: Site,
    changes: &[Shared<Change>],
) -> Result<(), Memory>
    requires { HasSite (heading_at stage) world.old site }
    ensures { IfOk result
        (λ _. PlaysAt stage.entry (λ heading. takes_new_all heading site.member site.shard changes.now) world.old world.new) }
{
    for change in changes {
        take_new(world, stage, site, change)?;
    }
    Ok(())
}

// A member takes in the departed member's changes that another one took in.
fn copy_from(world: &mut World, stage: Stage, site: Site, of: u8, giver: u8) -> Result<(), Memory>
    requires site { HasSite (heading_at stage) world.old site }
    requires giver { IsMember (heading_at stage) giver }
    ensures { IfOk result
        (λ _. PlaysAt stage.entry (λ heading. copies heading of site.shard site.member giver) world.old world.new) }
{
    let from = Site {
        member: giver,
        ..site
    };
    let taken = taken_of(stage.alloc, world.view(stage, from), of)?;
    Ok(take_new_all(world, stage, site, &taken)?)
}

// It does so, if the other one is another member, and stays.
fn copy_if_staying(
    world: &mut World,
    stage: Stage,
    gone: &[u8],
    site: Site,
    of: u8,
    giver: u8,
) -> Result<(), Memory>
    requires site { HasSite (heading_at stage) world.old site }
    requires giver { IsMember (heading_at stage) giver }
    ensures { IfOk result
        (λ _. PlaysAt stage.entry
        (λ heading. unless (giver == site.member || is_gone gone.now giver) (copies heading of site.shard site.member giver))
        world.old world.new) }
{
    let silent = giver == site.member || is_gone(gone, giver);
    if !silent {
        copy_from(world, stage, site, of, giver)?;
    }
    Ok(())
}

// It takes in those of each other member that stays.
fn copy_all(world: &mut World, stage: Stage, gone: &[u8], site: Site, of: u8) -> Result<(), Memory>
    requires { HasSite (heading_at stage) world.old site }
    ensures { IfOk result
        (λ _. PlaysAt stage.entry (λ heading. copies_all heading gone.now of site.shard site.member) world.old world.new) }
{
    for below in 0..stage.script.members {
        copy_if_staying(world, stage, gone, site, of, below + 1)?;
    }
    Ok(())
}

// A member does so, if it stays.
fn take_if_staying(
    world: &mut World,
    stage: Stage,
    gone: &[u8],
    site: Site,
    of: u8,
) -> Result<(), Memory>
    requires { HasSite (heading_at stage) world.old site }
    ensures { IfOk result
        (λ _. PlaysAt stage.entry
        (λ heading. unless (is_gone gone.now site.member) (copies_all heading gone.now of site.shard site.member))
        world.old world.new) }
{
    if !is_gone(gone, site.member) {
        copy_all(world, stage, gone, site, of)?;
    }
    Ok(())
}

// Each member that stays does so at one shard.
fn hand_over(world: &mut World, stage: Stage, gone: &[u8], shard: u8, of: u8) -> Result<(), Memory>
    requires work { IsAtWork (heading_at stage) world.old }
    requires shard { shard < stage.script.now.shards }
    ensures { IfOk result (λ _. PlaysAt stage.entry (λ heading. hands_over heading gone.now of shard) world.old world.new) }
{
    for below in 0..stage.script.members {
        let member = below + 1;
        take_if_staying(world, stage, gone, Site { member, shard }, of)?;
    }
    Ok(())
}

/// What all members that stay took in of a member that departed, at each shard, all of them take in. The
/// member is the first of those that departed.
pub fn depart(world: &mut World, stage: Stage, gone: &[u8], of: u8) -> Result<(), Memory>
    requires { IsAtWork (heading_at stage) world.old }
    ensures { IfOk result
        (λ _. PlaysAt stage.entry (λ heading. for_each heading.shards (hands_over heading gone.now of)) world.old world.new) }
{
    for shard in 0..stage.script.shards {
        hand_over(world, stage, gone, shard, of)?;
    }
    Ok(())
}

// A member takes in a change, but no new one of a member that departed.
fn take(
    world: &mut World,
    stage: Stage,
    gone: &[u8],
    to: u8,
    change: &Shared<Change>,
) -> Result<(), Memory>
    requires work { IsAtWork (heading_at stage) world.old }
    requires member { IsMember (heading_at stage) to }
    ensures { IfOk result
        (λ _. PlaysAt stage.entry (λ heading. delivers heading gone.now to (Some change.now)) world.old world.new) }
{
    let Change { key, stamp, .. } = change.get();
    let shard = key.shard(stage.script.shards);
    let site = Site { member: to, shard };
    let departed = is_gone(gone, stamp.member());
    let refused = departed && !is_known(world.view(stage, site), change.get());
    if !refused {
        world.does(stage, site, Task::Take(change))?;
    }
    Ok(())
}

/// A member takes in what a step made, if it made anything, but nothing new of a member that departed.
pub fn deliver(
    world: &mut World,
    stage: Stage,
    gone: &[u8],
    to: u8,
    client: u8,
    seq: u32,
) -> Result<(), Memory>
    requires work { IsAtWork (heading_at stage) world.old }
    requires member { IsMember (heading_at stage) to }
    requires many { 1 < stage.script.now.members }
    ensures { IfOk result
        (λ _. PlaysAt stage.entry (λ heading. after heading gone.now (line.Deliver to client seq)) world.old world.new) }
{
    if let Some(change) = world.change_of(stage, client, seq)? {
        take(world, stage, gone, to, &change)?;
    }
    Ok(())
}
