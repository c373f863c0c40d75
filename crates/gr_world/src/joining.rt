ghost use Rattle.std.specs.Prelude.{◌≡◌, ◌==◌, ◌||◌, IfOk};
ghost use Rattle.std.specs.List.{AllByRecursion};
ghost use Rattle.gr_value.specs.Shard.{shard_of};
ghost use Rattle.gr_script.specs.declared.line.Line.TheVariants as line;
ghost use Rattle.gr_script.specs.Rules.{IsMember};
ghost use Rattle.gr_script.specs.Steps.{is_gone};
ghost use Rattle.gr_shard.specs.Merges.{IsGiftFor};
ghost use Rattle.gr_world.specs.Courses.{after, gives, gives_unless, identity_at, joins_at, takes_all, takes_gift, what_from};
ghost use Rattle.gr_world.specs.Stages.{HasSite, PlaysAt, heading_at};
ghost use Rattle.gr_world.specs.Worlds.{IsAtWork};

use crate::gone::is_gone;
use crate::site::Site;
use crate::stage::Stage;
use crate::task::Task;
use crate::world::World;
use gr_history::{Gift, What};
use gr_stamp::Change;
use gr_value::{Memory, Shared};

// The provider gives its image, and every other member what it made.
fn what_from(is_provider: bool) -> What
    ensures { result ≡ what_from is_provider }
{
    if is_provider { What::Image } else { What::Own }
}

impl World {
    // A member takes in changes of one shard, in their order.
    fn take_all(
        &mut self,
        stage: Stage,
        site: Site,
        changes: &[Shared<Change>],
    ) -> Result<(), Memory>
        requires site { HasSite (heading_at stage) self.old site }
        requires here { AllByRecursion (λ change. shard_of change.key stage.script.now.shards ≡ site.shard) changes.now }
        ensures { IfOk result
            (λ _. PlaysAt stage.entry (λ heading. takes_all heading site.member site.shard changes.now) self.old self.new) }
    {
        for change in changes {
            self.does(stage, site, Task::Take(change))?;
        }
        Ok(())
    }

    // A joiner takes in what it was given of a shard.
    fn take_gift(&mut self, stage: Stage, site: Site, gift: &Gift) -> Result<(), Memory>
        requires site { HasSite (heading_at stage) self.old site }
        requires fits { IsGiftFor (identity_at (heading_at stage) site.member site.shard) gift.now }
        ensures { IfOk result (λ _. PlaysAt stage.entry (λ heading. takes_gift heading site.member site.shard gift.now) self.old self.new) }
    {
        match gift {
            Gift::Image(image) => Ok(self.does(stage, site, Task::Merge(image))?),
            Gift::Own(changes) => Ok(self.take_all(stage, site, changes.as_slice())?),
        }
    }

    /// A member gives the joiner an image of a shard, or its own changes, and the joiner takes it in at once.
    pub fn hand_over(
        &mut self,
        stage: Stage,
        site: Site,
        giver: u8,
        what: What,
    ) -> Result<(), Memory>
        requires site { HasSite (heading_at stage) self.old site }
        requires giver { IsMember (heading_at stage) giver }
        ensures { IfOk result (λ _. PlaysAt stage.entry (λ heading. gives heading site.member site.shard giver what) self.old self.new) }
    {
        let from = Site {
            member: giver,
            ..site
        };
        let gift = self
            .grid
            .cell_mut(from)
            .give(stage.alloc, site.member, what)?;
        Ok(self.take_gift(stage, site, &gift)?)
    }

    // A member that isn't the joiner, and hasn't departed, gives to it.
    fn join_from(
        &mut self,
        stage: Stage,
        gone: &[u8],
        site: Site,
        giver: u8,
        provider: u8,
    ) -> Result<(), Memory>
        requires site { HasSite (heading_at stage) self.old site }
        requires giver { IsMember (heading_at stage) giver }
        ensures { IfOk result
            (λ _. PlaysAt stage.entry
            (λ heading. gives_unless (is_gone gone.now giver || giver == site.member) heading site.member site.shard giver
            (what_from (giver == provider))) self.old self.new) }
    {
        let silent = is_gone(gone, giver) || giver == site.member;
        if !silent {
            self.hand_over(stage, site, giver, what_from(giver == provider))?;
        }
        Ok(())
    }

    // The gifts of all members that haven't departed, at one shard.
    fn join_at(&mut self, stage: Stage, gone: &[u8], site: Site, provider: u8) -> Result<(), Memory>
        requires { HasSite (heading_at stage) self.old site }
        ensures { IfOk result
            (λ _. PlaysAt stage.entry (λ heading. joins_at heading gone.now site.member provider site.shard) self.old self.new) }
    {
        for below in 0..stage.script.members {
            self.join_from(stage, gone, site, below + 1, provider)?;
        }
        Ok(())
    }

    /// A member joins: of each shard the provider gives it an image, and the other members that haven't
    /// departed what they made.
    pub fn join(
        &mut self,
        stage: Stage,
        gone: &[u8],
        member: u8,
        provider: u8,
    ) -> Result<(), Memory>
        requires work { IsAtWork (heading_at stage) self.old }
        requires member { IsMember (heading_at stage) member }
        ensures { IfOk result
            (λ _. PlaysAt stage.entry (λ heading. after heading gone.now (line.Join member provider)) self.old self.new) }
    {
        for shard in 0..stage.script.shards {
            self.join_at(stage, gone, Site { member, shard }, provider)?;
        }
        Ok(())
    }
}
