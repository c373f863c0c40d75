ghost use Rattle.std.specs.Prelude.{IfOk};
ghost use Rattle.gr_script.specs.Rules.{IsStated};
ghost use Rattle.gr_world.specs.Courses.{asks};
ghost use Rattle.gr_world.specs.Stages.{PlaysAt, heading_at};
ghost use Rattle.gr_world.specs.Worlds.{IsAtWork};

use crate::site::Site;
use crate::stage::Stage;
use crate::step::StepName;
use crate::world::{World, home};
use gr_history::{Answer, QueryAsk, QueryReplyList};
use gr_value::Memory;

impl World {
    /// A client's step on one of its queries is done at each shard of its member, and the client is told all
    /// replies.
    pub(crate) fn query(
        &mut self,
        stage: Stage,
        step: StepName,
        ask: &QueryAsk,
    ) -> Result<(), Memory>
        requires work { IsAtWork (heading_at stage) self.old }
        requires stated { IsStated step.client (heading_at stage) }
        ensures { IfOk result (λ _. PlaysAt stage.entry (λ heading. asks heading step.client step.seq ask.now) self.old self.new) }
    {
        let member = home(stage.script, step.client);
        let mut replies = QueryReplyList::new(stage.alloc)?;
        for shard in 0..stage.script.shards {
            let site = Site { member, shard };
            let reply = self.grid.cell_mut(site).query(stage.alloc, step, ask)?;
            replies.push(reply)?;
        }
        Ok(self.tellings.tell(step.client, Answer::Asked(replies))?)
    }
}
