ghost use Rattle.std.specs.Prelude.{◌≡◌, ◌≤◌, ◌<◌, ℕ, List, [], length, reverse, IfOk, Some, None, if◌then◌else◌, option_and_then, slice_get};
ghost use Rattle.gr_script.specs.declared.line.Act.TheVariants as act;
ghost use Rattle.gr_script.specs.declared.line.Line.TheVariants as line;
ghost use Rattle.gr_script.specs.Rules.{IsMember, IsStated, home_of};
ghost use Rattle.gr_script.specs.Scripts.{heading_of};
ghost use Rattle.gr_history.specs.declared.record.Answer.TheVariants as answer;
ghost use Rattle.gr_history.specs.Standing.{present};
ghost use Rattle.gr_world.specs.Courses.{after, does, for_each};
ghost use Rattle.gr_world.specs.Tasks.{BelongsTo, doing_of};
ghost use Rattle.gr_shard.specs.View.{Account};
ghost use Rattle.gr_world.specs.Events.{Event};
ghost use Rattle.gr_world.specs.Named.{made_by};
ghost use Rattle.gr_world.specs.Records.{IsLeft};
ghost use Rattle.gr_world.specs.Noted.{Notes};
ghost use Rattle.gr_world.specs.Stages.{HasSite, PlaysAt, heading_at};
ghost use Rattle.gr_world.specs.Worlds.{CanPlay, IsAtWork, IsWorld, account_left};
ghost use Rattle.gr_history.specs.Made.{made_in};

use crate::grid::Grid;
use crate::made::Made;
use crate::place::DeedPlace;
use crate::site::Site;
use crate::stage::Stage;
use crate::step::StepName;
use crate::task::Task;
use crate::tellings::Tellings;
use gr_history::{Answer, Ask, History, Identity, Record};
use gr_script::{Act, Line, Script};
use gr_shard::Shard;
use gr_stamp::Change;
use gr_value::{Copied, Key, Memory, Shared};
use std::alloc::Global;

/// All members' shards, what each client was told, and where what each step made stands. What is done to
/// it is told by the courses that leave it.
#[derive(Drop)]
pub struct World {
    pub grid: Grid,
    pub tellings: Tellings,
    pub made: Made,
}

// Notes where what a step made stands, if it made anything that may be delivered to others.
fn note(
    noted: &mut Made,
    members: u8,
    step: StepName,
    place: DeedPlace,
    made: bool,
) -> Result<(), Memory>
    requires { 1 ≤ place.site.member }
    ensures { IfOk result (λ _. 1 < members → Notes step.client step.seq (if made then Some place else None) noted.old noted.new) }
{
    if made && members > 1 {
        noted.note(step, place)?;
    }
    Ok(())
}

// What the deed at a place made.
fn made_at(alloc: Global, history: &History, at: u64) -> Result<Option<Shared<Change>>, Memory>
    ensures { IfOk result (λ made. made ≡ option_and_then made_in (slice_get history.now.deeds at)) }
{
    let Some(deed) = history.get(at) else {
        return Ok(None);
    };
    match deed.made() {
        Some(change) => Ok(Some(change.copy(alloc)?)),
        None => Ok(None),
    }
}

/// The member that a client is at.
pub(crate) fn home(script: &Script, client: u8) -> u8
    requires { IsStated client (heading_of script.now) }
    ensures home { result ≡ home_of (heading_of script.now) client }
    ensures member { IsMember (heading_of script.now) result }
{
    script.clients.as_slice()[usize::from(client) - 1]
}

// What a peek at the key is answered.
fn seen(alloc: Global, shard: &Shard, key: &Key) -> Result<Answer, Memory>
    ensures { IfOk result (λ seen. seen ≡ answer.Peeked (present key.now (reverse shard.now.deeds)) (length shard.now.deeds)) }
{
    let at = shard.history().len();
    let value = match shard.present(key) {
        None => None,
        Some(value) => Some(value.copy(alloc)?),
    };
    Ok(Answer::Peeked { value, at })
}

impl World {
    /// The world before the first line.
    pub fn new(alloc: Global, script: &Script) -> Result<World, Memory>
        ensures { IfOk result (IsWorld (heading_of script.now) []) }
    {
        let id = Identity {
            member: 1,
            members: script.members,
            founders: script.founders,
            shard: 0,
            shards: script.shards,
        };
        Ok(World {
            grid: Grid::new(alloc, id, script.floor)?,
            tellings: Tellings::new(alloc, script.clients.len())?,
            made: Made::new(alloc),
        })
    }

    /// A member's shard.
    pub fn view(&self, stage: Stage, site: Site) -> &Shard
        requires { HasSite (heading_at stage) self.now site }
        ensures { (events : List Event) → IsWorld (heading_at stage.entry) events self.now
            → result.now ≡ account_left (heading_at stage.entry) events site.member site.shard }
    {
        self.grid.cell(site).shard()
    }

    /// Does one thing at a member's shard, and nothing else.
    pub fn does(&mut self, stage: Stage, site: Site, task: Task) -> Result<(), Memory>
        requires site { HasSite (heading_at stage) self.old site }
        requires here { BelongsTo (account_left (heading_at stage) [] site.member site.shard) (doing_of task) }
        ensures { IfOk result
            (λ _. PlaysAt stage.entry (λ heading. does heading site.member site.shard (doing_of task.entry)) self.old self.new) }
    {
        let cell = self.grid.cell_mut(site);
        Ok(cell.does(stage.alloc, task)?)
    }

    fn call(&mut self, stage: Stage, step: StepName, ask: Ask) -> Result<(), Memory>
        requires work { IsAtWork (heading_at stage) self.old }
        requires stated { IsStated step.client (heading_at stage) }
        ensures { IfOk result
            (λ _. PlaysAt stage.entry (λ heading. after heading [] (line.Step step.client step.seq (act.Call ask))) self.old self.new) }
    {
        let member = home(stage.script, step.client);
        let shard = ask.key().shard(stage.script.shards);
        let site = Site { member, shard };
        let at = self.grid.cell(site).shard().history().len();
        let told = self.grid.cell_mut(site).call(stage.alloc, step, ask)?;
        let place = DeedPlace { site, at };
        note(&mut self.made, stage.script.members, step, place, told.made)?;
        Ok(self.tellings.tell(step.client, Answer::Reply(told.reply))?)
    }

    fn peek(&mut self, stage: Stage, client: u8, key: &Key) -> Result<(), Memory>
        requires work { IsAtWork (heading_at stage) self.old }
        requires stated { IsStated client (heading_at stage) }
        ensures { IfOk result
            (λ _. (seq : ℕ)
            → PlaysAt stage.entry (λ heading. after heading [] (line.Step client seq (act.Peek key.now))) self.old self.new) }
    {
        let member = home(stage.script, client);
        let shard = key.shard(stage.script.shards);
        let site = Site { member, shard };
        let answer = seen(stage.alloc, self.grid.cell(site).shard(), key)?;
        Ok(self.tellings.tell(client, answer)?)
    }

    fn step(&mut self, stage: Stage, step: StepName, act: Act) -> Result<(), Memory>
        requires work { IsAtWork (heading_at stage) self.old }
        requires stated { IsStated step.client (heading_at stage) }
        ensures { IfOk result (λ _. PlaysAt stage.entry (λ heading. after heading [] (line.Step step.client step.seq act)) self.old self.new) }
    {
        match act {
            Act::Call(ask) => Ok(self.call(stage, step, ask)?),
            Act::Query(ask) => Ok(self.query(stage, step, &ask)?),
            Act::Peek(key) => Ok(self.peek(stage, step.client, &key)?),
        }
    }

    /// What a step made, if it made anything.
    pub fn change_of(
        &self,
        stage: Stage,
        client: u8,
        seq: u32,
    ) -> Result<Option<Shared<Change>>, Memory>
        requires work { IsAtWork (heading_at stage) self.now }
        requires many { 1 < stage.script.now.members }
        ensures { IfOk result (λ made. (events : List Event)
            → IsWorld (heading_at stage.entry) events self.now → made ≡ made_by client seq events) }
    {
        let Some(place) = self.made.find(client, seq) else {
            return Ok(None);
        };
        let shard = self.grid.cell(place.site).shard();
        Ok(made_at(stage.alloc, shard.history(), place.at)?)
    }

    fn deliver(&mut self, stage: Stage, to: u8, client: u8, seq: u32) -> Result<(), Memory>
        requires work { IsAtWork (heading_at stage) self.old }
        requires member { IsMember (heading_at stage) to }
        requires many { 1 < stage.script.now.members }
        ensures { IfOk result (λ _. PlaysAt stage.entry (λ heading. after heading [] (line.Deliver to client seq)) self.old self.new) }
    {
        if let Some(change) = self.change_of(stage, client, seq)? {
            let shard = change.get().key.shard(stage.script.shards);
            let site = Site { member: to, shard };
            self.does(stage, site, Task::Take(&change))?;
        }
        Ok(())
    }

    // Does one thing at each of a member's shards.
    fn at_each_shard(&mut self, stage: Stage, member: u8, task: Task) -> Result<(), Memory>
        requires work { IsAtWork (heading_at stage) self.old }
        requires member { IsMember (heading_at stage) member }
        requires any { (account : Account) → BelongsTo account (doing_of task) }
        ensures { IfOk result
            (λ _. PlaysAt stage.entry
            (λ heading. for_each heading.shards (λ shard. does heading member shard (doing_of task.entry))) self.old self.new) }
    {
        for shard in 0..stage.script.shards {
            self.does(stage, Site { member, shard }, task)?;
        }
        Ok(())
    }

    // Hears the report of a number at each shard, where there is one.
    fn hear(&mut self, stage: Stage, by: u8, of: u8, number: u32) -> Result<(), Memory>
        requires work { IsAtWork (heading_at stage) self.old }
        requires by { IsMember (heading_at stage) by }
        requires of { IsMember (heading_at stage) of }
        ensures { IfOk result (λ _. PlaysAt stage.entry (λ heading. after heading [] (line.Hear by of number)) self.old self.new) }
    {
        for shard in 0..stage.script.shards {
            if let Some(report) = self.grid.cell(Site { member: of, shard }).reported(number) {
                let report = report.copy(stage.alloc)?;
                self.does(stage, Site { member: by, shard }, Task::Hear(&report))?;
            }
        }
        Ok(())
    }

    /// Does what a line names.
    pub fn play(&mut self, stage: Stage, line: Line) -> Result<(), Memory>
        requires work { IsAtWork (heading_at stage) self.old }
        requires stated { CanPlay (heading_at stage) line }
        ensures { IfOk result (λ _. PlaysAt stage.entry (λ heading. after heading [] line) self.old self.new) }
    {
        match line {
            Line::Step { client, seq, act } => {
                Ok(self.step(stage, StepName { client, seq }, act)?)
            }
            Line::Deliver { to, client, seq } => Ok(self.deliver(stage, to, client, seq)?),
            Line::Report { member } => Ok(self.at_each_shard(stage, member, Task::Report)?),
            Line::Hear { by, of, number } => Ok(self.hear(stage, by, of, number)?),
            Line::Sweep { member, moment } => {
                Ok(self.at_each_shard(stage, member, Task::Sweep(moment))?)
            }
            Line::Join { member, from } => Ok(self.join(stage, &[], member, from)?),
            Line::Depart { .. } => unreachable!(),
            Line::Leave { .. } | Line::Back { .. } => Ok(()),
        }
    }

    /// What is left behind the last line.
    pub fn finish(self, alloc: Global, script: &Script) -> Result<Record, Memory>
        requires { IsAtWork (heading_of script.now) self }
        ensures { IfOk result
            (λ left. (events : List Event) → IsWorld (heading_of script.now) events self
            → IsLeft (heading_of script.now) events left) }
    {
        let World { grid, tellings, .. } = self;
        Ok(Record {
            members: grid.into_records(alloc)?,
            clients: tellings.into_records(alloc, script.clients.as_slice())?,
        })
    }
}
