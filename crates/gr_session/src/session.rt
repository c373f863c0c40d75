ghost use Rattle.std.specs.Prelude.{◌≡◌, ◌≤◌, ◌<◌, List, [], true, false, length, IfOk, OnOk, OnErr};
ghost use Rattle.gr_post.specs.Passes.{Ring};
ghost use Rattle.gr_member.specs.Passes.{IsPassOf, LooksAll, OneWaits};
ghost use Rattle.gr_session.specs.Steps.{StandsStill};
ghost use Rattle.gr_session.specs.Waiting.{HasMadeNothing, WaitedFor};
ghost use Rattle.gr_session.specs.Sessions.{GoesOn, HasServed, IsSessionAt, KeepsServed, LooksNext, ServesOneMore};

use crate::desk::Desk;
use crate::gate::Gate;
use crate::serving::serve;
use gr_history::AnswerList;
use gr_member::{Member, Pass, Plan};
use gr_post::{Courier, InboxList};
use gr_script::StepList;
use gr_value::Memory;
use std::alloc::Global;
use std::sync::Wait;

/// A client at its member: its steps, the answers to those that it did, its pass, and its courier. It is
/// never dropped: `finish` and `stop` hand the pass back.
pub struct Session {
    pub client: u8,
    /// What its member is planned to be.
    pub plan: Plan,
    pub steps: StepList,
    pub answers: AnswerList,
    pub pass: Pass,
    pub courier: Courier,
}

impl Session {
    /// A session of which no step was done.
    pub fn new(
        alloc: Global,
        client: u8,
        plan: Plan,
        steps: StepList,
        pass: Pass,
        courier: Courier,
    ) -> Session
        ensures begun { result ≡ record { client = client; plan = plan; steps = steps; answers = []; pass = pass; courier = courier } }
        ensures served { courier.posted ≡ [] → HasMadeNothing pass → HasServed result [] }
    {
        Session {
            client,
            plan,
            steps,
            answers: AnswerList::from_vec(Vec::new(alloc)),
            pass,
            courier,
        }
    }

    /// Whether the member was ready, so that the first step may be done.
    pub fn ready<R: Wait + Sync>(&mut self, rt: &R, member: &Member) -> bool
        requires { IsPassOf member.now self.old.pass }
        ensures goes { self.new ≡ record self.old { pass = self.new.pass } }
        ensures looks { LooksAll self.old.pass self.new.pass }
        ensures at { (rings : List Ring) → IsSessionAt member.now rings self.old → IsSessionAt member.now rings self.new }
        ensures served { KeepsServed self.old self.new }
        ensures ready { result ≡ true → HasMadeNothing self.old.pass → WaitedFor member.now.plan self.new.pass }
        ensures waits { result ≡ false → OneWaits member.now.plan self.old.pass self.new.pass }
    {
        member.ready(rt, &mut self.pass)
    }

    /// Does the next step, and posts what it made; a peek takes no turn. It answers false where none is
    /// left. After a refusal the step may have left deeds, what it made may not be posted, and only `stop`
    /// is called.
    pub fn step<R: Wait + Sync, G: Gate>(
        &mut self,
        rt: &R,
        alloc: Global,
        member: &Member,
        inboxes: &InboxList,
        gate: &G,
    ) -> Result<bool, Memory>
        requires { IsSessionAt member.now inboxes.now self.old }
        ensures at { IsSessionAt member.now inboxes.now self.new }
        ensures goes { GoesOn self.old self.new }
        ensures left { IfOk result (λ more. more ≡ true → length self.old.answers < length self.old.steps) }
        ensures served { IfOk result (λ more. more ≡ true → ServesOneMore self.old self.new) }
        ensures none { IfOk result (λ more. more ≡ false
            → (length self.old.steps ≤ length self.old.answers) × (self.new ≡ self.old)) }
        ensures still { IfOk result (λ more. more ≡ true → LooksNext self.old → StandsStill self.old.pass self.new.pass) }
        ensures waited { OnOk result (WaitedFor self.old.plan self.old.pass → WaitedFor self.new.plan self.new.pass) }
        ensures err { OnErr result (self.new.answers ≡ self.old.answers) }
    {
        let Some(step) = self.steps.get(self.answers.len()) else {
            return Ok(false);
        };
        gate.before(self.client, step.seq);
        let desk = Desk {
            member,
            plan: self.plan,
            client: self.client,
        };
        let answer = serve(rt, alloc, &desk, step, &mut self.pass, &mut self.courier)?;
        let _ = self.courier.push(rt, inboxes);
        gate.after(self.client, step.seq, &answer);
        self.answers.push(answer)?;
        Ok(true)
    }
}
