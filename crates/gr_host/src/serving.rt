// What a member's thread does, step by step.
ghost use Rattle.std.specs.Prelude.{◌≡◌, ◌<◌, [], ◌∷◌, List, true, None, length, IfOk, IfSome, OnOk};
ghost use Rattle.gr_post.specs.declared.stage.Stage.TheVariants.{Open};
ghost use Rattle.gr_post.specs.Couriers.{FollowsPlan, passes_of};
ghost use Rattle.gr_post.specs.Passes.{Ring};
ghost use Rattle.gr_session.specs.Mailing.{CarriesOn};
ghost use Rattle.gr_host.specs.Hosts.{CanBeDone, DoesLine, HasMailAt, HostGoesOn, IsHostAt, IsThrough, Works};

use crate::duties::{Duty, report, sweep};
use crate::host::{Host, Hosted};
use crate::joining::join;
use crate::mail::{follow, take};
use gr_member::Member;
use gr_post::{InboxList, Rest};
use gr_value::Memory;
use std::alloc::Global;
use std::sync::Wait;
use std::thread;

impl Host {
    // Does its lines, in order.
    pub(crate) fn work<R: Wait + Sync>(
        &mut self,
        rt: &R,
        alloc: Global,
        members: &[Member],
        inboxes: &InboxList,
    ) -> Result<(), Memory>
        requires at { IsHostAt members.now inboxes.now self.old }
        requires stage { self.old.courier.stage ≡ Open }
        ensures at { IsHostAt members.now inboxes.now self.new }
        ensures goes { HostGoesOn self.old self.new }
        ensures carries { CarriesOn self.old.courier self.new.courier }
        ensures worked { OnOk result (Works self.old self.new self.old.duties) }
    {
        for place in 0..self.duties.len() {
            self.line(rt, alloc, members, inboxes, place)?;
        }
        Ok(())
    }

    // Takes the mail that there is, and does one line.
    fn line<R: Wait + Sync>(
        &mut self,
        rt: &R,
        alloc: Global,
        members: &[Member],
        inboxes: &InboxList,
        place: usize,
    ) -> Result<(), Memory>
        requires at { IsHostAt members.now inboxes.now self.old }
        requires stage { self.old.courier.stage ≡ Open }
        requires place { place < length self.old.duties }
        ensures at { IsHostAt members.now inboxes.now self.new }
        ensures goes { HostGoesOn self.old self.new }
        ensures carries { CarriesOn self.old.courier self.new.courier }
        ensures worked { OnOk result (DoesLine self.old place self.new) }
    {
        let Some(duty) = self.duties.get(place) else {
            unreachable!()
        };
        let duty = *duty;
        self.listen(rt, alloc, members, inboxes)?;
        self.act(rt, alloc, members, duty)?;
        let _ = self.courier.push(rt, inboxes);
        Ok(())
    }

    // Does what a line states.
    fn act<R: Wait + Sync>(
        &mut self,
        rt: &R,
        alloc: Global,
        members: &[Member],
        duty: Duty,
    ) -> Result<(), Memory>
        requires at { (rings : List Ring) × IsHostAt members.now rings self.old }
        requires stage { self.old.courier.stage ≡ Open }
        requires duty { CanBeDone self.old duty }
        ensures goes { HostGoesOn self.old self.new }
        ensures carries { CarriesOn self.old.courier self.new.courier }
        ensures mail { (self.new.take ≡ self.old.take) × (self.new.ends ≡ self.old.ends) }
        ensures worked { OnOk result (Works self.old self.new (duty ∷ [])) }
    {
        let member = &members[usize::from(self.plan.member) - 1];
        match duty {
            Duty::Report => Ok(report(
                rt,
                alloc,
                member,
                self.plan,
                &mut self.pass,
                &mut self.courier,
            )?),
            Duty::Sweep { moment } => Ok(sweep(rt, alloc, member, &mut self.pass, moment)?),
            Duty::Join { from } => Ok(join(
                rt,
                alloc,
                members,
                self.plan,
                &mut self.pass,
                self.visits.as_mut_slice(),
                from,
            )?),
        }
    }

    // Takes mail until there is none, and does what it asks for. It says whether there was any.
    fn listen<R: Wait + Sync>(
        &mut self,
        rt: &R,
        alloc: Global,
        members: &[Member],
        inboxes: &InboxList,
    ) -> Result<bool, Memory>
        requires at { IsHostAt members.now inboxes.now self.old }
        ensures at { IsHostAt members.now inboxes.now self.new }
        ensures goes { HostGoesOn self.old self.new }
        ensures courier { self.new.courier ≡ self.old.courier }
        ensures worked { OnOk result (Works self.old self.new []) }
    {
        let mut took = false;
        for _ in rt.forever() {
            if !self.hear_one(rt, alloc, members, inboxes)? {
                return Ok(took);
            }
            took = true;
        }
        unreachable!()
    }

    // Takes a mail, if there is one, and does what it asks for.
    fn hear_one<R: Wait + Sync>(
        &mut self,
        rt: &R,
        alloc: Global,
        members: &[Member],
        inboxes: &InboxList,
    ) -> Result<bool, Memory>
        requires at { IsHostAt members.now inboxes.now self.old }
        ensures at { IsHostAt members.now inboxes.now self.new }
        ensures goes { HostGoesOn self.old self.new }
        ensures courier { self.new.courier ≡ self.old.courier }
        ensures worked { OnOk result (Works self.old self.new []) }
    {
        let at = usize::from(self.plan.member) - 1;
        let inbox = &inboxes.as_slice()[at];
        let Some(mail) = take(rt, inbox, &mut self.take, &mut self.ends) else {
            return Ok(false);
        };
        follow(rt, alloc, &members[at], self.plan, &mut self.pass, &mail)?;
        Ok(true)
    }

    // Takes mail and sends what waits, until an `End` of each sender was taken and nothing waits.
    pub(crate) fn close<R: Wait + Sync>(
        &mut self,
        rt: &R,
        alloc: Global,
        members: &[Member],
        inboxes: &InboxList,
    ) -> Result<(), Memory>
        requires at { IsHostAt members.now inboxes.now self.old }
        ensures at { IsHostAt members.now inboxes.now self.new }
        ensures goes { HostGoesOn self.old self.new }
        ensures carries { CarriesOn self.old.courier self.new.courier }
        ensures worked { OnOk result (Works self.old self.new []) }
        ensures done { OnOk result (IsThrough self.new) }
    {
        let mut rest = Rest::new();
        for _ in rt.forever() {
            if self.turn(rt, alloc, members, inboxes, &mut rest)? {
                return Ok(());
            }
            rest.wait(rt);
        }
        unreachable!()
    }

    // Takes the mail that there is, and sends what can be sent. It says whether all is taken and sent.
    fn turn<R: Wait + Sync>(
        &mut self,
        rt: &R,
        alloc: Global,
        members: &[Member],
        inboxes: &InboxList,
        rest: &mut Rest,
    ) -> Result<bool, Memory>
        requires at { IsHostAt members.now inboxes.now self.old }
        ensures at { IsHostAt members.now inboxes.now self.new }
        ensures goes { HostGoesOn self.old self.new }
        ensures carries { CarriesOn self.old.courier self.new.courier }
        ensures worked { OnOk result (Works self.old self.new []) }
        ensures done { IfOk result (λ done. done ≡ true → IsThrough self.new) }
    {
        let took = self.listen(rt, alloc, members, inboxes)?;
        rest.progress(took);
        let sent = self.courier.push(rt, inboxes);
        Ok(sent && self.ends.all())
    }

    // Drops all mail, until an `End` of each sender was taken and nothing waits.
    fn skip<R: Wait + Sync>(&mut self, rt: &R, inboxes: &InboxList)
        requires at { HasMailAt inboxes.now self.old }
        ensures pass { self.new.pass ≡ self.old.pass }
        ensures visits { self.new.visits ≡ self.old.visits }
    {
        for _ in rt.forever() {
            if self.skip_one(rt, inboxes) {
                return;
            }
            thread::yield_now();
        }
        unreachable!()
    }

    // Drops a mail, if there is one, and sends what can be sent. It says whether all is taken and sent.
    fn skip_one<R: Wait + Sync>(&mut self, rt: &R, inboxes: &InboxList) -> bool
        requires at { HasMailAt inboxes.now self.old }
        ensures at { HasMailAt inboxes.now self.new }
        ensures pass { self.new.pass ≡ self.old.pass }
        ensures visits { self.new.visits ≡ self.old.visits }
    {
        let inbox = &inboxes.as_slice()[usize::from(self.plan.member) - 1];
        let took = take(rt, inbox, &mut self.take, &mut self.ends).is_some();
        let sent = self.courier.push(rt, inboxes);
        !took && sent && self.ends.all()
    }

    // Where memory was refused: drops all mail, and hands the passes back.
    pub(crate) fn give_up<R: Wait + Sync>(self, rt: &R, inboxes: &InboxList) -> Hosted
        requires at { HasMailAt inboxes.now self }
        ensures pass { result.pass ≡ self.pass }
        ensures visits { result.visits ≡ self.visits }
        ensures mail { result.mail ≡ None }
    {
        let mut host = self;
        host.skip(rt, inboxes);
        let Host {
            plan: _,
            duties: _,
            pass,
            visits,
            take: _,
            courier: _,
            ends: _,
        } = host;
        Hosted {
            pass,
            visits,
            mail: None,
        }
    }

    // Hands all passes back.
    pub(crate) fn leave(self) -> Hosted
        ensures pass { result.pass ≡ self.pass }
        ensures visits { result.visits ≡ self.visits }
        ensures mail { IfSome result.mail (λ mail. (mail.0 ≡ self.take) × (mail.1 ≡ passes_of self.courier)) }
        ensures plan { FollowsPlan self.courier }
    {
        let Host {
            plan: _,
            duties: _,
            pass,
            visits,
            take,
            courier,
            ends: _,
        } = self;
        Hosted {
            pass,
            visits,
            mail: Some((take, courier.passes())),
        }
    }
}
