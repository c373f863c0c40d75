ghost use Rattle.std.specs.Prelude.{◌≡◌, ◌≤◌, ◌<◌, ◌^◌, ◌++◌, ◌∷◌, [], true, false, length, All, IfOk, OnOk, OnErr, map};
ghost use Rattle.gr_post.specs.declared.mail.Mail.TheVariants.{End};
ghost use Rattle.gr_post.specs.declared.stage.Stage.TheVariants.{Open, Ended, Stopped};
ghost use Rattle.gr_post.specs.Plan.{first_number};
ghost use Rattle.gr_post.specs.Couriers.{passes_of, begun, posting, ended, stopped_line, AreOf, FollowsPlan, IsPushed, IsEachTried, NothingWaits, IsRefused};

use crate::fate::first_number;
use crate::inbox::InboxList;
use crate::lane::Lane;
use crate::lanes::{
    new_lanes, passes_home, prepare_each, prepare_last_each, send_each, settle_each, stop_each,
    waiting,
};
use crate::mail::Mail;
use crate::passes::{SendPass, SendPassList};
use crate::postings::Postings;
use crate::rest::Rest;
use crate::stage::Stage;
use gr_value::Memory;
use std::alloc::Global;
use std::marker::Model;
use std::sync::Wait;

/// Takes the mails of one sender to all inboxes, by the trouble plan.
#[derive(Drop)]
pub struct Courier {
    first: u32,
    number: u32,
    stage: Stage,
    posted: Postings,
    lanes: Vec<Lane>,
    home: Vec<SendPass>,
}

impl Model for Courier {
    ghost use Rattle.gr_post.specs.Couriers.{Carrying, carrying, IsCarried, HasHome};

    ghost Value = { Carrying };

    ghost view = { λ c. carrying c.lanes.items c.posted c.first c.stage };

    ghost invariant = { λ c. IsCarried c.lanes.items c.posted c.first c.number c.stage × HasHome c.home c.lanes };
}

impl Courier {
    /// Clients have the senders' numbers 1 to 64, and member m has 64 + m. There is one pass for each inbox,
    /// that of member 1 first.
    pub fn new(
        alloc: Global,
        sender: u8,
        trouble: u32,
        passes: SendPassList,
    ) -> Result<Courier, Memory>
        requires sender { (1 ≤ sender) × (sender ≤ 72) }
        requires trouble { trouble < 2 ^ 31 }
        requires members { length passes ≤ 8 }
        requires unused { All (λ p. p.sent ≡ []) passes }
        ensures { IfOk result (λ courier. courier ≡ begun passes (first_number trouble sender)) }
    {
        let first = first_number(trouble, sender);
        let home = Vec::with_capacity(alloc, passes.len())?;
        let lanes = new_lanes(alloc, passes.into_vec())?;
        Ok(Courier {
            first,
            number: first,
            stage: Stage::Open,
            posted: Postings::new(),
            lanes,
            home,
        })
    }

    /// Takes a mail for the members whose bits are set: bit m - 1 stands for member m.
    pub fn post(&mut self, alloc: Global, mail: &Mail, to: u8) -> Result<(), Memory>
        requires open { self.old.stage ≡ Open }
        requires to { to < 2 ^ length (passes_of self.old) }
        ensures posted { IfOk result (λ _. self.new ≡ posting self.old mail.now to self.new.lines) }
        ensures passes { OnOk result (passes_of self.new ≡ passes_of self.old) }
        ensures plan { OnOk result (FollowsPlan self.new) }
        ensures err { OnErr result (self.new ≡ self.old) }
    {
        let after = prepare_each(alloc, &mut self.lanes, mail, to, self.number)?;
        settle_each(&mut self.lanes);
        self.number = after;
        self.posted.push(mail, to);
        Ok(())
    }

    /// Sends to each inbox what can be sent without waiting for room in it, and says whether nothing waits.
    pub fn push<R: Wait + Sync>(&mut self, rt: &R, inboxes: &InboxList) -> bool
        requires { AreOf inboxes.now self.old }
        ensures pushed { IsPushed self.old self.new }
        ensures tried { IsEachTried self.old.lines self.new.lines }
        ensures all { result ≡ true → NothingWaits self.new.lines }
        ensures refused { result ≡ false → IsRefused self.old.lines self.new.lines }
    {
        send_each(rt, &mut self.lanes, inboxes.as_slice())
    }

    /// Releases all that is held back, and puts an `End` behind it for each inbox.
    pub fn last(&mut self) -> Result<(), Memory>
        requires open { self.old.stage ≡ Open }
        ensures ended { IfOk result (λ _. self.new ≡ ended self.old self.new.lines) }
        ensures passes { OnOk result (passes_of self.new ≡ passes_of self.old) }
        ensures plan { OnOk result (FollowsPlan self.new) }
        ensures err { OnErr result (self.new ≡ self.old) }
    {
        prepare_last_each(&mut self.lanes)?;
        settle_each(&mut self.lanes);
        self.stage = Stage::Ended;
        Ok(())
    }

    /// Sends until nothing waits, so it may wait for the takers.
    pub fn flush<R: Wait + Sync>(&mut self, rt: &R, inboxes: &InboxList)
        requires { AreOf inboxes.now self.old }
        ensures pushed { IsPushed self.old self.new }
        ensures all { NothingWaits self.new.lines }
    {
        let mut rest = Rest::new();
        for _ in rt.forever() {
            let before = waiting(&self.lanes);
            if self.push(rt, inboxes) {
                return;
            }
            rest.progress(waiting(&self.lanes) < before);
            rest.wait(rt);
        }
        unreachable!()
    }

    /// Drops all that waits or is held back, and puts an `End` for each inbox.
    pub fn stop(&mut self)
        requires open { self.old.stage ≡ Open }
        ensures passes { passes_of self.new ≡ passes_of self.old }
        ensures ends { self.new ≡ record self.old { lines = map stopped_line self.old.lines; stage = Stopped } }
    {
        stop_each(&mut self.lanes);
        self.stage = Stage::Stopped;
    }

    /// Hands the passes back, in order.
    pub fn passes(self) -> SendPassList
        ensures passes { result ≡ passes_of self }
        ensures plan { FollowsPlan self }
    {
        let Courier {
            first: _,
            number: _,
            stage: _,
            posted: _,
            lanes,
            home,
        } = self;
        SendPassList {
            passes: passes_home(home, lanes),
        }
    }
}
