ghost use Rattle.std.specs.Prelude.{◌≡◌, [], IfSome};
ghost use Rattle.gr_member.specs.Passes.{StaysAll};
ghost use Rattle.gr_host.specs.Houses.{StayAt};
ghost use Rattle.gr_host.specs.Hosts.{HasBegun, IsHostAt, IsHosted};

use crate::duties::DutyList;
use crate::ends::Ends;
use gr_member::{Member, Pass, Plan};
use gr_post::{Courier, InboxList, SendPassList, TakePass};
use gr_value::Memory;
use std::alloc::Global;
use std::sync::Wait;
use std::sync::atomic::{AtomicBool, Ordering};

/// A member's thread: its own lines, its pass, where a line is a join one pass at each member too, the
/// leave to take its member's mail, and its courier. It is never dropped: `serve` hands the passes back.
pub struct Host {
    pub plan: Plan,
    pub duties: DutyList,
    pub pass: Pass,
    pub visits: Vec<Pass>,
    pub take: TakePass,
    pub courier: Courier,
    pub ends: Ends,
}

/// What it leaves. `mail` is none where memory was refused.
pub struct Hosted {
    pub pass: Pass,
    pub visits: Vec<Pass>,
    pub mail: Option<(TakePass, SendPassList)>,
}

impl Host {
    /// Does the member's lines, in order, and all that the mail asks for that comes between and behind them,
    /// until each sender has sent its `End` and nothing waits to be sent. Where memory is refused it does no
    /// more, raises the sign, and waits for each sender's `End` all the same.
    pub fn serve<R: Wait + Sync>(
        self,
        rt: &R,
        alloc: Global,
        members: &[Member],
        inboxes: &InboxList,
        refused: &AtomicBool,
    ) -> Hosted
        requires at { IsHostAt members.now inboxes.now self }
        requires begun { HasBegun self }
        ensures pass { StaysAll self.pass result.pass }
        ensures visits { StayAt self.visits.items result.visits.items }
        ensures hosted { IfSome result.mail (λ mail. IsHosted self result.pass result.visits.items mail.0 mail.1) }
    {
        let mut host = self;
        let Ok(()) = host.work(rt, alloc, members, inboxes) else {
            refused.store(true, Ordering::SeqCst);
            host.courier.stop();
            return host.give_up(rt, inboxes);
        };
        let Ok(()) = host.courier.last() else {
            refused.store(true, Ordering::SeqCst);
            host.courier.stop();
            return host.give_up(rt, inboxes);
        };
        let Ok(()) = host.close(rt, alloc, members, inboxes) else {
            refused.store(true, Ordering::SeqCst);
            return host.give_up(rt, inboxes);
        };
        host.leave()
    }
}
