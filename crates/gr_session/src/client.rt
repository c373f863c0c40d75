ghost use Rattle.std.specs.Prelude.{◌≡◌, ◌≤◌, [], true, length, None, IfSome, OnOk};
ghost use Rattle.gr_member.specs.Passes.{IsPassOf, StaysAll};
ghost use Rattle.gr_session.specs.Sessions.{GoesOn, HasServed, IsSessionAt};
ghost use Rattle.gr_session.specs.Waiting.{HasMadeNothing, WaitedFor};
ghost use Rattle.gr_session.specs.Mailing.{CanPost};
ghost use Rattle.gr_session.specs.Clients.{DoesMore, IsAttended, Leaves, OnlyLooks};

use crate::gate::Gate;
use crate::session::Session;
use gr_history::ClientRecord;
use gr_member::{Member, Pass};
use gr_post::{InboxList, SendPassList};
use gr_value::Memory;
use std::alloc::Global;
use std::sync::Wait;
use std::sync::atomic::{AtomicBool, Ordering};
use std::thread;

/// A client before its thread: its session, of which no step was done, and whether it waits until its
/// member is ready. It is never dropped: `attend` leaves its pass.
pub struct Client {
    pub session: Session,
    pub waits: bool,
}

/// What a client's thread leaves. `told` is None where memory was refused, at it or, where it waits, at
/// its member.
pub struct Attended {
    pub pass: Pass,
    pub told: Option<(ClientRecord, SendPassList)>,
}

impl Client {
    /// All that a client's thread does: it waits where it is to, does each step, sends all its mail, and
    /// looks at its member. Where memory is refused it sends only an `End`. A client that waits gives up
    /// once `refused` is true, and no step of it was done.
    pub fn attend<R: Wait + Sync, G: Gate>(
        self,
        rt: &R,
        alloc: Global,
        member: &Member,
        inboxes: &InboxList,
        gate: &G,
        refused: &AtomicBool,
    ) -> Attended
        requires at { IsSessionAt member.now inboxes.now self.session }
        requires begun { HasServed self.session [] }
        requires fresh { HasMadeNothing self.session.pass }
        ensures stays { StaysAll self.session.pass result.pass }
        ensures attended { IfSome result.told (λ told. IsAttended self.session self.waits result.pass told.0 told.1) }
    {
        let Client { mut session, waits } = self;
        let Ok(()) = begin(rt, member, refused, waits, &mut session) else {
            return give_up(rt, inboxes, session);
        };
        let Ok(()) = work(rt, alloc, member, inboxes, gate, &mut session) else {
            return give_up(rt, inboxes, session);
        };
        leave(rt, member, inboxes, session)
    }
}

// Waits for the member where the client is to.
fn begin<R: Wait + Sync>(
    rt: &R,
    member: &Member,
    refused: &AtomicBool,
    waits: bool,
    session: &mut Session,
) -> Result<(), Memory>
    requires { IsPassOf member.now session.old.pass }
    ensures looks { OnlyLooks session.old session.new }
    ensures waited { OnOk result (waits ≡ true → HasMadeNothing session.old.pass → WaitedFor member.now.plan session.new.pass) }
{
    if !waits {
        return Ok(());
    }
    Ok(wait(rt, member, refused, session)?)
}

// Waits until the member is ready, or else until `refused` is true.
fn wait<R: Wait + Sync>(
    rt: &R,
    member: &Member,
    refused: &AtomicBool,
    session: &mut Session,
) -> Result<(), Memory>
    requires { IsPassOf member.now session.old.pass }
    ensures looks { OnlyLooks session.old session.new }
    ensures waited { OnOk result (HasMadeNothing session.old.pass → WaitedFor member.now.plan session.new.pass) }
{
    for _ in rt.forever() {
        if session.ready(rt, member) {
            return Ok(());
        }
        if refused.load(Ordering::SeqCst) {
            return Err(Memory);
        }
        thread::yield_now();
    }
    unreachable!()
}

// Does all steps that are left.
fn work<R: Wait + Sync, G: Gate>(
    rt: &R,
    alloc: Global,
    member: &Member,
    inboxes: &InboxList,
    gate: &G,
    session: &mut Session,
) -> Result<(), Memory>
    requires { IsSessionAt member.now inboxes.now session.old }
    ensures at { IsSessionAt member.now inboxes.now session.new }
    ensures goes { GoesOn session.old session.new }
    ensures more { OnOk result (DoesMore session.old session.new) }
    ensures all { OnOk result (length session.new.steps ≤ length session.new.answers) }
{
    for _ in rt.forever() {
        if !session.step(rt, alloc, member, inboxes, gate)? {
            return Ok(());
        }
    }
    unreachable!()
}

// Sends all mail, and looks at the member, so that its pass has seen all that its peeks told by.
fn leave<R: Wait + Sync>(rt: &R, member: &Member, inboxes: &InboxList, session: Session) -> Attended
    requires { IsSessionAt member.now inboxes.now session }
    ensures stays { StaysAll session.pass result.pass }
    ensures leaves { IfSome result.told (λ told. Leaves session result.pass told.0 told.1) }
{
    match session.finish(rt, inboxes) {
        Ok((mut pass, told, sends)) => {
            member.look(rt, &mut pass);
            Attended {
                pass,
                told: Some((told, sends)),
            }
        }
        Err((_, pass)) => Attended { pass, told: None },
    }
}

// Leaves the pass alone.
fn give_up<R: Wait + Sync>(rt: &R, inboxes: &InboxList, session: Session) -> Attended
    requires { CanPost inboxes.now session.plan.members session.courier }
    ensures pass { result.pass ≡ session.pass }
    ensures told { result.told ≡ None }
{
    let pass = session.stop(rt, inboxes);
    Attended { pass, told: None }
}
