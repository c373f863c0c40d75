ghost use Rattle.std.specs.Prelude.{◌≡◌, [], ◌∷◌, length, IfOk, OnOk};
ghost use Rattle.gr_post.specs.Couriers.{passes_of};
ghost use Rattle.gr_post.specs.Passes.{sender_of};
ghost use Rattle.gr_post.specs.declared.stage.Stage.TheVariants.{Open};
ghost use Rattle.parts_by_hand.specs.Rings.{ring_of};

use crate::stop::Stop;
use crate::words::Came;
use gr_post::{Courier, Inbox, InboxList, Mail, Posting, SendPass, SendPassList, TakePass};
use gr_value::Memory;
use std::alloc::Global;
use std::sync::Wait;

/// The most mails of a script, with the `End` behind them.
const MOST: u32 = 16;

/// Takes the mails to the inboxes of both founders, and prints what comes out there.
pub fn carry<R: Wait + Sync>(rt: &HostRuntime, waits: &R, mails: &[Posting]) -> Result<(), Stop> {
    let Routes {
        mut courier,
        inboxes,
        first,
        second,
    } = anew!(make_routes(rt.alloc()))?;
    for posting in mails {
        post(rt.alloc(), &mut courier, posting)?;
    }
    end(&mut courier)?;
    courier.flush(waits, &inboxes);
    let (Some(one), Some(two)) = (inboxes.get(0), inboxes.get(1)) else {
        return Err(Stop::Otherwise);
    };
    take_all(rt, waits, one, 1, first)?;
    take_all(rt, waits, two, 2, second)
}

/// Two inboxes, a courier with a pass of each, and what takes their mails.
#[derive(Drop)]
struct Routes {
    courier: Courier,
    inboxes: InboxList,
    first: TakePass,
    second: TakePass,
    ghost open: { courier.stage ≡ Open },
    ghost passes: { passes_of courier ≡ sender_of first.table 0 ∷ sender_of second.table 0 ∷ [] },
    ghost rings: { inboxes ≡ ring_of first ∷ ring_of second ∷ [] },
}

// An inbox with one sender.
fn make_inbox(alloc: Global) -> Result<(Inbox, SendPass, TakePass), Memory>
    ensures ring { IfOk result (λ made. made.0 ≡ ring_of made.2) }
    ensures pass { IfOk result (λ made. made.1 ≡ sender_of made.2.table 0) }
{
    let (inbox, mut passes, taker) = Inbox::new(alloc, MOST, 1)?;
    let Some(pass) = passes.pop() else {
        return Err(Memory);
    };
    Ok((inbox, pass, taker))
}

fn make_routes(alloc: Global) -> Result<Routes, Memory> {
    let (one, one_pass, first) = make_inbox(alloc)?;
    let (two, two_pass, second) = make_inbox(alloc)?;
    let mut passes = SendPassList::new(alloc)?;
    passes.push(one_pass)?;
    passes.push(two_pass)?;
    let mut inboxes = InboxList::new(alloc)?;
    inboxes.push(one)?;
    inboxes.push(two)?;
    Ok(Routes {
        courier: Courier::new(alloc, 65, 0, passes)?,
        inboxes,
        first,
        second,
    })
}

fn post(alloc: Global, courier: &mut Courier, posting: &Posting) -> Result<(), Stop>
    requires open { courier.old.stage ≡ Open }
    requires two { length (passes_of courier.old) ≡ 2 }
    ensures open { OnOk result (courier.new.stage ≡ Open) }
    ensures passes { OnOk result (passes_of courier.new ≡ passes_of courier.old) }
{
    let to = posting.to.min(3);
    if let Ok(()) = courier.post(alloc, &posting.mail, to) {
        return Ok(());
    }
    Ok(courier.post(alloc, &posting.mail, to)?)
}

fn end(courier: &mut Courier) -> Result<(), Stop>
    requires { courier.old.stage ≡ Open }
    ensures { OnOk result (passes_of courier.new ≡ passes_of courier.old) }
{
    if let Ok(()) = courier.last() {
        return Ok(());
    }
    Ok(courier.last()?)
}

// Prints the mails in a member's inbox, of which there are no more than it has room for.
fn take_all<R: Wait + Sync>(
    rt: &HostRuntime,
    waits: &R,
    inbox: &Inbox,
    member: u8,
    taker: TakePass,
) -> Result<(), Stop>
    requires { taker.table ≡ inbox.now.table }
{
    let mut taker = taker;
    for _ in 0..MOST {
        match inbox.take(waits, &mut taker) {
            None => return Ok(()),
            Some(mail) => println!(rt; "to {member}: {}", Came(&mail))?,
        }
    }
    Err(Stop::Otherwise)
}
