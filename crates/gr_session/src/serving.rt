// What comes of a step.
ghost use Rattle.std.specs.Prelude.{◌≡◌, ◌≤◌, ◌<◌, ◌^◌, ◌++◌, List, length, IfOk, OnOk};
ghost use Rattle.gr_post.specs.declared.mail.Posting.{Posting};
ghost use Rattle.gr_script.specs.declared.line.Act.TheVariants as act;
ghost use Rattle.gr_member.specs.Passes.{IsPassOf, StaysAll};
ghost use Rattle.gr_member.specs.Plans.{IsPlan};
ghost use Rattle.gr_post.specs.declared.stage.Stage.TheVariants.{Open};
ghost use Rattle.gr_post.specs.Couriers.{passes_of};
ghost use Rattle.gr_run_law.specs.Plans.{change_posted};
ghost use Rattle.gr_session.specs.Mailing.{CarriesOn, TakesFor};
ghost use Rattle.gr_session.specs.Steps.{LooksBehindAt, Serves, StandsStill};

use crate::desk::Desk;
use gr_history::{Answer, Ask, QueryAsk};
use gr_member::{Member, Pass, PeekEnd, Seen};
use gr_post::{Courier, Mail};
use gr_script::{Act, Step};
use gr_stamp::Change;
use gr_value::{Key, Memory, Shared};
use std::alloc::Global;
use std::sync::Wait;
use std::thread;

// Does a step, and posts the change that it made.
pub(crate) fn serve<R: Wait + Sync>(
    rt: &R,
    alloc: Global,
    desk: &Desk,
    step: &Step,
    pass: &mut Pass,
    courier: &mut Courier,
) -> Result<Answer, Memory>
    requires pass { IsPassOf desk.now.member.now pass.old }
    requires plan { IsPlan desk.now.plan × (desk.now.plan ≡ desk.now.member.now.plan) }
    requires courier { TakesFor desk.now.plan.members courier.old }
    ensures stays { StaysAll pass.old pass.new }
    ensures carries { CarriesOn courier.old courier.new }
    ensures served { IfOk result (λ told. Serves desk.now.client desk.now.plan.shards step.now told
        pass.old pass.new courier.old.posted courier.new.posted) }
{
    match &step.act {
        Act::Call(ask) => Ok(call(rt, alloc, desk, step.seq, ask, pass, courier)?),
        Act::Query(ask) => Ok(query(rt, alloc, desk, step.seq, ask, pass)?),
        Act::Peek(key) => Ok(peek(rt, alloc, desk, step.seq, key, pass)?),
    }
}

// A call, at the shard of its key.
fn call<R: Wait + Sync>(
    rt: &R,
    alloc: Global,
    desk: &Desk,
    seq: u32,
    ask: &Ask,
    pass: &mut Pass,
    courier: &mut Courier,
) -> Result<Answer, Memory>
    requires pass { IsPassOf desk.now.member.now pass.old }
    requires plan { IsPlan desk.now.plan × (desk.now.plan ≡ desk.now.member.now.plan) }
    requires courier { TakesFor desk.now.plan.members courier.old }
    ensures stays { StaysAll pass.old pass.new }
    ensures carries { CarriesOn courier.old courier.new }
    ensures served { IfOk result (λ told. Serves desk.now.client desk.now.plan.shards (record { seq = seq; act = act.Call ask.now }) told
        pass.old pass.new courier.old.posted courier.new.posted) }
{
    let done = desk.member.call(rt, alloc, pass, desk.client, seq, ask)?;
    post(alloc, courier, desk.plan.shards, done.made, done.to)?;
    Ok(Answer::Reply(done.reply))
}

// Posts a change that was made, to the shard of its key, for the members that it goes to.
fn post(
    alloc: Global,
    courier: &mut Courier,
    shards: u8,
    made: Option<Shared<Change>>,
    to: u8,
) -> Result<(), Memory>
    requires shards { (1 ≤ shards) × (shards ≤ 32) }
    requires open { courier.old.stage ≡ Open }
    requires to { to < 2 ^ length (passes_of courier.old) }
    ensures carries { CarriesOn courier.old courier.new }
    ensures posted { OnOk result (courier.new.posted ≡ courier.old.posted ++ change_posted shards made to) }
{
    let Some(change) = made else {
        return Ok(());
    };
    let shard = change.get().key.shard(shards);
    courier.post(alloc, &Mail::Change { shard, change }, to)?;
    Ok(())
}

// A step on one of the client's queries, at every shard.
fn query<R: Wait + Sync>(
    rt: &R,
    alloc: Global,
    desk: &Desk,
    seq: u32,
    ask: &QueryAsk,
    pass: &mut Pass,
) -> Result<Answer, Memory>
    requires { IsPassOf desk.now.member.now pass.old }
    ensures stays { StaysAll pass.old pass.new }
    ensures served { IfOk result (λ told. (posted : List Posting)
        → Serves desk.now.client desk.now.plan.shards (record { seq = seq; act = act.Query ask.now }) told
        pass.old pass.new posted posted) }
{
    let replies = desk.member.query(rt, alloc, pass, desk.client, seq, ask)?;
    Ok(Answer::Asked(replies))
}

// A peek, at the shard of its key.
fn peek<R: Wait + Sync>(
    rt: &R,
    alloc: Global,
    desk: &Desk,
    seq: u32,
    key: &Key,
    pass: &mut Pass,
) -> Result<Answer, Memory>
    requires pass { IsPassOf desk.now.member.now pass.old }
    requires plan { desk.now.plan ≡ desk.now.member.now.plan }
    ensures stays { StaysAll pass.old pass.new }
    ensures served { IfOk result (λ told. (posted : List Posting)
        → Serves desk.now.client desk.now.plan.shards (record { seq = seq; act = act.Peek key.now }) told
        pass.old pass.new posted posted) }
{
    let seen = look(rt, alloc, desk.member, pass, key)?;
    let Seen { value, at } = seen;
    Ok(Answer::Peeked { value, at })
}

// Looks at a key. Where the copy can't be entered it tries again.
fn look<R: Wait + Sync>(
    rt: &R,
    alloc: Global,
    member: &Member,
    pass: &mut Pass,
    key: &Key,
) -> Result<Seen, Memory>
    requires { IsPassOf member.now pass.old }
    ensures still { StandsStill pass.old pass.new }
    ensures behind { IfOk result (λ seen. LooksBehindAt member.now.plan.shards
        (record { key = key.now; value = seen.value; at = seen.at }) pass.old pass.new) }
{
    for _ in rt.forever() {
        match member.peek(alloc, pass, key) {
            Ok(seen) => return Ok(seen),
            Err(PeekEnd::Memory) => return Err(Memory),
            Err(PeekEnd::Denied) => thread::yield_now(),
        }
    }
    unreachable!()
}
