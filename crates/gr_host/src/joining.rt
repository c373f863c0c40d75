// How a member joins.
ghost use Rattle.std.specs.Prelude.{◌≡◌, ◌≤◌, ◌<◌, ◌==◌, ◌&&◌, ◌-◌, slice_index_or, OnOk};
ghost use Rattle.gr_shard.specs.Merges.{IsGiftFor};
ghost use Rattle.gr_world.specs.Courses.{what_from};
ghost use Rattle.gr_member.specs.Plans.{IsPlan, identity_of};
ghost use Rattle.gr_member.specs.Passes.{House, IsPassOf, StaysAll};
ghost use Rattle.gr_host.specs.Houses.{AreMembers, ArePassesOf, IsOther, StayAt};
ghost use Rattle.gr_host.specs.Joins.{Joined, JoinedWhere, Receives, TakesEach};

use gr_history::{Gift, What};
use gr_member::{Member, Pass, Plan};
use gr_stamp::Change;
use gr_value::{ItemList, Memory, Shared};
use std::alloc::Global;
use std::sync::Wait;

/// Joins, shard by shard: each other member, in the order of the numbers, gives the image where it is the
/// provider, and its own changes otherwise. The joiner merges the image, and takes in each of the changes.
/// There is a visit at each member, of which its own isn't used.
pub(crate) fn join<R: Wait + Sync>(
    rt: &R,
    alloc: Global,
    members: &[Member],
    plan: Plan,
    pass: &mut Pass,
    visits: &mut [Pass],
    from: u8,
) -> Result<(), Memory>
    requires plan { IsPlan plan }
    requires members { AreMembers plan members.now }
    requires pass { (h : House) → IsPassOf (slice_index_or members.now (plan.member - 1) h) pass.old }
    requires visits { ArePassesOf members.now visits.old }
    requires from { IsOther plan from }
    ensures stays { StaysAll pass.old pass.new }
    ensures visits { StayAt visits.old visits.new }
    ensures joined { OnOk result (Joined plan from pass.old pass.new visits.old visits.new) }
{
    for shard in 0..plan.shards {
        join_at(rt, alloc, members, plan, pass, visits, from, shard)?;
    }
    Ok(())
}

// All members' gifts at one shard.
fn join_at<R: Wait + Sync>(
    rt: &R,
    alloc: Global,
    members: &[Member],
    plan: Plan,
    pass: &mut Pass,
    visits: &mut [Pass],
    from: u8,
    shard: u8,
) -> Result<(), Memory>
    requires plan { IsPlan plan }
    requires members { AreMembers plan members.now }
    requires pass { (h : House) → IsPassOf (slice_index_or members.now (plan.member - 1) h) pass.old }
    requires visits { ArePassesOf members.now visits.old }
    requires from { IsOther plan from }
    requires shard { shard < plan.shards }
    ensures stays { StaysAll pass.old pass.new }
    ensures visits { StayAt visits.old visits.new }
    ensures joined { OnOk result (JoinedWhere (λ giver k. k == shard) plan from pass.old pass.new visits.old visits.new) }
{
    for at in 0..plan.members {
        join_by(rt, alloc, members, plan, pass, visits, from, shard, at + 1)?;
    }
    Ok(())
}

// One member's gift at one shard. The joiner gives itself nothing.
fn join_by<R: Wait + Sync>(
    rt: &R,
    alloc: Global,
    members: &[Member],
    plan: Plan,
    pass: &mut Pass,
    visits: &mut [Pass],
    from: u8,
    shard: u8,
    giver: u8,
) -> Result<(), Memory>
    requires plan { IsPlan plan }
    requires members { AreMembers plan members.now }
    requires pass { (h : House) → IsPassOf (slice_index_or members.now (plan.member - 1) h) pass.old }
    requires visits { ArePassesOf members.now visits.old }
    requires from { IsOther plan from }
    requires shard { shard < plan.shards }
    requires giver { (1 ≤ giver) × (giver ≤ plan.members) }
    ensures stays { StaysAll pass.old pass.new }
    ensures visits { StayAt visits.old visits.new }
    ensures joined { OnOk result (JoinedWhere (λ one k. one == giver && k == shard) plan from pass.old pass.new visits.old visits.new) }
{
    if giver == plan.member {
        return Ok(());
    }
    let at = usize::from(giver - 1);
    let what = what_given(giver, from);
    let gift = members[at].give(rt, alloc, &mut visits[at], shard, plan.member, what)?;
    let own = usize::from(plan.member - 1);
    Ok(receive(rt, alloc, &members[own], pass, shard, &gift)?)
}

// What a member gives to one that joins by this provider.
fn what_given(giver: u8, from: u8) -> What
    ensures { result ≡ what_from (giver == from) }
{
    if giver == from {
        What::Image
    } else {
        What::Own
    }
}

// Merges an image, or takes in each of the changes.
fn receive<R: Wait + Sync>(
    rt: &R,
    alloc: Global,
    member: &Member,
    pass: &mut Pass,
    shard: u8,
    gift: &Gift,
) -> Result<(), Memory>
    requires pass { IsPassOf member.now pass.old }
    requires shard { shard < member.now.plan.shards }
    requires gift { IsGiftFor (identity_of member.now.plan shard) gift.now }
    ensures stays { StaysAll pass.old pass.new }
    ensures received { OnOk result (Receives member.now.plan.shards shard gift.now pass.old pass.new) }
{
    match gift {
        Gift::Image(image) => Ok(member.merge(rt, alloc, pass, shard, image)?),
        Gift::Own(changes) => Ok(take_each(rt, alloc, member, pass, changes)?),
    }
}

// Takes in changes, one after the other.
fn take_each<R: Wait + Sync>(
    rt: &R,
    alloc: Global,
    member: &Member,
    pass: &mut Pass,
    changes: &ItemList<Shared<Change>>,
) -> Result<(), Memory>
    requires { IsPassOf member.now pass.old }
    ensures stays { StaysAll pass.old pass.new }
    ensures took { OnOk result (TakesEach member.now.plan.shards changes.now pass.old pass.new) }
{
    for change in changes.as_slice() {
        let _verdict = member.take_in(rt, alloc, pass, change)?;
    }
    Ok(())
}
