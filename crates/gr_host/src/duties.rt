// What a member's own lines have it do.
ghost use Rattle.std.specs.Prelude.{◌≡◌, ◌≤◌, ◌<◌, ◌^◌, ◌++◌, length, OnOk};
ghost use Rattle.gr_post.specs.declared.stage.Stage.TheVariants.{Open};
ghost use Rattle.gr_post.specs.Couriers.{passes_of};
ghost use Rattle.gr_run_law.specs.Plans.{posted_from};
ghost use Rattle.gr_member.specs.Plans.{IsPlan};
ghost use Rattle.gr_member.specs.Passes.{IsPassOf, StaysAll};
ghost use Rattle.gr_session.specs.Mailing.{CarriesOn, TakesFor};
ghost use Rattle.gr_host.specs.Mails.{others_of};
ghost use Rattle.gr_host.specs.Works.{HasReported, HasSwept, PostsReport};

use gr_member::{Member, Pass, Plan};
use gr_post::{Courier, Mail};
use gr_value::{Copied, ItemList, Memory, Shared};
use gr_vector::ReportList;
use std::alloc::Global;
use std::sync::Wait;

/// What a member's line has it do.
#[derive(Clone, Copy)]
pub enum Duty {
    Report,
    Sweep { moment: u64 },
    Join { from: u8 },
}

pub type DutyList = ItemList<Duty>;

// Reports, and posts the reports of all shards to all other members, that of shard 0 first.
pub(crate) fn report<R: Wait + Sync>(
    rt: &R,
    alloc: Global,
    member: &Member,
    plan: Plan,
    pass: &mut Pass,
    courier: &mut Courier,
) -> Result<(), Memory>
    requires pass { IsPassOf member.now pass.old }
    requires plan { IsPlan plan × (length pass.old ≡ plan.shards) }
    requires courier { TakesFor plan.members courier.old }
    ensures stays { StaysAll pass.old pass.new }
    ensures carries { CarriesOn courier.old courier.new }
    ensures done { OnOk result (HasReported plan pass.old pass.new courier.old.posted courier.new.posted) }
{
    let reports = member.report(rt, alloc, pass)?;
    let to = others(plan);
    Ok(post_each(alloc, courier, to, &reports)?)
}

// Sweeps at a moment.
pub(crate) fn sweep<R: Wait + Sync>(
    rt: &R,
    alloc: Global,
    member: &Member,
    pass: &mut Pass,
    moment: u64,
) -> Result<(), Memory>
    requires { IsPassOf member.now pass.old }
    ensures stays { StaysAll pass.old pass.new }
    ensures done { OnOk result (HasSwept moment pass.old pass.new) }
{
    member.sweep(rt, alloc, pass, moment)?;
    Ok(())
}

// All members but the plan's own, member m with bit m - 1.
fn others(plan: Plan) -> u8
    requires { IsPlan plan }
    ensures bits { result ≡ others_of plan }
    ensures members { result < 2 ^ plan.members }
{
    let (mut to, mut bit) = (0u16, 1u16);
    for below in 0..plan.members {
        if below + 1 != plan.member {
            to += bit;
        }
        bit *= 2;
    }
    to as u8
}

// Posts these reports, that of shard 0 first.
fn post_each(
    alloc: Global,
    courier: &mut Courier,
    to: u8,
    reports: &ReportList,
) -> Result<(), Memory>
    requires few { length reports.now ≤ 32 }
    requires stage { courier.old.stage ≡ Open }
    requires to { to < 2 ^ length (passes_of courier.old) }
    ensures carries { CarriesOn courier.old courier.new }
    ensures posted { OnOk result (courier.new.posted ≡ courier.old.posted ++ posted_from to 0 reports.now) }
{
    for shard in 0..reports.len() {
        post_at(alloc, courier, to, reports, shard)?;
    }
    Ok(())
}

// Posts the report of one shard.
fn post_at(
    alloc: Global,
    courier: &mut Courier,
    to: u8,
    reports: &ReportList,
    shard: usize,
) -> Result<(), Memory>
    requires few { length reports.now ≤ 32 }
    requires shard { shard < length reports.now }
    requires stage { courier.old.stage ≡ Open }
    requires to { to < 2 ^ length (passes_of courier.old) }
    ensures carries { CarriesOn courier.old courier.new }
    ensures posted { OnOk result (PostsReport to shard reports.now courier.old.posted courier.new.posted) }
{
    let Some(report) = reports.get(shard) else {
        unreachable!()
    };
    let mail = Mail::Report {
        shard: shard as u8,
        report: Shared::new(alloc, report.copy(alloc)?)?,
    };
    Ok(courier.post(alloc, &mail, to)?)
}
