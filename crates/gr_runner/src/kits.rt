// What all threads are given before any member is made.
ghost use Rattle.std.specs.Prelude.{◌≡◌, ◌==◌, ◌≤◌, ◌+◌, ◌-◌, not, length, map, option_map, IfOk, OnOk};
ghost use Rattle.std.specs.List.{filter_map};
ghost use Rattle.gr_post.specs.Plan.{first_number};
ghost use Rattle.gr_script.specs.Rules.{IsMember, IsStated, home_of};
ghost use Rattle.gr_script.specs.Scripts.{heading_of};
ghost use Rattle.gr_script.specs.Steps.{is_join_of, joins_of};
ghost use Rattle.gr_run_law.specs.Duties.{duty_of};
ghost use Rattle.gr_host.specs.Works.{duty_is};
ghost use Rattle.gr_runner.specs.Mailing.{HaveSenders, IsOpen};
ghost use Rattle.gr_runner.specs.Kits.{AreKits, EachFrom, GivesLast, HaveMembers, HaveSome, IsClientKit, IsMemberKit};
ghost use Rattle.gr_runner.specs.Stepping.{AreStepsOf};

use crate::mailing::Mailing;
use crate::making::plan_of;
use crate::slots::{ClientKit, MemberKit};
use crate::stepping::steps_each;
use gr_host::{Duty, DutyList, Ends};
use gr_post::Courier;
use gr_script::{Line, Script, StepList};
use gr_value::Memory;
use std::alloc::Global;

// The couriers of members have numbers behind those of so many clients.
const CLIENTS: u8 = 64;

/// What all threads are given, the first client and the first member first.
#[derive(Drop)]
pub struct Kits {
    pub clients: Vec<ClientKit>,
    pub members: Vec<MemberKit>,
}

impl Kits {
    /// What the script gives each thread. All passes are dealt, the last sender's first.
    pub fn new(alloc: Global, script: &Script, sends: &mut Mailing) -> Result<Kits, Memory>
        requires { IsOpen script.now.members (length script.now.clients + script.now.members) sends.old.inboxes
            sends.old.sends.items sends.old.takes.items }
        ensures inboxes { sends.new.inboxes ≡ sends.old.inboxes }
        ensures kits { IfOk result (AreKits (heading_of script.now) script.now.lines sends.new.inboxes) }
    {
        let members = member_kits(alloc, script, sends)?;
        let clients = client_kits(alloc, script, sends)?;
        Ok(Kits { clients, members })
    }
}

// What each member's thread is given, that of member 1 first.
fn member_kits(
    alloc: Global,
    script: &Script,
    sends: &mut Mailing,
) -> Result<Vec<MemberKit>, Memory>
    requires { HaveMembers (heading_of script.now) sends.old.inboxes script.now.members sends.old.sends.items sends.old.takes.items }
    ensures inboxes { sends.new.inboxes ≡ sends.old.inboxes }
    ensures left { OnOk result (HaveSenders sends.old.inboxes (length script.now.clients) sends.new.sends.items) }
    ensures many { IfOk result (λ kits. length kits.items ≡ script.now.members) }
    ensures kits { IfOk result (λ kits. EachFrom (IsMemberKit (heading_of script.now) script.now.lines sends.old.inboxes) 1 kits.items) }
{
    let mut kits = Vec::new(alloc);
    for k in 0..script.members {
        let kit = member_kit(alloc, script, sends, script.members - k)?;
        kits.push(kit)?;
    }
    kits.reverse();
    Ok(kits)
}

// What the thread of the last member is given that has none yet.
fn member_kit(
    alloc: Global,
    script: &Script,
    sends: &mut Mailing,
    member: u8,
) -> Result<MemberKit, Memory>
    requires member { IsMember (heading_of script.now) member }
    requires left { HaveMembers (heading_of script.now) sends.old.inboxes member sends.old.sends.items sends.old.takes.items }
    ensures inboxes { sends.new.inboxes ≡ sends.old.inboxes }
    ensures left { OnOk result (HaveMembers (heading_of script.now) sends.old.inboxes (member - 1) sends.new.sends.items
        sends.new.takes.items) }
    ensures kit { IfOk result (IsMemberKit (heading_of script.now) script.now.lines sends.old.inboxes member) }
{
    let courier = last_courier(alloc, script, sends, CLIENTS + member)?;
    let Some(take) = sends.takes.pop() else {
        unreachable!()
    };
    let senders = script.clients.len() as u32 + u32::from(script.members);
    Ok(MemberKit {
        plan: plan_of(script, member),
        duties: duties_of(alloc, script, member)?,
        take,
        courier,
        ends: Ends::new(alloc, senders)?,
    })
}

// What each client's thread is given, that of client 1 first.
fn client_kits(
    alloc: Global,
    script: &Script,
    sends: &mut Mailing,
) -> Result<Vec<ClientKit>, Memory>
    requires few { length sends.old.inboxes ≤ 8 }
    requires left { HaveSenders sends.old.inboxes (length script.now.clients) sends.old.sends.items }
    ensures inboxes { sends.new.inboxes ≡ sends.old.inboxes }
    ensures many { IfOk result (λ kits. length kits.items ≡ length script.now.clients) }
    ensures kits { IfOk result (λ kits. EachFrom (IsClientKit (heading_of script.now) script.now.lines sends.old.inboxes) 1 kits.items) }
{
    let mut each = steps_each(alloc, script)?;
    let mut kits = Vec::new(alloc);
    let count = script.clients.len() as u8;
    for k in 0..count {
        let kit = client_kit(alloc, script, &mut each, sends, count - k)?;
        kits.push(kit)?;
    }
    kits.reverse();
    Ok(kits)
}

// What the thread of the last client is given that has none yet. Its steps are the last of each that are left.
fn client_kit(
    alloc: Global,
    script: &Script,
    each: &mut Vec<StepList>,
    sends: &mut Mailing,
    client: u8,
) -> Result<ClientKit, Memory>
    requires client { IsStated client (heading_of script.now) }
    requires few { length sends.old.inboxes ≤ 8 }
    requires left { HaveSenders sends.old.inboxes client sends.old.sends.items }
    requires steps { AreStepsOf script.now.lines client each.old.items }
    ensures inboxes { sends.new.inboxes ≡ sends.old.inboxes }
    ensures steps { OnOk result (AreStepsOf script.now.lines (client - 1) each.new.items) }
    ensures left { OnOk result (HaveSenders sends.old.inboxes (client - 1) sends.new.sends.items) }
    ensures kit { IfOk result (IsClientKit (heading_of script.now) script.now.lines sends.old.inboxes client) }
{
    let courier = last_courier(alloc, script, sends, client)?;
    let home = home_of(script, client);
    let Some(steps) = each.pop() else {
        unreachable!()
    };
    Ok(ClientKit {
        client,
        plan: plan_of(script, home),
        waits: joins(script, home),
        steps,
        courier,
    })
}

// The courier with this number, for the last sender whose passes are left.
fn last_courier(
    alloc: Global,
    script: &Script,
    sends: &mut Mailing,
    number: u8,
) -> Result<Courier, Memory>
    requires number { (1 ≤ number) × (number ≤ 72) }
    requires few { length sends.old.inboxes ≤ 8 }
    requires left { HaveSome sends.old.inboxes sends.old.sends.items }
    ensures inboxes { sends.new.inboxes ≡ sends.old.inboxes }
    ensures takes { sends.new.takes ≡ sends.old.takes }
    ensures courier { IfOk result (λ courier. GivesLast sends.old.inboxes (first_number script.now.trouble number) sends.old.sends.items
        courier sends.new.sends.items) }
{
    let passes = sends.last_sender(alloc)?;
    Ok(Courier::new(alloc, number, script.trouble, passes)?)
}

// The client's member.
fn home_of(script: &Script, client: u8) -> u8
    requires { IsStated client (heading_of script.now) }
    ensures home { result ≡ home_of (heading_of script.now) client }
    ensures member { IsMember (heading_of script.now) result }
{
    script.clients.as_slice()[usize::from(client - 1)]
}

// Whether a line has the member join. A founder's never does, so that mostly no line is looked at.
fn joins(script: &Script, member: u8) -> bool
    ensures { result ≡ not (joins_of member script.now.lines == 0) }
{
    if member <= script.founders {
        return false;
    }
    joins_of(script, member) != 0
}

// How many lines have the member join.
fn joins_of(script: &Script, member: u8) -> usize
    ensures { result ≡ joins_of member script.now.lines }
{
    let mut count = 0;
    for line in script.lines.as_slice() {
        if is_join_of(line, member) {
            count += 1;
        }
    }
    count
}

fn is_join_of(line: &Line, member: u8) -> bool
    ensures { result ≡ is_join_of member line.now }
{
    match line {
        Line::Join {
            member: own,
            from: _,
        } => *own == member,
        _ => false,
    }
}

// What the member's lines have it do, in order.
fn duties_of(alloc: Global, script: &Script, member: u8) -> Result<DutyList, Memory>
    ensures { IfOk result (λ duties. map duty_is duties ≡ filter_map (duty_of member) script.now.lines) }
{
    let mut duties = DutyList::new(alloc)?;
    for line in script.lines.as_slice() {
        if let Some(duty) = duty_of(line, member) {
            duties.push(duty)?;
        }
    }
    Ok(duties)
}

// What the line has the member do.
fn duty_of(line: &Line, member: u8) -> Option<Duty>
    ensures { option_map duty_is result ≡ duty_of member line.now }
{
    match line {
        Line::Report { member: own } if *own == member => Some(Duty::Report),
        Line::Sweep {
            member: own,
            moment,
        } if *own == member => Some(Duty::Sweep { moment: *moment }),
        Line::Join { member: own, from } if *own == member => Some(Duty::Join { from: *from }),
        _ => None,
    }
}
