// One mail: taken, and followed.
ghost use Rattle.std.specs.Prelude.{◌≡◌, ◌<◌, ◌∷◌, ◌++◌, [], List, length, IfNone, IfSome, OnOk};
ghost use Rattle.gr_post.specs.declared.mail.Mail.TheVariants as mails;
ghost use Rattle.gr_post.specs.declared.mail.Posted.{Posted};
ghost use Rattle.gr_member.specs.Passes.{IsPassOf, StaysAll};
ghost use Rattle.gr_host.specs.Ends.{AreEnds};
ghost use Rattle.gr_host.specs.Mails.{TakesOne};
ghost use Rattle.gr_host.specs.Works.{Follows};

use crate::ends::Ends;
use gr_member::{Member, Pass, Plan};
use gr_post::{Inbox, Mail, TakePass};
use gr_value::Memory;
use gr_vector::Report;
use std::alloc::Global;
use std::sync::Wait;

// Takes the first mail, if there is one, and marks its sender where it is an `End`.
pub(crate) fn take<R: Wait + Sync>(
    rt: &R,
    inbox: &Inbox,
    pass: &mut TakePass,
    ends: &mut Ends,
) -> Option<Mail>
    requires its { pass.old.table ≡ inbox.now.table }
    requires ends { AreEnds pass.old.senders pass.old.taken ends.old }
    ensures ends { AreEnds pass.new.senders pass.new.taken ends.new }
    ensures some { IfSome result (λ mail. TakesOne pass.old mail pass.new) }
    ensures none { IfNone result ((pass.new ≡ pass.old) × (ends.new ≡ ends.old)) }
{
    let mail = inbox.take(rt, pass)?;
    mark(ends, pass.sender(), &mail);
    Some(mail)
}

// Marks a mail's sender, where the mail is an `End`.
fn mark(ends: &mut Ends, sender: u32, mail: &Mail)
    requires { sender < length ends.old }
    ensures { (taken : List Posted) → let one : Posted = record { from = sender; mail = mail.now } in
        AreEnds (length ends.old) taken ends.old → AreEnds (length ends.old) (taken ++ one ∷ []) ends.new }
{
    if let Mail::End = mail {
        ends.mark(sender);
    }
}

// Does what a mail asks for: takes in its change, or hears its report, where that is of a shard that there is.
pub(crate) fn follow<R: Wait + Sync>(
    rt: &R,
    alloc: Global,
    member: &Member,
    plan: Plan,
    pass: &mut Pass,
    mail: &Mail,
) -> Result<(), Memory>
    requires pass { IsPassOf member.now pass.old }
    requires plan { plan ≡ member.now.plan }
    ensures stays { StaysAll pass.old pass.new }
    ensures done { OnOk result (Follows plan.shards mail.now pass.old pass.new) }
{
    match mail {
        Mail::Change { shard: _, change } => {
            member.take_in(rt, alloc, pass, change)?;
            Ok(())
        }
        Mail::Report { shard, report } => {
            Ok(hear(rt, alloc, member, plan, pass, *shard, report.get())?)
        }
        Mail::End => Ok(()),
    }
}

// Hears a report, where it is of a shard that there is.
fn hear<R: Wait + Sync>(
    rt: &R,
    alloc: Global,
    member: &Member,
    plan: Plan,
    pass: &mut Pass,
    shard: u8,
    report: &Report,
) -> Result<(), Memory>
    requires pass { IsPassOf member.now pass.old }
    requires plan { plan ≡ member.now.plan }
    ensures stays { StaysAll pass.old pass.new }
    ensures done { OnOk result (Follows plan.shards (mails.Report shard report.now) pass.old pass.new) }
{
    if shard >= plan.shards {
        return Ok(());
    }
    Ok(member.hear(rt, alloc, pass, shard, report)?)
}
