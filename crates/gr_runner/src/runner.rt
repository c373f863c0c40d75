// A run of a script, from its beginning to its record.
ghost use Rattle.std.specs.Prelude.{◌≡◌, ◌≤◌, ◌+◌, length, vec_len, Some, IfOk, IfSome};
ghost use Rattle.std.specs.List.{AllByRecursion};
ghost use Rattle.std.specs.Vec.{vec_capacity};
ghost use Rattle.gr_script.specs.Scripts.{heading_of};
ghost use Rattle.gr_run_law.specs.Records.{IsRecordOfRun};
ghost use Rattle.gr_run_law.specs.Threads.{IsLeftByThreads};
ghost use Rattle.gr_member.specs.Passes.{HaveAll};
ghost use Rattle.gr_host.specs.Houses.{ArePassesOf};
ghost use Rattle.gr_runner.specs.Dealing.{AreRoomsOf};
ghost use Rattle.gr_runner.specs.Ending.{AreEnded};
ghost use Rattle.gr_runner.specs.Kits.{AreKits};

use crate::conducting::{Conducted, conduct};
use crate::dealing::deal;
use crate::ending::{end_all, stop_members};
use crate::gathering::News;
use crate::kits::Kits;
use crate::mailing::Mailing;
use crate::making::make;
use crate::rooms::Rooms;
use gr_history::{ClientRecordList, Record};
use gr_member::{Member, Pass};
use gr_post::InboxList;
use gr_script::Script;
use gr_session::Gate;
use gr_value::Memory;
use std::alloc::Global;
use std::sync::Wait;
use std::sync::atomic::AtomicBool;
use std::thread::Threads;

/// Runs a script, with a thread for each client and one for each member. The gate is told of each step of a
/// client. A run that is refused memory ends all the same, with no record. Where a thread can't be started, its
/// work is done after another's, and the run may then not return.
pub fn run<R: Threads + Wait + Sync, G: Gate>(
    rt: &R,
    alloc: Global,
    script: &Script,
    gate: &G,
) -> Result<Record, Memory>
    ensures left { IfOk result (IsLeftByThreads (heading_of script.now) script.now.lines) }
    ensures lawful { IfOk result (IsRecordOfRun (heading_of script.now) script.now.lines) }
{
    let SetUp {
        inboxes,
        kits,
        signs,
        news,
        rooms,
    } = set_up(alloc, script)?;
    let Ok((members, passes)) = make(rt, alloc, script) else {
        rooms.let_go();
        return Err(Memory);
    };
    let Kits {
        clients,
        members: hosts,
    } = kits;
    let dealt = deal(alloc, script, passes, clients, hosts, rooms);
    let Conducted { desks, told } = conduct(
        rt, alloc, gate, &members, &inboxes, &signs, dealt, news,
    );
    end_run(rt, alloc, members, desks, told)
}

// What is made before any member: inboxes, kits, a sign for each member that its thread was refused memory,
// and room.
struct SetUp {
    inboxes: InboxList,
    kits: Kits,
    signs: Vec<AtomicBool>,
    news: Vec<News>,
    rooms: Rooms,
}

fn set_up(alloc: Global, script: &Script) -> Result<SetUp, Memory>
    ensures kits { IfOk result (λ made. AreKits (heading_of script.now) script.now.lines made.inboxes made.kits) }
    ensures inboxes { IfOk result (λ made. length made.inboxes ≡ script.now.members) }
    ensures signs { IfOk result (λ made. vec_len made.signs ≡ script.now.members) }
    ensures none { IfOk result (λ made. vec_len made.news ≡ 0) }
    ensures news { IfOk result (λ made. script.now.members + length script.now.clients ≤ vec_capacity made.news) }
    ensures rooms { IfOk result (λ made. AreRoomsOf (heading_of script.now) made.rooms) }
{
    let members = script.members;
    let threads = script.clients.len() + usize::from(members);
    let mut mailing = Mailing::new(alloc, members, threads as u32, script.inbox)?;
    let kits = Kits::new(alloc, script, &mut mailing)?;
    let Mailing {
        inboxes,
        sends: _,
        takes: _,
    } = mailing;
    let signs = signs_of(alloc, members)?;
    let news = Vec::with_capacity(alloc, threads)?;
    let rooms = Rooms::new(alloc, script)?;
    Ok(SetUp {
        inboxes,
        kits,
        signs,
        news,
        rooms,
    })
}

// A sign for each member, none of which is raised.
fn signs_of(alloc: Global, members: u8) -> Result<Vec<AtomicBool>, Memory>
    ensures { IfOk result (λ signs. vec_len signs ≡ members) }
{
    let mut signs = Vec::with_capacity(alloc, usize::from(members))?;
    for _k in 0..members {
        signs.push_reserved(AtomicBool::new(false));
    }
    Ok(signs)
}

// Ends all members, with a record where clients' threads and members' threads all told theirs.
fn end_run<R: Wait>(
    rt: &R,
    alloc: Global,
    members: Vec<Member>,
    desks: Vec<Pass>,
    told: Option<ClientRecordList>,
) -> Result<Record, Memory>
    requires its { ArePassesOf members.items desks.items }
    requires all { IfSome told (λ _. AllByRecursion HaveAll desks.items) }
    ensures told { IfOk result (λ record_of. told ≡ Some record_of.clients) }
    ensures ended { IfOk result (λ record_of. AreEnded members.items desks.items record_of.members) }
{
    let Some(clients) = told else {
        stop_members(rt, members, desks);
        return Err(Memory);
    };
    let members = end_all(rt, alloc, members, desks)?;
    Ok(Record { members, clients })
}
