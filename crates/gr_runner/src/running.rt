// The threads of a run: each slot's worker runs in one of its own, and leaves its passes and its news.
ghost use Rattle.std.specs.Prelude.{◌≡◌, ◌<◌, ℕ, length, slice_index_or, None};
ghost use Rattle.std.specs.List.{All};
ghost use Rattle.std.specs.Thread.{IsSync};
ghost use Rattle.gr_runner.specs.Slots.{HasRun, IsClientAt, IsSlotAt, IsThreadAt, LeavesOfClient, LeavesOfMember};

use crate::gathering::{Left, News};
use crate::slots::{Slot, Worker};
use gr_host::{Host, Hosted};
use gr_member::Member;
use gr_post::InboxList;
use gr_session::{Attended, Client, Gate};
use std::alloc::Global;
use std::sync::Wait;
use std::sync::atomic::AtomicBool;
use std::thread::{self, Threads};

/// Runs the workers of all slots, each in a thread of its own where one can be made. There is a sign for each
/// member, which its thread raises where it was refused memory.
pub fn play<R: Threads + Wait + Sync, G: Gate>(
    rt: &R,
    alloc: Global,
    members: &[Member],
    inboxes: &InboxList,
    gate: &G,
    refused: &[AtomicBool],
    slots: &mut [Slot],
)
    requires at { All (IsSlotAt members.now inboxes.now) slots.old }
    requires left { All (λ slot. slot.left ≡ None) slots.old }
    requires flags { length refused.now ≡ length members.now }
    ensures many { length slots.new ≡ length slots.old }
    ensures each { (k : ℕ) (s : _) → k < length slots.old → HasRun (slice_index_or slots.old k s) (slice_index_or slots.new k s) }
    ensures gone { All (λ slot. slot.worker ≡ None) slots.new }
{
    let count = slots.len();
    if count == 0 {
        return;
    }
    let one = |_: usize, slot: &mut Slot|
        requires { IsSync R.row × IsSync G.row × IsSlotAt members.now inboxes.now slot.now × (slot.now.left ≡ None)
            × (length refused.now ≡ length members.now) }
        ensures { HasRun slot.entry.now slot.exit.now × (slot.exit.now.worker ≡ None) }
    { work(rt, alloc, members, inboxes, gate, refused, slot) };
    thread::for_each_mut(rt, slots, count, &one);
}

// Runs the worker of a slot.
fn work<R: Wait + Sync, G: Gate>(
    rt: &R,
    alloc: Global,
    members: &[Member],
    inboxes: &InboxList,
    gate: &G,
    refused: &[AtomicBool],
    slot: &mut Slot,
)
    requires at { IsSlotAt members.now inboxes.now slot.old }
    requires left { slot.old.left ≡ None }
    requires flags { length refused.now ≡ length members.now }
    ensures ran { HasRun slot.old slot.new }
    ensures gone { slot.new.worker ≡ None }
{
    let home = slot.home;
    let left = match slot.worker.take() {
        Some(Worker::Client(client)) => {
            work_client(rt, alloc, members, inboxes, gate, refused, home, client)
        }
        Some(Worker::Member(host)) => {
            work_member(rt, alloc, members, inboxes, refused, home, host)
        }
        None => unreachable!(),
    };
    let before = slot.left.replace(left);
    let None = before else { unreachable!() };
}

// Does all that the thread of a client does at the member of this place.
fn work_client<R: Wait + Sync, G: Gate>(
    rt: &R,
    alloc: Global,
    members: &[Member],
    inboxes: &InboxList,
    gate: &G,
    refused: &[AtomicBool],
    home: usize,
    client: Client,
) -> Left
    requires at { IsClientAt members.now inboxes.now home client }
    requires flags { length refused.now ≡ length members.now }
    ensures { LeavesOfClient home client result }
{
    let member = &members[home];
    let Attended { pass, told } = client.attend(rt, alloc, member, inboxes, gate, &refused[home]);
    Left {
        home,
        pass,
        visits: Vec::new(alloc),
        news: match told {
            Some((told, sends)) => Some(News::Client { told, sends }),
            None => None,
        },
    }
}

// Does all that the thread of the member of this place does.
fn work_member<R: Wait + Sync>(
    rt: &R,
    alloc: Global,
    members: &[Member],
    inboxes: &InboxList,
    refused: &[AtomicBool],
    home: usize,
    host: Host,
) -> Left
    requires at { IsThreadAt members.now inboxes.now home host }
    requires flags { length refused.now ≡ length members.now }
    ensures { LeavesOfMember home host result }
{
    let Hosted { pass, visits, mail } = host.serve(rt, alloc, members, inboxes, &refused[home]);
    Left {
        home,
        pass,
        visits,
        news: match mail {
            Some((take, sends)) => Some(News::Member { take, sends }),
            None => None,
        },
    }
}
