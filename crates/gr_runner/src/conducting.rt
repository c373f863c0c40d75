// A run from the moment that all passes are dealt until all mail is accounted for.
ghost use Rattle.std.specs.Prelude.{◌≡◌, ◌≢◌, ◌≤◌, ◌<◌, ℕ, List, length, map, reverse, slice_index_or, vec_len, true, None, Some, IfSome};
ghost use Rattle.std.specs.List.{All, AllByRecursion, filter_map};
ghost use Rattle.std.specs.Vec.{vec_capacity};
ghost use Rattle.gr_script.specs.declared.line.Line.{Line};
ghost use Rattle.gr_script.specs.Rules.{Heading};
ghost use Rattle.gr_host.specs.Houses.{ArePassesOf};
ghost use Rattle.gr_runner.specs.Gathering.{DesksKnow, IsLeftAt};
ghost use Rattle.gr_runner.specs.Slots.{HasRun, IsSlotAt};
ghost use Rattle.gr_runner.specs.Going.{HasGoneBy, IsReady, IsToldBy, WasReady};
ghost use Rattle.gr_runner.specs.Receipts.{ring_tables, send_tables, take_tables};
ghost use Rattle.gr_runner.specs.Sorting.{sends_in, take_in};

use crate::dealing::Dealt;
use crate::gathering::{Left, News, gather};
use crate::receipts::meet_mail;
use crate::running::play;
use crate::slots::Slot;
use crate::sorting::Sorted;
use gr_history::ClientRecordList;
use gr_member::{Member, Pass};
use gr_post::InboxList;
use gr_session::Gate;
use std::alloc::Global;
use std::sync::Wait;
use std::sync::atomic::AtomicBool;
use std::thread::Threads;

/// What threads leave in the end: a pass at each member that knows all of it, and what clients were told,
/// unless memory was refused.
pub struct Conducted {
    pub desks: Vec<Pass>,
    pub told: Option<ClientRecordList>,
}

/// Runs all threads, and gathers what they leave.
pub fn conduct<R: Threads + Wait + Sync, G: Gate>(
    rt: &R,
    alloc: Global,
    gate: &G,
    members: &[Member],
    inboxes: &InboxList,
    refused: &[AtomicBool],
    dealt: Dealt,
    news: Vec<News>,
) -> Conducted
    requires ready { WasReady members.now inboxes.now dealt }
    requires flags { length refused.now ≡ length members.now }
    requires none { vec_len news ≡ 0 }
    requires room { vec_len dealt.slots ≤ vec_capacity news }
    requires space { (vec_len dealt.lefts ≡ 0) × (vec_len dealt.slots ≤ vec_capacity dealt.lefts) }
    ensures desks { ArePassesOf members.now result.desks.items }
    ensures gone { IfSome result.told (λ told. (h : Heading) (lines : List Line) → IsReady h lines members.now inboxes.now dealt
        → HasGoneBy h lines members.now inboxes.now result.desks.items told) }
{
    let Dealt {
        slots,
        desks,
        lefts,
    } = dealt;
    let slots = play_all(rt, alloc, gate, members, inboxes, refused, slots);
    let lefts = lefts_of(slots, lefts);
    let Gathered { desks, news, well } = gather_all(members, desks, lefts, news);
    let told = account_if(alloc, inboxes, news, well);
    Conducted { desks, told }
}

// Runs the threads of all slots.
fn play_all<R: Threads + Wait + Sync, G: Gate>(
    rt: &R,
    alloc: Global,
    gate: &G,
    members: &[Member],
    inboxes: &InboxList,
    refused: &[AtomicBool],
    slots: Vec<Slot>,
) -> Vec<Slot>
    requires at { All (IsSlotAt members.now inboxes.now) slots.items }
    requires left { All (λ slot. slot.left ≡ None) slots.items }
    requires flags { length refused.now ≡ length members.now }
    ensures many { length result.items ≡ length slots.items }
    ensures each { (k : ℕ) (s : _) → k < length slots.items → HasRun (slice_index_or slots.items k s) (slice_index_or result.items k s) }
    ensures gone { All (λ slot. slot.worker ≡ None) result.items }
{
    let mut slots = slots;
    play(rt, alloc, members, inboxes, gate, refused, &mut slots);
    slots
}

// What was gathered: the passes that are kept, all news, and whether each thread had some.
struct Gathered {
    desks: Vec<Pass>,
    news: Vec<News>,
    well: bool,
}

// Gathers what all threads left.
fn gather_all(members: &[Member], desks: Vec<Pass>, lefts: Vec<Left>, news: Vec<News>) -> Gathered
    requires desks { ArePassesOf members.now desks.items }
    requires its { AllByRecursion (IsLeftAt members.now) lefts.items }
    requires none { vec_len news ≡ 0 }
    requires room { vec_len lefts ≤ vec_capacity news }
    ensures desks { ArePassesOf members.now result.desks.items }
    ensures gathers { DesksKnow desks.items result.desks.items lefts.items }
    ensures news { result.well ≡ true → map (λ one. Some one) result.news.items ≡ map (λ left. left.news) (reverse lefts.items) }
{
    let mut desks = desks;
    let mut news = news;
    let well = gather(members, &mut desks, lefts, &mut news);
    Gathered { desks, news, well }
}

// The same where all threads had news, else nothing.
fn account_if(
    alloc: Global,
    inboxes: &InboxList,
    news: Vec<News>,
    well: bool,
) -> Option<ClientRecordList>
    requires takes { well ≡ true → take_tables (filter_map take_in (reverse news.items)) ≡ ring_tables inboxes.now }
    requires sends { well ≡ true → AllByRecursion (λ passes. send_tables passes ≡ ring_tables inboxes.now) (map sends_in (reverse news.items)) }
    ensures { IfSome result (λ told. (well ≡ true) × IsToldBy (reverse news.items) told) }
{
    if well {
        account(alloc, inboxes, news)
    } else {
        None
    }
}

// What all threads left, in the order of their slots.
fn lefts_of(slots: Vec<Slot>, room: Vec<Left>) -> Vec<Left>
    requires gone { All (λ slot. slot.worker ≡ None) slots.items }
    requires left { AllByRecursion (λ slot. slot.left ≢ None) slots.items }
    requires none { vec_len room ≡ 0 }
    requires space { vec_len slots ≤ vec_capacity room }
    ensures { map (λ left. Some left) result.items ≡ map (λ slot. slot.left) slots.items }
{
    let mut rest = slots;
    let mut lefts = room;
    while let Some(slot) = rest.pop() {
        let Slot {
            home: _,
            worker,
            left,
        } = slot;
        let None = worker else { unreachable!() };
        let Some(left) = left else { unreachable!() };
        lefts.push_reserved(left);
    }
    rest.destroy_empty();
    lefts.as_mut_slice().reverse();
    lefts
}

// What clients were told, once each taker of mail was told what its senders sent.
fn account(alloc: Global, inboxes: &InboxList, news: Vec<News>) -> Option<ClientRecordList>
    requires takes { take_tables (filter_map take_in (reverse news.items)) ≡ ring_tables inboxes.now }
    requires sends { AllByRecursion (λ passes. send_tables passes ≡ ring_tables inboxes.now) (map sends_in (reverse news.items)) }
    ensures { IfSome result (IsToldBy (reverse news.items)) }
{
    let Ok(sorted) = Sorted::new(alloc, news) else {
        return None;
    };
    let Sorted {
        told,
        mut takes,
        sends,
    } = sorted;
    meet_mail(inboxes, &mut takes, sends);
    Some(told)
}
