// How passes are dealt: at each member one is kept, and the others go to threads.
ghost use Rattle.std.specs.Prelude.{◌≡◌, ◌<◌, ◌≤◌, ◌-◌, ◌+◌, ◌∷◌, [], List, length, vec_len, vec_capacity, slice_index_or};
ghost use Rattle.std.specs.List.{AllByRecursion};
ghost use Rattle.gr_script.specs.Scripts.{heading_of};
ghost use Rattle.gr_member.specs.Passes.{House};
ghost use Rattle.gr_member.specs.Seats.{Place};
ghost use Rattle.gr_runner.specs.Dealing.{AddsClients, AreAtHome, AreCounted, AreDealt, AreDealtTo, AreForClients, AreMemberSlots, AreRooms};
ghost use Rattle.gr_runner.specs.Makings.{AreMade};
ghost use Rattle.gr_runner.specs.Dealing.{AreRoomsOf, AreToCome, HaveEnough, HaveFewer, IsClientSlot, IsDealt, IsMemberSlot, IsRoom};

use crate::gathering::Left;
use crate::rooms::Rooms;
use crate::slots::{ClientKit, MemberKit, Slot, Worker};
use crate::taking::{take_at, take_each, visits_of};
use gr_host::Host;
use gr_member::{Pass, PassList};
use gr_script::Script;
use gr_session::{Client, Session};
use std::alloc::Global;

/// What was dealt: the threads, those of members first, member 1 first, and behind them those of clients,
/// client 1 first; a pass that is kept at each member; and room for what all threads leave.
pub struct Dealt {
    pub slots: Vec<Slot>,
    pub desks: Vec<Pass>,
    pub lefts: Vec<Left>,
}

/// Deals the passes of all members to the threads of all kits, so that none is left.
pub fn deal(
    alloc: Global,
    script: &Script,
    passes: Vec<PassList>,
    clients: Vec<ClientKit>,
    members: Vec<MemberKit>,
    rooms: Rooms,
) -> Dealt
    requires passes { AreCounted (heading_of script.now) passes.items }
    requires clients { AreAtHome (heading_of script.now) clients.items }
    requires members { vec_len members ≡ script.now.members }
    requires rooms { AreRoomsOf (heading_of script.now) rooms }
    ensures all { IsDealt (heading_of script.now) passes.items clients.items members.items result }
    ensures new { (houses : List House) → AreMade (heading_of script.now) script.now.members houses passes.items
        → AreDealt (heading_of script.now) houses result }
    ensures homes { AllByRecursion (λ slot. slot.home < script.now.members) result.slots.items }
{
    let Rooms {
        visits,
        slots,
        desks,
        lefts,
    } = rooms;
    let mut passes = passes;
    let desks = take_each(&mut passes, desks);
    let slots = deal_members(script, &mut passes, members, visits, slots);
    let slots = deal_clients(alloc, script, &mut passes, clients, slots);
    end_each(passes);
    Dealt {
        slots,
        desks,
        lefts,
    }
}

// The threads of all members get their passes.
fn deal_members(
    script: &Script,
    passes: &mut Vec<PassList>,
    kits: Vec<MemberKit>,
    rooms: Vec<Vec<Pass>>,
    room: Vec<Slot>,
) -> Vec<Slot>
    requires kits { vec_len kits ≡ script.now.members }
    requires rooms { AreRooms script.now.members script.now.members rooms.items }
    requires room { IsRoom (script.now.members + length script.now.clients) room }
    requires come { AreToCome (heading_of script.now) 0 passes.old.items }
    ensures come { AreToCome (heading_of script.now) script.now.members passes.new.items }
    ensures slots { AreMemberSlots (heading_of script.now) kits.items result.items }
    ensures dealt { AreDealtTo passes.old.items result.items passes.new.items }
    ensures room { script.now.members + length script.now.clients ≤ vec_capacity result }
{
    let founders = usize::from(script.founders);
    let mut rooms = rooms;
    let mut slots = room;
    for kit in kits {
        let Some(room) = rooms.pop() else {
            unreachable!()
        };
        let home = slots.len();
        let slot = deal_member(passes, room, home, founders <= home, kit);
        slots.push_reserved(slot);
    }
    rooms.destroy_empty();
    slots
}

// The threads of all clients get their passes, and stand behind these.
fn deal_clients(
    alloc: Global,
    script: &Script,
    passes: &mut Vec<PassList>,
    kits: Vec<ClientKit>,
    front: Vec<Slot>,
) -> Vec<Slot>
    requires kits { AreAtHome (heading_of script.now) kits.items }
    requires room { vec_len front + length script.now.clients ≤ vec_capacity front }
    requires come { AreForClients (heading_of script.now) 0 passes.old.items }
    ensures none { AllByRecursion (λ left. left ≡ []) passes.new.items }
    ensures added { AddsClients passes.old.items kits.items front.items result.items passes.new.items }
{
    let mut slots = front;
    for kit in kits {
        let slot = deal_client(alloc, passes, kit);
        slots.push_reserved(slot);
    }
    slots
}

// Lets go of lists with no pass.
fn end_each(passes: Vec<PassList>)
    requires { AllByRecursion (λ left. left ≡ []) passes.items }
{
    let mut passes = passes;
    while let Some(left) = passes.pop() {
        left.end();
    }
    passes.destroy_empty();
}

// A member's thread gets its own pass, and one of each member where it joins.
fn deal_member(
    passes: &mut Vec<PassList>,
    room: Vec<Pass>,
    home: usize,
    joins: bool,
    kit: MemberKit,
) -> Slot
    requires there { home < vec_len passes.old }
    requires room { IsRoom (vec_len passes.old) room }
    requires enough { HaveEnough home joins passes.old.items }
    ensures slot { IsMemberSlot (vec_len passes.old) home joins kit result }
    ensures dealt { AreDealtTo passes.old.items (result ∷ []) passes.new.items }
    ensures fewer { HaveFewer home joins passes.old.items passes.new.items }
{
    let visits = visits_of(passes, room, joins);
    let pass = take_at(passes, home);
    let MemberKit {
        plan,
        duties,
        take,
        courier,
        ends,
    } = kit;
    Slot {
        home,
        worker: Some(Worker::Member(Host {
            plan,
            duties,
            pass,
            visits,
            take,
            courier,
            ends,
        })),
        left: None,
    }
}

// A client's thread gets a pass of its member.
fn deal_client(alloc: Global, passes: &mut Vec<PassList>, kit: ClientKit) -> Slot
    requires some { 1 ≤ kit.plan.member }
    requires there { kit.plan.member ≤ vec_len passes.old }
    requires enough { (x : List (List Place)) → 1 ≤ length (slice_index_or passes.old.items (kit.plan.member - 1) x) }
    ensures slot { IsClientSlot kit result }
    ensures dealt { AreDealtTo passes.old.items (result ∷ []) passes.new.items }
{
    let home = usize::from(kit.plan.member) - 1;
    let pass = take_at(passes, home);
    let ClientKit {
        client,
        plan,
        waits,
        steps,
        courier,
    } = kit;
    let session = Session::new(alloc, client, plan, steps, pass, courier);
    Slot {
        home,
        worker: Some(Worker::Client(Client { session, waits })),
        left: None,
    }
}
