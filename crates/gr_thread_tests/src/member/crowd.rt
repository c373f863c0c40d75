// A thread for each pass, and what they leave.
ghost use Rattle.std.specs.Prelude.{◌≡◌, ◌≤◌, ◌<◌, ℕ, length, vec_len, vec_capacity, slice_index_or};
ghost use Rattle.std.specs.Thread.{IsSync};
ghost use Rattle.gr_member.specs.Passes.{IsPassOf, StaysAll};
ghost use Rattle.gr_member.specs.Fresh.{AreFresh};
ghost use Rattle.gr_thread_tests.specs.Numbers.{HasNumbers, IsOfSlot};

use super::steps::{SHARDS, STEPS, Told, ask_of, key_of, peeked};
use super::{PASSES, plan, replay};
use gr_history::{MemberRecord, Reply};
use gr_member::{Member, Memory, Pass, PassList, Seen};
use std::alloc::Global;
use std::sync::Wait;
use std::test::Fail;
use std::thread::{self, Threads};

// A pass, and what its client was told at each step.
struct Slot {
    pass: Pass,
    told: Vec<Told>,
}

// A slot for each pass, the last pass first.
fn slots_of(alloc: Global, member: &Member, room: Vec<Slot>, passes: PassList) -> Vec<Slot>
    requires room { (vec_len room ≡ 0) × (8 ≤ vec_capacity room) }
    requires count { length passes ≡ 8 }
    requires fresh { AreFresh member.now 8 passes }
    ensures count { vec_len result ≡ 8 }
    ensures each { (k : ℕ) (d : _) → k < 8 → IsOfSlot member.now k (slice_index_or result.items k d).pass }
{
    let mut left = passes;
    let mut slots = room;
    for _k in 0..PASSES {
        let Some(pass) = left.pop() else {
            unreachable!()
        };
        slots.push_reserved(Slot {
            pass,
            told: Vec::new(alloc),
        });
    }
    left.end();
    slots
}

// A client's call at a step.
fn call_once<R: Wait + Sync>(
    rt: &R,
    alloc: Global,
    member: &Member,
    pass: &mut Pass,
    client: u8,
    step: u32,
) -> Option<Reply>
    requires { IsPassOf member.now pass.old }
    ensures { StaysAll pass.old pass.new }
{
    let Some(ask) = ask_of(alloc, client, step) else {
        return None;
    };
    match member.call(rt, alloc, pass, client, step, &ask) {
        Ok(done) => Some(done.reply),
        Err(_) => None,
    }
}

// A client's peek behind the call of a step.
fn peek_once(alloc: Global, member: &Member, pass: &mut Pass, client: u8, step: u32) -> Option<Seen>
    requires { IsPassOf member.now pass.old }
    ensures { StaysAll pass.old pass.new }
{
    let Some(key) = key_of(alloc, peeked(client, step)) else {
        return None;
    };
    member.peek(alloc, pass, &key).ok()
}

// One step of the client in the slot of its number.
fn step_once<R: Wait + Sync>(
    rt: &R,
    alloc: Global,
    member: &Member,
    pass: &mut Pass,
    client: u8,
    step: u32,
) -> Told
    requires { IsOfSlot member.now client pass.old }
    ensures { IsOfSlot member.now client pass.new }
{
    let reply = call_once(rt, alloc, member, pass, client, step);
    let seen = peek_once(alloc, member, pass, client, step);
    Told { reply, seen }
}

// What a thread does.
fn work<R: Wait + Sync>(rt: &R, alloc: Global, member: &Member, slot: &mut Slot, client: u8)
    requires { IsOfSlot member.now client slot.old.pass }
    ensures { IsOfSlot member.now client slot.new.pass }
{
    for step in 0..STEPS {
        let told = step_once(rt, alloc, member, &mut slot.pass, client, step);
        let _ = slot.told.push(told);
        if step % 8 == 0 {
            thread::yield_now();
        }
    }
}

// A thread for each slot. The client of the slot k has the number k.
fn work_all<R: Threads + Wait + Sync>(rt: &R, alloc: Global, member: &Member, slots: &mut [Slot])
    requires count { length slots.old ≡ 8 }
    requires each { (k : ℕ) (d : _) → k < 8 → IsOfSlot member.now k (slice_index_or slots.old k d).pass }
    ensures count { length slots.new ≡ 8 }
    ensures each { (k : ℕ) (d : _) → k < 8 → IsOfSlot member.now k (slice_index_or slots.new k d).pass }
{
    let one = |at: usize, slot: &mut Slot|
        requires { IsSync R.row × (at < 8) × IsOfSlot member.now at slot.now.pass }
        ensures { IsOfSlot member.entry.now at slot.exit.now.pass }
    { work(rt, alloc, member, slot, at as u8) };
    thread::for_each_mut(rt, slots, 8, &one);
}

// Meets all passes into one, and puts what each client was told, the last client first.
fn meet_all(member: &Member, slots: Vec<Slot>, all_told: &mut Vec<Vec<Told>>) -> Pass
    requires count { vec_len slots ≡ 8 }
    requires each { (k : ℕ) (d : _) → k < 8 → IsOfSlot member.now k (slice_index_or slots.items k d).pass }
    ensures { HasNumbers member.now 8 0 8 result }
{
    let mut left = slots;
    let Some(last) = left.pop() else {
        unreachable!()
    };
    let Slot {
        pass: mut all,
        told,
    } = last;
    let _ = all_told.push(told);
    while let Some(slot) = left.pop() {
        let Slot { pass, told } = slot;
        member.meet(&mut all, pass);
        let _ = all_told.push(told);
    }
    left.destroy_empty();
    all
}

// The record of a member, of whose passes this one has all numbers.
fn ended<R: Wait>(rt: &R, alloc: Global, member: Member, pass: Pass) -> Result<MemberRecord, Memory>
    requires { HasNumbers member 8 0 8 pass }
{
    member.end(rt, alloc, pass)
}

// Whether the history of each shard tells what a client was told.
fn tells(alloc: Global, left: &MemberRecord, client: u8, told: &[Told]) -> bool {
    for shard in 0..SHARDS {
        let Some(record) = left.shards.get(usize::from(shard)) else {
            return false;
        };
        let Ok(deeds) = record.history.deeds(alloc) else {
            return false;
        };
        if !replay::tells(deeds.as_slice(), shard, client, told) {
            return false;
        }
    }
    true
}

// How many deeds there are.
fn deeds_in(left: &MemberRecord) -> u64 {
    let mut deeds = 0u64;
    for record in left.shards.as_slice() {
        deeds = deeds.saturating_add(record.history.len());
    }
    deeds
}

#[test]
fn each_call_stands_once_and_each_peek_is_of_its_place(rt: HostRuntime) -> Result<(), Fail> {
    let alloc = rt.alloc();
    let Ok(room) = Vec::with_capacity(alloc, PASSES as usize) else {
        panic!(rt; "no memory")
    };
    let Ok((member, passes)) = Member::new(&rt, alloc, plan(), PASSES, true) else {
        panic!(rt; "no memory")
    };
    let mut slots = slots_of(alloc, &member, room, passes);
    work_all(&rt, alloc, &member, slots.as_mut_slice());
    let mut all_told = Vec::new(alloc);
    let pass = meet_all(&member, slots, &mut all_told);
    let Ok(left) = ended(&rt, alloc, member, pass) else {
        panic!(rt; "no memory")
    };
    assert_eq!(rt; deeds_in(&left), u64::from(PASSES * STEPS));
    assert_eq!(rt; all_told.len(), PASSES as usize);
    for at in 0..8u8 {
        let told = all_told.pop();
        assert!(rt; told.is_some_and(|told| tells(alloc, &left, at, told.as_slice())));
    }
    Ok(())
}
