// Seven senders and a taker at one inbox, each in a thread.
ghost use Rattle.std.specs.Prelude.{◌≡◌, ◌≤◌, All, IfSome};
ghost use Rattle.std.specs.Thread.{IsSync};

use super::{mail, number_of};
use gr_post::{Inbox, Mail, SendPass, SendPassList, TakePass};
use std::alloc::Global;
use std::sync::Wait;
use std::test::Fail;
use std::thread::{self, Threads};

// How many mails each sender sends before its `End`.
const MAILS: u64 = 50000;

// Of each sender the number of the mail that is to come next, and 0 behind its `End`.
#[derive(Drop)]
struct Tally {
    due: [u64; 7],
    ends: u32,
    faults: u32,
}

impl Tally {
    fn new() -> Tally {
        Tally {
            due: [1; 7],
            ends: 0,
            faults: 0,
        }
    }

    fn add(&mut self, sender: u32, mail: &Mail) {
        let number = number_of(mail);
        match self.due.get_mut(sender as usize) {
            Some(due) if number == 0 && *due == MAILS + 1 => {
                *due = 0;
                self.ends = self.ends.saturating_add(1);
            }
            Some(due) if number != 0 && *due == number => *due = due.wrapping_add(1),
            _ => self.faults = self.faults.saturating_add(1),
        }
    }

    // Whether nothing is to come, or something went wrong.
    fn is_over(&self) -> bool {
        self.ends == 7 || self.faults > 0
    }
}

// The passes of a list, that of the greatest number first.
fn taken_out(alloc: Global, inbox: &Inbox, passes: SendPassList) -> Option<Vec<SendPass>>
    requires { All (λ pass. pass.table ≡ inbox.now.table) passes }
    ensures { IfSome result (λ taken. All (λ pass. pass.table ≡ inbox.now.table) taken.items) }
{
    let count = passes.len();
    let mut left = passes;
    let mut taken = Vec::new(alloc);
    for _ in 0..count {
        if taken.push(left.pop()?).is_err() {
            return None;
        }
    }
    Some(taken)
}

// Sends the mail once there is room.
fn send_one<R: Wait + Sync>(rt: &R, inbox: &Inbox, pass: &mut SendPass, mail: Mail)
    requires { pass.old.table ≡ inbox.now.table }
    ensures { pass.new.table ≡ inbox.now.table }
{
    let mut waiting = mail;
    for _ in rt.forever() {
        match inbox.send(rt, pass, waiting) {
            Ok(()) => return,
            Err(full) => waiting = full.mail,
        }
        thread::yield_now();
    }
}

// What a sender's thread does.
fn send_mails<R: Wait + Sync>(rt: &R, alloc: Global, inbox: &Inbox, pass: &mut SendPass)
    requires { pass.old.table ≡ inbox.now.table }
    ensures { pass.new.table ≡ inbox.now.table }
{
    for at in 0..MAILS {
        if let Some(one) = mail(alloc, at + 1) {
            send_one(rt, inbox, pass, one);
        }
    }
    send_one(rt, inbox, pass, Mail::End);
}

// A thread for each sender.
fn send_all<R: Threads + Wait + Sync>(
    rt: &R,
    alloc: Global,
    inbox: &Inbox,
    passes: Vec<SendPass>,
) -> Vec<SendPass>
    requires { All (λ pass. pass.table ≡ inbox.now.table) passes.items }
    ensures { All (λ pass. pass.table ≡ inbox.now.table) result.items }
{
    let mut passes = passes;
    let count = passes.len();
    if count == 0 {
        return passes;
    }
    let one = |_: usize, pass: &mut SendPass|
        requires { IsSync R.row × (pass.now.table ≡ inbox.now.table) }
        ensures { pass.exit.now.table ≡ inbox.entry.now.table }
    { send_mails(rt, alloc, inbox, pass) };
    thread::for_each_mut(rt, passes.as_mut_slice(), count, &one);
    passes
}

// What the taker's thread does.
fn take_mails<R: Wait + Sync>(rt: &R, inbox: &Inbox, taker: TakePass) -> (TakePass, Tally)
    requires { taker.table ≡ inbox.now.table }
    ensures { result.0.table ≡ inbox.now.table }
{
    let mut taker = taker;
    let mut tally = Tally::new();
    for _ in rt.forever() {
        match inbox.take(rt, &mut taker) {
            None => thread::yield_now(),
            Some(mail) => tally.add(taker.sender(), &mail),
        }
        if tally.is_over() {
            return (taker, tally);
        }
    }
    unreachable!()
}

// All threads.
fn run<R: Threads + Wait + Sync>(
    rt: &R,
    alloc: Global,
    inbox: &Inbox,
    passes: Vec<SendPass>,
    taker: TakePass,
) -> (Vec<SendPass>, (TakePass, Tally))
    requires passes { All (λ pass. pass.table ≡ inbox.now.table) passes.items }
    requires taker { taker.table ≡ inbox.now.table }
    ensures passes { All (λ pass. pass.table ≡ inbox.now.table) result.0.items }
    ensures taker { result.1.0.table ≡ inbox.now.table }
{
    thread::join(
        rt,
        move || -> Vec<SendPass>
            requires { IsSync R.row × All (λ pass. pass.table ≡ inbox.now.table) passes.items }
            ensures { All (λ pass. pass.table ≡ inbox.entry.now.table) result.items }
        { send_all(rt, alloc, inbox, passes) },
        move || -> (TakePass, Tally)
            requires { IsSync R.row × (taker.table ≡ inbox.now.table) }
            ensures { result.0.table ≡ inbox.entry.now.table }
        { take_mails(rt, inbox, taker) },
    )
}

// The taker meets all senders.
fn meet_all(inbox: &Inbox, taker: &mut TakePass, passes: Vec<SendPass>)
    requires taker { taker.old.table ≡ inbox.now.table }
    requires passes { All (λ pass. pass.table ≡ inbox.now.table) passes.items }
    ensures { taker.new.table ≡ inbox.now.table }
{
    let count = passes.len();
    let mut left = passes;
    for _ in 0..count {
        if let Some(pass) = left.pop() {
            inbox.meet(taker, pass);
        }
    }
}

#[test]
fn each_mail_comes_once_in_order(rt: HostRuntime) -> Result<(), Fail> {
    for capacity in [1u32, 4096] {
        assert!(rt; capacity >= 1 && capacity <= 4096);
        let Ok((inbox, passes, taker)) = Inbox::new(rt.alloc(), capacity, 7) else {
            panic!(rt; "no memory")
        };
        let Some(passes) = taken_out(rt.alloc(), &inbox, passes) else {
            panic!(rt; "no memory")
        };
        let (passes, (mut taker, tally)) = run(&rt, rt.alloc(), &inbox, passes, taker);
        assert_eq!(rt; (tally.ends, tally.faults), (7, 0));
        meet_all(&inbox, &mut taker, passes);
        assert!(rt; inbox.take(&rt, &mut taker).is_none());
    }
    Ok(())
}
