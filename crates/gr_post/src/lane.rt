ghost use Rattle.std.specs.Prelude.{◌≡◌, ◌++◌, ◌+◌, ◌≤◌, ◌<◌, List, [], ◌∷◌, Some, None, true, false, IfOk, OnErr, length};
ghost use Rattle.std.specs.Option.{option_to_list};
ghost use Rattle.std.specs.VecDeque.{deque_len, deque_capacity};
ghost use Rattle.gr_post.specs.declared.mail.Mail.TheVariants.{End};
ghost use Rattle.gr_post.specs.declared.fate.Fate.TheVariants.{Last};
ghost use Rattle.gr_post.specs.Plan.{fate, due, kept, mails};
ghost use Rattle.gr_post.specs.Lanes.{settled, at_once, later, to_the_end, Moves, is_none};
ghost use Rattle.gr_value.specs.Counts.{Rose};

use crate::fate::{Fate, Held};
use crate::inbox::Inbox;
use crate::mail::Mail;
use crate::passes::SendPass;
use gr_value::Memory;
use std::alloc::Global;
use std::collections::VecDeque;
use std::marker::Model;
use std::sync::Wait;

// The way to one inbox: what waits, what is held back, and what was made ready and hasn't happened yet. What
// is held back to the end, and not behind a mail that is due earlier, is in `late`: so no more than the
// newest few are counted down for a mail.
#[derive(Drop)]
pub struct Lane {
    pass: SendPass,
    waiting: VecDeque<Mail>,
    late: VecDeque<Mail>,
    held: VecDeque<Held>,
    ready: Option<Fate>,
}

impl Model for Lane {
    ghost use Rattle.std.specs.Prelude.{◌++◌};
    ghost use Rattle.gr_post.specs.Lanes.{Way, HasRoom, to_the_end};

    ghost Value = { Way };

    ghost view = { λ lane. record { pass = lane.pass; waiting = lane.waiting.items; held = to_the_end lane.late.items ++ lane.held.items; ready = lane.ready } };

    ghost invariant = { λ lane. HasRoom lane.waiting lane.late lane.held lane.ready };
}

// Releases the mail at a place if it is due, and else counts down for it. Gives the next place to look at.
fn count_down(place: usize, waiting: &mut VecDeque<Mail>, held: &mut VecDeque<Held>) -> usize
    requires place { place < deque_len held.old }
    requires room { deque_len waiting.old < deque_capacity waiting.old }
    ensures released { (before : List Held) (one : Held) (behind : List Held) → held.old.items ≡ before ++ one ∷ behind → place ≡ length before →
        waiting.new.items ≡ waiting.old.items ++ due (one ∷ []) }
    ensures held { (before : List Held) (one : Held) (behind : List Held) → held.old.items ≡ before ++ one ∷ behind → place ≡ length before →
        held.new.items ≡ before ++ (kept (one ∷ []) ++ behind) }
    ensures next { (before : List Held) (one : Held) (behind : List Held) → held.old.items ≡ before ++ one ∷ behind → place ≡ length before →
        result ≡ place + length (kept (one ∷ [])) }
    ensures len { deque_len waiting.new + deque_len held.new ≡ deque_len waiting.old + deque_len held.old }
    ensures left { deque_len held.new + (place + 1) ≡ deque_len held.old + result }
    ensures fewer { deque_len held.new ≤ deque_len held.old }
    ensures waiting_room { deque_capacity waiting.new ≡ deque_capacity waiting.old }
    ensures held_room { deque_capacity held.new ≡ deque_capacity held.old }
{
    let left = held[place].left;
    if left == 1 {
        let Some(one) = held.remove(place) else {
            unreachable!()
        };
        waiting.push_back_reserved(one.mail);
        return place;
    }
    held[place].left = left.saturating_sub(1);
    place + 1
}

// Releases the mails that are due, and counts down for the others.
fn release_due(waiting: &mut VecDeque<Mail>, held: &mut VecDeque<Held>)
    requires { deque_len waiting.old + deque_len held.old ≤ deque_capacity waiting.old }
    ensures waiting { waiting.new.items ≡ waiting.old.items ++ due held.old.items }
    ensures held { held.new.items ≡ kept held.old.items }
    ensures fewer { deque_len held.new ≤ deque_len held.old }
    ensures waiting_room { deque_capacity waiting.new ≡ deque_capacity waiting.old }
    ensures held_room { deque_capacity held.new ≡ deque_capacity held.old }
{
    let mut place = 0;
    while place < held.len() {
        place = count_down(place, waiting, held);
    }
}

// Whether the first of what is held back is held to the end.
fn is_late(held: &VecDeque<Held>) -> bool
    ensures late { (one : Held) (behind : List Held) → held.now.items ≡ one ∷ behind → result ≡ true → one.left ≡ 0 }
    ensures some { result ≡ true → 0 < deque_len held.now }
{
    match held.front() {
        Some(one) => one.left == 0,
        None => false,
    }
}

// Keeps the first of what is held back with what is held to the end, as long as it is.
fn set_aside(late: &mut VecDeque<Mail>, held: &mut VecDeque<Held>)
    requires { deque_len late.old + deque_len held.old ≤ deque_capacity late.old }
    ensures held { to_the_end late.new.items ++ held.new.items ≡ to_the_end late.old.items ++ held.old.items }
    ensures room { deque_len late.new + deque_len held.new ≤ deque_capacity late.new }
    ensures late_room { deque_capacity late.new ≡ deque_capacity late.old }
    ensures held_room { deque_capacity held.new ≡ deque_capacity held.old }
{
    while is_late(held) {
        let Some(one) = held.pop_front() else {
            unreachable!()
        };
        late.push_back_reserved(one.mail);
    }
}

// Releases what is held to the end.
fn release_late(waiting: &mut VecDeque<Mail>, late: &mut VecDeque<Mail>)
    requires { deque_len waiting.old + deque_len late.old ≤ deque_capacity waiting.old }
    ensures waiting { waiting.new.items ≡ waiting.old.items ++ late.old.items }
    ensures late { late.new.items ≡ [] }
    ensures len { deque_len waiting.new ≡ deque_len waiting.old + deque_len late.old }
    ensures waiting_room { deque_capacity waiting.new ≡ deque_capacity waiting.old }
{
    while let Some(mail) = late.pop_front() {
        waiting.push_back_reserved(mail);
    }
}

// Releases what is held back behind it, and an `End` at last.
fn release_all(waiting: &mut VecDeque<Mail>, held: &mut VecDeque<Held>)
    requires { deque_len waiting.old + deque_len held.old + 1 ≤ deque_capacity waiting.old }
    ensures waiting { waiting.new.items ≡ waiting.old.items ++ (mails held.old.items ++ End ∷ []) }
    ensures held { held.new.items ≡ [] }
    ensures waiting_room { deque_capacity waiting.new ≡ deque_capacity waiting.old }
{
    while let Some(one) = held.pop_front() {
        waiting.push_back_reserved(one.mail);
    }
    waiting.push_back_reserved(Mail::End);
}

// Makes room for so many mails, where there isn't enough.
#[inline(always)]
fn make_room(mails: &mut VecDeque<Mail>, count: usize) -> Result<(), Memory>
    ensures items { mails.new.items ≡ mails.old.items }
    ensures len { deque_len mails.new ≡ deque_len mails.old }
    ensures room { deque_capacity mails.old ≤ deque_capacity mails.new }
    ensures ok { IfOk result (λ _. deque_len mails.new + count ≤ deque_capacity mails.new) }
{
    if mails.capacity() - mails.len() < count {
        mails.reserve(count)?;
    }
    Ok(())
}

// Puts what is released at once, and hands out what is held back.
fn release_now(waiting: &mut VecDeque<Mail>, fate: Fate) -> Option<Held>
    requires { deque_len waiting.old + 2 ≤ deque_capacity waiting.old }
    ensures waiting { waiting.new.items ≡ waiting.old.items ++ at_once fate }
    ensures later { option_to_list result ≡ later fate }
    ensures room { deque_capacity waiting.new ≡ deque_capacity waiting.old }
{
    match fate {
        Fate::Once(mail) => {
            waiting.push_back_reserved(mail);
            None
        }
        Fate::Twice(mail, copy) => {
            waiting.push_back_reserved(mail);
            waiting.push_back_reserved(copy);
            None
        }
        Fate::Hold(held) => Some(held),
        Fate::Last => None,
    }
}

impl Lane {
    pub(crate) fn new(alloc: Global, pass: SendPass) -> Result<Lane, Memory>
        ensures { IfOk result (λ lane. lane ≡ record { pass = pass; waiting = []; held = []; ready = None }) }
    {
        Ok(Lane {
            pass,
            waiting: VecDeque::with_capacity(alloc, 1)?,
            late: VecDeque::new(alloc),
            held: VecDeque::new(alloc),
            ready: None,
        })
    }

    // Makes the copies and the room for a mail with this number.
    pub(crate) fn prepare(&mut self, alloc: Global, mail: &Mail, number: u32) -> Result<(), Memory>
        ensures ok { IfOk result (λ _. self.new ≡ record self.old { ready = Some (fate mail.now number) }) }
        ensures err { OnErr result (self.new ≡ self.old) }
    {
        let held = self.held.len();
        make_room(&mut self.waiting, held + 2)?;
        make_room(&mut self.late, held + 1)?;
        self.held.reserve(1)?;
        self.ready = Some(Fate::of(alloc, mail, number)?);
        Ok(())
    }

    // Makes the room for what is held back and an `End`.
    pub(crate) fn prepare_last(&mut self) -> Result<(), Memory>
        ensures ok { IfOk result (λ _. self.new ≡ record self.old { ready = Some Last }) }
        ensures err { OnErr result (self.new ≡ self.old) }
    {
        self.waiting.reserve(self.late.len() + self.held.len() + 1)?;
        self.ready = Some(Fate::Last);
        Ok(())
    }

    // Nothing is ready.
    pub(crate) fn skip(&mut self)
        ensures { self.new ≡ record self.old { ready = None } }
    {
        if self.ready.is_some() {
            self.ready = None;
        }
    }

    // What was made ready happens.
    pub(crate) fn settle(&mut self)
        ensures { self.new ≡ settled self.old }
    {
        if self.ready.is_none() {
            return;
        }
        let Some(fate) = self.ready.take() else {
            return;
        };
        match fate {
            Fate::Last => {
                release_late(&mut self.waiting, &mut self.late);
                release_all(&mut self.waiting, &mut self.held);
            }
            _ => {
                let later = release_now(&mut self.waiting, fate);
                release_due(&mut self.waiting, &mut self.held);
                if let Some(one) = later {
                    self.held.push_back_reserved(one);
                }
                set_aside(&mut self.late, &mut self.held);
            }
        }
    }

    // Nothing is left but an `End`.
    pub(crate) fn stop(&mut self)
        ensures { self.new ≡ record { pass = self.old.pass; waiting = End ∷ []; held = []; ready = None } }
    {
        self.ready = None;
        self.late.clear();
        self.held.clear();
        self.waiting.clear();
        release_all(&mut self.waiting, &mut self.held);
    }

    // Sends what waits until the inbox is full, and says whether all was sent. Where it's full at once no mail
    // is moved.
    pub(crate) fn send<R: Wait + Sync>(&mut self, rt: &R, inbox: &Inbox) -> bool
        requires { self.old.pass.table ≡ inbox.now.table }
        ensures moves { Moves self.old self.new }
        ensures all { result ≡ is_none self.new.waiting }
        ensures refused { result ≡ false → Rose self.old.pass.refused self.new.pass.refused }
    {
        if !self.waiting.is_empty() && inbox.refuses(&mut self.pass) {
            return false;
        }
        self.send_until_full(rt, inbox)
    }

    fn send_until_full<R: Wait + Sync>(&mut self, rt: &R, inbox: &Inbox) -> bool
        requires { self.old.pass.table ≡ inbox.now.table }
        ensures moves { Moves self.old self.new }
        ensures all { result ≡ is_none self.new.waiting }
        ensures refused { result ≡ false → Rose self.old.pass.refused self.new.pass.refused }
    {
        while let Some(mail) = self.waiting.pop_front() {
            if let Err(full) = inbox.send(rt, &mut self.pass, mail) {
                self.waiting.push_front_reserved(full.mail);
                return false;
            }
        }
        true
    }

    // How many mails wait.
    pub(crate) fn waiting(&self) -> usize {
        self.waiting.len()
    }

    pub(crate) fn into_pass(self) -> SendPass
        ensures { result ≡ self.pass }
    {
        let Lane {
            pass,
            waiting: _,
            late: _,
            held: _,
            ready: _,
        } = self;
        pass
    }
}
