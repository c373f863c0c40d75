ghost use Rattle.std.specs.Prelude.{◌≡◌, ◌≤◌, ◌<◌, ℕ, [], length, slice_index_or, true, false, IfNone, IfSome, IfOk, IfErr};
ghost use Rattle.crossbeam_queue.specs.Fifo.{Held};
ghost use Rattle.gr_post.specs.Mails.{EndsWith, of, has_end, IsClosed};
ghost use Rattle.gr_post.specs.Passes.{Sending, sender_of, taker_of, sent_by, refused_by, taken_by, met_by, IsInOrder, HasAll};
ghost use Rattle.gr_value.specs.Counts.{Rose};
ghost use Rattle.gr_value.specs.Lists.{StartsWith};

use crate::inbox::{Full, Inbox};
use crate::mail::{Mail, Posted};
use crate::passes::{SendPass, SendPassList, TakePass};
use crate::rule::{Enlist, Meet, Sends, Takes};
use crossbeam_queue::RuledArrayQueue;
use crossbeam_utils::Backoff;
use gr_value::Memory;
use std::alloc::Global;
use std::sync::Wait;

impl Inbox {
    /// An inbox with room for so many mails, a pass for each sender, and one for its taker. The number of a
    /// sender is its place in the list.
    pub fn new(
        alloc: Global,
        capacity: u32,
        senders: u32,
    ) -> Result<(Inbox, SendPassList, TakePass), Memory>
        requires { (1 ≤ capacity) × (capacity ≤ 4096) }
        ensures capacity { IfOk result (λ made. made.0.capacity ≡ capacity) }
        ensures count { IfOk result (λ made. length made.1 ≡ senders) }
        ensures senders { IfOk result (λ made. (k : ℕ) (d : Sending) → k < senders → slice_index_or made.1 k d ≡ sender_of made.0.table k) }
        ensures taker { IfOk result (λ made. made.2 ≡ taker_of made.0.table senders) }
    {
        let mut passes = Vec::with_capacity(alloc, senders as usize)?;
        let (queue, mut token) = RuledArrayQueue::ruled(alloc, capacity as usize)?;
        for number in 0..senders {
            let pass = SendPass {
                token: queue.another::<Enlist>(&mut token),
                number,
                refused: 0,
            };
            passes.push_reserved(pass);
        }
        Ok((
            Inbox { queue },
            SendPassList { passes },
            TakePass { token, sender: 0 },
        ))
    }

    // Puts a mail last, where the inbox isn't full and no other thread is in the middle of a call there.
    fn try_send(&self, pass: &mut SendPass, mail: Mail) -> Result<(), Mail>
        requires { pass.old.table ≡ self.now.table }
        ensures sent { IfOk result (λ _. pass.new ≡ sent_by pass.old mail) }
        ensures back { IfErr result (λ back. (back ≡ mail) × (pass.new ≡ pass.old)) }
    {
        let posted = Posted {
            from: pass.number,
            mail,
        };
        match self.queue.try_push_as::<Sends>(&mut pass.token, posted) {
            Ok(()) => Ok(()),
            Err(posted) => Err(posted.mail),
        }
    }

    /// Puts a mail last. It may wait for other threads that are in the middle of a call, and yields to them.
    pub fn send<R: Wait + Sync>(&self, rt: &R, pass: &mut SendPass, mail: Mail) -> Result<(), Full>
        requires { pass.old.table ≡ self.now.table }
        ensures stays { (pass.new.table ≡ pass.old.table) × (pass.new.number ≡ pass.old.number) }
        ensures sent { IfOk result (λ _. pass.new ≡ sent_by pass.old mail) }
        ensures back { IfErr result (λ full. full.mail ≡ mail) }
        ensures refused { IfErr result (λ _. (pass.new ≡ refused_by pass.old) × Rose pass.old.refused pass.new.refused) }
        ensures never_falls { pass.old.refused ≤ pass.new.refused }
        ensures full { IfErr result (λ _. Held self.now.capacity (λ mails. EndsWith pass.old.sent (of pass.old.number mails))) }
    {
        let mut left = mail;
        let backoff = Backoff::new();
        for _ in rt.forever() {
            match self.try_send(pass, left) {
                Ok(()) => return Ok(()),
                Err(back) => left = back,
            }
            if self.refuses(pass) {
                return Err(Full { mail: left });
            }
            backoff.snooze();
        }
        unreachable!()
    }

    // Whether the inbox is full at a step of the call, which the pass counts then.
    pub(crate) fn refuses(&self, pass: &mut SendPass) -> bool
        requires { pass.old.table ≡ self.now.table }
        ensures yes { result ≡ true → (pass.new ≡ refused_by pass.old) × Rose pass.old.refused pass.new.refused }
        ensures no { result ≡ false → pass.new ≡ pass.old }
        ensures never_falls { pass.old.refused ≤ pass.new.refused }
        ensures full { result ≡ true → Held self.now.capacity (λ mails. EndsWith pass.old.sent (of pass.old.number mails)) }
    {
        let full = self.queue.is_full_as::<Sends>(&mut pass.token);
        if full {
            pass.refused = pass.refused.saturating_add(1);
        }
        full
    }

    // Takes the first mail, where there is one and no other thread is in the middle of a call there.
    fn try_take(&self, pass: &mut TakePass) -> Option<Mail>
        requires { pass.old.table ≡ self.now.table }
        ensures stays { (pass.new.table ≡ pass.old.table) × (pass.new.senders ≡ pass.old.senders) × (pass.new.met ≡ pass.old.met) }
        ensures taken { IfSome result (λ mail. pass.new ≡ taken_by pass.old pass.new.sender mail) }
        ensures sender { IfSome result (λ _. pass.new.sender < pass.old.senders) }
        ensures order { IfSome result (λ _. IsInOrder pass.new) }
        ensures none { IfNone result (pass.new ≡ pass.old) }
    {
        let posted = self.queue.try_pop_as::<Takes>(&mut pass.token)?;
        pass.sender = posted.from;
        Some(posted.mail)
    }

    // Whether the inbox is empty at a step of the call.
    fn is_empty(&self, pass: &mut TakePass) -> bool
        requires { pass.old.table ≡ self.now.table }
        ensures pass { pass.new ≡ pass.old }
        ensures empty { result ≡ true → HasAll pass.new }
    {
        self.queue.is_empty_as::<Takes>(&mut pass.token)
    }

    /// Takes the first mail. It may wait for other threads that are in the middle of a call, and yields to them.
    pub fn take<R: Wait + Sync>(&self, rt: &R, pass: &mut TakePass) -> Option<Mail>
        requires { pass.old.table ≡ self.now.table }
        ensures stays { (pass.new.table ≡ pass.old.table) × (pass.new.senders ≡ pass.old.senders) × (pass.new.met ≡ pass.old.met) }
        ensures taken { IfSome result (λ mail. pass.new ≡ taken_by pass.old pass.new.sender mail) }
        ensures sender { IfSome result (λ _. pass.new.sender < pass.old.senders) }
        ensures order { IfSome result (λ _. IsInOrder pass.new) }
        ensures none { IfNone result (pass.new ≡ pass.old) }
        ensures empty { IfNone result (HasAll pass.new) }
    {
        let backoff = Backoff::new();
        for _ in rt.forever() {
            if let Some(mail) = self.try_take(pass) {
                return Some(mail);
            }
            if self.is_empty(pass) {
                return None;
            }
            backoff.snooze();
        }
        unreachable!()
    }

    /// Ends a sender's pass, and tells the taker what that one sent.
    pub fn meet(&self, into: &mut TakePass, from: SendPass)
        requires { (into.old.table ≡ self.now.table) × (from.table ≡ self.now.table) }
        ensures met { into.new ≡ met_by into.old from }
        ensures order { IsInOrder into.new }
        ensures first { StartsWith from.sent (of from.number into.new.taken) }
        ensures whole { IsClosed from.sent → has_end (of from.number into.new.taken) ≡ true → of from.number into.new.taken ≡ from.sent }
    {
        let SendPass {
            token,
            number: _,
            refused: _,
        } = from;
        self.queue.absorb::<Meet>(&mut into.token, token);
        self.queue.learn_as::<Takes>(&mut into.token);
    }
}
