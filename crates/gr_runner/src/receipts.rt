// How each taker of mail is told what its senders sent.
ghost use Rattle.std.specs.Prelude.{◌≡◌, ◌<◌, ℕ, List, length, map, slice_index_or};
ghost use Rattle.std.specs.List.{AllByRecursion};
ghost use Rattle.gr_post.specs.Passes.{Ring, Taking};
ghost use Rattle.gr_runner.specs.Receipts.{AreTaken, IsToldAt, ring_tables, send_tables, take_tables};

use gr_post::{Inbox, InboxList, SendPass, SendPassList, TakePass};

/// Ends the passes of all senders, and tells each taker what they sent to it.
pub fn meet_mail(inboxes: &InboxList, takes: &mut [TakePass], sends: Vec<SendPassList>)
    requires takes { take_tables takes.old ≡ ring_tables inboxes.now }
    requires sends { AllByRecursion (λ passes. send_tables passes ≡ ring_tables inboxes.now) sends.items }
    ensures taken { map (λ take. take.taken) takes.new ≡ map (λ take. take.taken) takes.old }
    ensures all { AllByRecursion (AreTaken takes.new) sends.items }
{
    let mut left = sends;
    while let Some(own) = left.pop() {
        meet_sender(inboxes, takes, own);
    }
}

// Ends one sender's passes to all inboxes.
fn meet_sender(inboxes: &InboxList, takes: &mut [TakePass], own: SendPassList)
    requires takes { take_tables takes.old ≡ ring_tables inboxes.now }
    requires sends { send_tables own ≡ ring_tables inboxes.now }
    ensures tables { take_tables takes.new ≡ take_tables takes.old }
    ensures taken { map (λ take. take.taken) takes.new ≡ map (λ take. take.taken) takes.old }
    ensures all { AreTaken takes.new own }
{
    let mut left = own;
    while let Some(pass) = left.pop() {
        meet_one(inboxes.as_slice(), takes, left.len(), pass);
    }
}

// Ends one pass to the inbox at this place.
fn meet_one(inboxes: &[Inbox], takes: &mut [TakePass], at: usize, pass: SendPass)
    requires inbox { at < length inboxes.now }
    requires taker { at < length takes.old }
    requires takes { (t : Taking) (r : Ring) → (slice_index_or takes.old at t).table ≡ (slice_index_or inboxes.now at r).table }
    requires sends { (r : Ring) → pass.table ≡ (slice_index_or inboxes.now at r).table }
    ensures { IsToldAt at takes.old pass takes.new }
{
    inboxes[at].meet(&mut takes[at], pass);
}
