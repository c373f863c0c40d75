ghost use Rattle.std.specs.Prelude.{◌≡◌, ◌≤◌, ◌<◌, ℕ, true, false, Bool, [], Some, IfOk, IfErr, length, slice_index_or, map, vec_capacity, if◌then◌else◌};
ghost use Rattle.gr_post.specs.declared.fate.Fate.TheVariants.{Last};
ghost use Rattle.gr_post.specs.Plan.{number_before};
ghost use Rattle.gr_post.specs.Lanes.{Way, new_way, pass_of, Moves, settled, stopped, ready_with, ready_by, ready_for, AreTheirs, AreTried, NoneWaits, WasRefused};
ghost use Rattle.gr_value.specs.Drawing.{drawn};

use crate::inbox::Inbox;
use crate::lane::Lane;
use crate::mail::Mail;
use crate::passes::SendPass;
use gr_value::{Memory, drawn};
use std::alloc::Global;
use std::sync::Wait;

// A lane for each pass.
pub(crate) fn new_lanes(alloc: Global, passes: Vec<SendPass>) -> Result<Vec<Lane>, Memory>
    ensures { IfOk result (λ lanes. lanes.items ≡ map new_way passes.items) }
{
    let mut lanes = Vec::new(alloc);
    for pass in passes {
        lanes.push(Lane::new(alloc, pass)?)?;
    }
    Ok(lanes)
}

// The passes of the lanes, in a list that has the room.
pub(crate) fn passes_home(home: Vec<SendPass>, lanes: Vec<Lane>) -> Vec<SendPass>
    requires empty { home.items ≡ [] }
    requires room { length lanes.items ≤ vec_capacity home }
    ensures { result.items ≡ map pass_of lanes.items }
{
    let mut passes = home;
    for lane in lanes {
        passes.push_reserved(lane.into_pass());
    }
    passes
}

// Makes a mail ready for one inbox, where it goes there, and gives the number that comes after it.
fn prepare_one(
    alloc: Global,
    lane: &mut Lane,
    mail: &Mail,
    named: bool,
    number: u32,
) -> Result<u32, Memory>
    ensures number { IfOk result (λ after. after ≡ (if named then drawn number else number)) }
    ensures ready { IfOk result (λ _. lane.new ≡ ready_by mail.now named number lane.old) }
    ensures err { IfErr result (λ _. lane.new ≡ lane.old) }
{
    if named {
        let number = drawn(number);
        lane.prepare(alloc, mail, number)?;
        Ok(number)
    } else {
        lane.skip();
        Ok(number)
    }
}

// Makes a mail ready for all inboxes that it goes to, and gives the number that comes after it.
pub(crate) fn prepare_each(
    alloc: Global,
    lanes: &mut Vec<Lane>,
    mail: &Mail,
    to: u8,
    number: u32,
) -> Result<u32, Memory>
    requires { length lanes.old.items ≤ 8 }
    ensures count { length lanes.new.items ≡ length lanes.old.items }
    ensures number { IfOk result (λ after. after ≡ number_before number to (length lanes.old.items)) }
    ensures ready { IfOk result (λ _. (k : ℕ) (d : Way) → k < length lanes.old.items →
        slice_index_or lanes.new.items k d ≡ ready_for mail.now to number k (slice_index_or lanes.old.items k d)) }
    ensures same { (k : ℕ) (d : Way) → k < length lanes.old.items →
        slice_index_or lanes.new.items k d ≡ ready_with (slice_index_or lanes.new.items k d).ready (slice_index_or lanes.old.items k d) }
{
    let mut after = number;
    for place in 0..lanes.len() {
        let named = (to >> place) % 2 == 1;
        after = prepare_one(alloc, &mut lanes[place], mail, named, after)?;
    }
    Ok(after)
}

// Makes the last mail ready for all inboxes.
pub(crate) fn prepare_last_each(lanes: &mut Vec<Lane>) -> Result<(), Memory>
    ensures count { length lanes.new.items ≡ length lanes.old.items }
    ensures ready { IfOk result (λ _. (k : ℕ) (d : Way) → k < length lanes.old.items →
        slice_index_or lanes.new.items k d ≡ ready_with (Some Last) (slice_index_or lanes.old.items k d)) }
    ensures same { (k : ℕ) (d : Way) → k < length lanes.old.items →
        slice_index_or lanes.new.items k d ≡ ready_with (slice_index_or lanes.new.items k d).ready (slice_index_or lanes.old.items k d) }
{
    for place in 0..lanes.len() {
        lanes[place].prepare_last()?;
    }
    Ok(())
}

// What was made ready happens.
pub(crate) fn settle_each(lanes: &mut Vec<Lane>)
    ensures count { length lanes.new.items ≡ length lanes.old.items }
    ensures each { (k : ℕ) (d : Way) → k < length lanes.old.items → slice_index_or lanes.new.items k d ≡ settled (slice_index_or lanes.old.items k d) }
{
    for place in 0..lanes.len() {
        lanes[place].settle();
    }
}

// Nothing is left but an `End` for each inbox.
pub(crate) fn stop_each(lanes: &mut Vec<Lane>)
    ensures count { length lanes.new.items ≡ length lanes.old.items }
    ensures each { (k : ℕ) (d : Way) → k < length lanes.old.items → slice_index_or lanes.new.items k d ≡ stopped (slice_index_or lanes.old.items k d) }
{
    for place in 0..lanes.len() {
        lanes[place].stop();
    }
}

// Sends to each inbox until it is full, and says whether all was sent.
pub(crate) fn send_each<R: Wait + Sync>(rt: &R, lanes: &mut Vec<Lane>, inboxes: &[Inbox]) -> bool
    requires { AreTheirs inboxes.now lanes.old.items }
    ensures count { length lanes.new.items ≡ length lanes.old.items }
    ensures moves { (k : ℕ) (d : Way) → k < length lanes.old.items → Moves (slice_index_or lanes.old.items k d) (slice_index_or lanes.new.items k d) }
    ensures tried { AreTried lanes.old.items lanes.new.items }
    ensures all { result ≡ true → NoneWaits lanes.new.items }
    ensures refused { result ≡ false → WasRefused lanes.old.items lanes.new.items }
{
    let mut all = true;
    for place in 0..lanes.len() {
        let sent = lanes[place].send(rt, &inboxes[place]);
        all &= sent;
    }
    all
}

// How many mails wait at all lanes.
pub(crate) fn waiting(lanes: &[Lane]) -> usize {
    let mut count: usize = 0;
    for lane in lanes {
        count = count.saturating_add(lane.waiting());
    }
    count
}
