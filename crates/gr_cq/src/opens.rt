ghost use Rattle.std.specs.Prelude.{◌≡◌, ◌≤◌, ◌<◌, ℕ, List, [], ◌∷◌, length, position, map, IfOk, IfSome, OnOk, is_some, option_map, option_copied};
ghost use Rattle.std.specs.List.{AllByRecursion};
ghost use Rattle.std.specs.Option.{option_to_list};
ghost use Rattle.gr_oql.specs.declared.event.Event.{Event};
ghost use Rattle.gr_cq.specs.Entries.{is_at, find, changed_at, kept_stopped, kept_taken};
ghost use Rattle.gr_cq.specs.Foresight.{changed, coming_to_each, longest, told_each};
ghost use Rattle.gr_cq.specs.View.{kept_of, entry_of, entries_of, events_in, change_of, HaveRoom, Fit, FitsIn};

use crate::Turned;
use crate::foreseen::Plan;
use crate::open::Open;
use gr_oql::Event;
use gr_value::{Key, Memory};
use std::alloc::Global;

/// The place of the query of that client and name.
pub fn place_of(all: &[Open], client: u8, name: &Key) -> Option<usize>
    ensures place { result ≡ position (λ one. is_at client name.now (entry_of one)) all.now }
    ensures within { IfSome result (λ place. place < length all.now) }
{
    all.iter().position(|one| one.is_at(client, name))
}

/// The query of that client and name.
pub fn find_open<'a>(all: &'a [Open], client: u8, name: &Key) -> Option<&'a Open>
    ensures { option_map kept_of (option_copied result) ≡ find client name.now (entries_of all.now) }
{
    let place = place_of(all, client, name)?;
    Some(&all[place])
}

/// Whether a query of that client has the name.
pub fn is_open(all: &[Open], client: u8, name: &Key) -> bool
    ensures { result ≡ is_some (find client name.now (entries_of all.now)) }
{
    place_of(all, client, name).is_some()
}

/// Makes room for so many events at each query.
pub fn reserve_each(all: &mut [Open], room: usize) -> Result<(), Memory>
    ensures entries { entries_of all.new ≡ entries_of all.old }
    ensures kept { (spare : ℕ) → HaveRoom spare all.old → HaveRoom spare all.new }
    ensures room { OnOk result (HaveRoom room all.new) }
{
    for one in all.iter_mut() {
        one.reserve(room)?;
    }
    Ok(())
}

/// What each query is told of these keys, in their order.
pub fn coming_to_each(
    alloc: Global,
    all: &[Open],
    turned: &[Turned],
) -> Result<Vec<Vec<Event>>, Memory>
    ensures { IfOk result (λ lists. events_in lists.items ≡ coming_to_each turned.now (entries_of all.now)) }
{
    let mut lists = Vec::with_capacity(alloc, all.len())?;
    for one in all {
        lists.push(one.coming(alloc, turned)?)?;
    }
    Ok(lists)
}

/// The length of the longest list, and at least 1.
pub fn longest(lists: &[Vec<Event>]) -> usize
    ensures longest { result ≡ longest (events_in lists.now) }
    ensures some { 1 ≤ result }
    ensures within { AllByRecursion (λ (events : List Event). length events ≤ result) (events_in lists.now) }
{
    let mut most = 1;
    for events in lists {
        if events.len() > most {
            most = events.len();
        }
    }
    most
}

/// Makes the change; there is room for it.
pub fn carry_out(all: &mut Vec<Open>, plan: Plan)
    requires { FitsIn all.old plan }
    ensures { entries_of all.new.items ≡ changed (change_of plan) (entries_of all.old.items) }
{
    match plan {
        Plan::Enrol(one) => {
            let _ = all.push(Box::into_inner(one));
        }
        Plan::Take { client, name } => take_at(all, client, &name),
        Plan::Tell(event) => tell_first(all, event),
        Plan::Note(mut lists) => hear_each(all, &mut lists),
    }
}

/// Stops the query of that client and name.
#[tactic(auto, using(crate::proofs::Finding::changed_here, crate::proofs::Finding::none_changed))]
pub fn stop_at(all: &mut [Open], client: u8, name: &Key)
    ensures { entries_of all.new ≡ changed_at client name.now kept_stopped (entries_of all.old) }
{
    if let Some(place) = place_of(all, client, name) {
        all[place].stop();
    }
}

// Leaves the query of that client and name no event.
#[tactic(auto, using(crate::proofs::Finding::changed_here, crate::proofs::Finding::none_changed))]
fn take_at(all: &mut [Open], client: u8, name: &Key)
    ensures { entries_of all.new ≡ changed_at client name.now kept_taken (entries_of all.old) }
{
    if let Some(place) = place_of(all, client, name) {
        all[place].clear();
    }
}

// Puts an event, if there is one, behind what waits at the first query, which there is.
fn tell_first(all: &mut [Open], event: Option<Event>)
    requires { Fit (option_to_list event ∷ []) all.old }
    ensures { entries_of all.new ≡ told_each (option_to_list event ∷ []) (entries_of all.old) }
{
    all[0].hear_one(event);
}

// Puts behind what waits at each query the events that it is told.
fn hear_each(all: &mut [Open], lists: &mut [Vec<Event>])
    requires { Fit (events_in lists.old) all.old }
    ensures { entries_of all.new ≡ told_each (events_in lists.old) (entries_of all.old) }
{
    for place in 0..lists.len() {
        all[place].hear(&mut lists[place]);
    }
}
