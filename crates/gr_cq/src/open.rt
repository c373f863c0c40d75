ghost use Rattle.std.specs.Prelude.{◌≡◌, ◌≤◌, [], ◌∷◌, ◌++◌, length, map, true, false, Some, IfOk, IfSome, OnOk, OnErr, option_copied, option_map};
ghost use Rattle.std.specs.Option.{option_to_list};
ghost use Rattle.gr_oql.specs.Events.{told_all};
ghost use Rattle.gr_cq.specs.Entries.{is_at, find, changed_at, with_kept, kept_stopped, kept_taken, kept_with, coming_to, entry_opened};
ghost use Rattle.gr_cq.specs.View.{kept_of, entry_of};

use crate::concern::can_concern;
use crate::waiting::Waiting;
use gr_oql::{Event, EventList, Query, Turned};
use gr_value::{Copied, Key, Memory};
use std::alloc::Global;

/// An open query: whose it is, its name, what it asks, whether it runs, and its waiting events.
#[derive(Drop)]
pub struct Open {
    client: u8,
    name: Key,
    query: Query,
    runs: bool,
    waiting: Waiting,
}

impl Open {
    /// A query that runs, with no events yet.
    pub fn new(alloc: Global, client: u8, name: &Key, query: &Query) -> Result<Open, Memory>
        ensures { IfOk result (λ one. entry_of one ≡ entry_opened client name.now query.now) }
    {
        Ok(Open {
            client,
            name: name.copy(alloc)?,
            query: query.copy(alloc)?,
            runs: true,
            waiting: Waiting::new(alloc),
        })
    }

    pub fn is_at(&self, client: u8, name: &Key) -> bool
        ensures { result ≡ is_at client name.now (entry_of self.now) }
    {
        self.client == client && self.name == *name
    }

    pub fn runs(&self) -> bool
        ensures { result ≡ self.now.runs }
    {
        self.runs
    }

    pub fn stop(&mut self)
        ensures { entry_of self.new ≡ with_kept kept_stopped (entry_of self.old) }
    {
        self.runs = false;
    }

    /// Copies of the events that wait, in order.
    pub fn waiting(&self, alloc: Global) -> Result<EventList, Memory>
        ensures { IfOk result (λ events. events ≡ self.now.waiting.events) }
    {
        self.waiting.copies(alloc)
    }

    /// Leaves no event waiting.
    pub fn clear(&mut self)
        ensures { entry_of self.new ≡ with_kept kept_taken (entry_of self.old) }
    {
        self.waiting.clear();
    }

    pub fn reserve(&mut self, more: usize) -> Result<(), Memory>
        ensures entry { entry_of self.new ≡ entry_of self.old }
        ensures kept { self.old.waiting.spare ≤ self.new.waiting.spare }
        ensures room { OnOk result (more ≤ self.new.waiting.spare) }
    {
        self.waiting.reserve(more)
    }

    /// Puts these events behind those that wait; there is room.
    pub fn hear(&mut self, events: &mut Vec<Event>)
        requires { length events.old.items ≤ self.old.waiting.spare }
        ensures { entry_of self.new ≡ with_kept (kept_with events.old.items) (entry_of self.old) }
    {
        self.waiting.append(events);
    }

    /// Puts an event, if there is one, behind those that wait; there is room.
    pub fn hear_one(&mut self, event: Option<Event>)
        requires { length (option_to_list event) ≤ self.old.waiting.spare }
        ensures { entry_of self.new ≡ with_kept (kept_with (option_to_list event)) (entry_of self.old) }
    {
        if let Some(event) = event {
            self.waiting.push(event);
        }
    }

    /// What the query is told of one key, if anything. One that was stopped is told nothing.
    pub fn coming_of(&self, alloc: Global, one: &Turned) -> Result<Option<Event>, Memory>
        ensures { IfOk result (λ event. option_to_list event ≡ coming_to (one.now ∷ []) (kept_of self.now)) }
    {
        if !self.runs {
            return Ok(None);
        }
        event_of(alloc, &self.query, one)
    }

    /// What the query is told of these keys. One that was stopped is told nothing.
    pub fn coming(&self, alloc: Global, turned: &[Turned]) -> Result<Vec<Event>, Memory>
        ensures { IfOk result (λ events. events.items ≡ coming_to turned.now (kept_of self.now)) }
    {
        if self.runs {
            Ok(told_all(alloc, &self.query, turned)?)
        } else {
            Ok(Vec::new(alloc))
        }
    }
}

// What a query is told of a key, if anything.
#[tactic(auto, using(crate::proofs::Untold::none_told))]
fn event_of(alloc: Global, query: &Query, one: &Turned) -> Result<Option<Event>, Memory>
    ensures { IfOk result (λ event. option_to_list event ≡ told_all query.now (one.now ∷ [])) }
{
    if can_concern(query.must(), one) {
        Event::of(alloc, query, one)
    } else {
        Ok(None)
    }
}

// Adds what a query is told of a key.
fn tell(alloc: Global, query: &Query, one: &Turned, events: &mut Vec<Event>) -> Result<(), Memory>
    ensures { OnOk result (events.new.items ≡ events.old.items ++ told_all query.now (one.now ∷ [])) }
{
    if let Some(event) = event_of(alloc, query, one)? {
        events.push(event)?;
    }
    Ok(())
}

// What a query is told of all these keys, in order.
#[tactic(auto, using(crate::proofs::Untold::told_next))]
fn told_all(alloc: Global, query: &Query, turned: &[Turned]) -> Result<Vec<Event>, Memory>
    ensures { IfOk result (λ events. events.items ≡ told_all query.now turned.now) }
{
    let mut events = Vec::new(alloc);
    for one in turned {
        tell(alloc, query, one, &mut events)?;
    }
    Ok(events)
}
