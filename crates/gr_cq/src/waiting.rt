ghost use Rattle.std.specs.Prelude.{◌≡◌, ◌≤◌, [], ◌∷◌, ◌++◌, length, IfOk, OnOk};

use gr_oql::{Event, EventList};
use gr_value::{Copied, Memory};
use std::alloc::Global;
use std::marker::Model;

// Events that are handed out are copies, which share their keys and values with those that waited. So they
// cost what is handed out, and their list has no more room than they take.
/// Events that wait to be fetched. Contracts see them beside the number of further ones that there is
/// room for.
#[derive(Drop)]
pub struct Waiting {
    events: Vec<Event>,
}

impl Model for Waiting {
    ghost use Rattle.std.specs.Prelude.{◌-◌, vec_len, vec_capacity};
    ghost use Rattle.gr_cq.specs.Waiting.{Waits};

    ghost Value = { Waits };

    ghost view = { λ waiting. record { events = waiting.events.items; spare = vec_capacity waiting.events - vec_len waiting.events } };
}

impl Waiting {
    pub fn new(alloc: Global) -> Waiting
        ensures { result.events ≡ [] }
    {
        Waiting {
            events: Vec::new(alloc),
        }
    }

    /// Makes room for so many more.
    pub fn reserve(&mut self, more: usize) -> Result<(), Memory>
        ensures events { self.new.events ≡ self.old.events }
        ensures kept { self.old.spare ≤ self.new.spare }
        ensures room { OnOk result (more ≤ self.new.spare) }
    {
        self.events.reserve(more)?;
        Ok(())
    }

    /// Moves all of these behind those that wait; there is room.
    pub fn append(&mut self, more: &mut Vec<Event>)
        requires { length more.old.items ≤ self.old.spare }
        ensures { self.new.events ≡ self.old.events ++ more.old.items }
    {
        let _ = self.events.append(more);
    }

    /// Moves one behind those that wait; there is room.
    pub fn push(&mut self, event: Event)
        requires { 1 ≤ self.old.spare }
        ensures { self.new.events ≡ self.old.events ++ event ∷ [] }
    {
        self.events.push_reserved(event);
    }

    /// Drops all events, with their room.
    pub fn clear(&mut self)
        ensures { self.new.events ≡ [] }
    {
        self.events.clear();
        self.events.shrink_to_fit();
    }

    /// Copies of all events, in order.
    pub fn copies(&self, alloc: Global) -> Result<EventList, Memory>
        ensures { IfOk result (λ copies. copies ≡ self.now.events) }
    {
        let mut copies = Vec::with_capacity(alloc, self.events.len())?;
        for event in &self.events {
            copies.push(event.copy(alloc)?)?;
        }
        Ok(EventList::from_vec(copies))
    }
}
