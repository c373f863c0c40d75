ghost use Rattle.std.specs.Prelude.{◌≡◌, ◌≤◌, ◌==◌, [], length, IfOk, OnOk, OnErr, option_map};
ghost use Rattle.gr_cq.specs.Entries.{find, changed_at, kept_stopped, kept_taken, enrolled, closed, noted, entry_opened};
ghost use Rattle.gr_cq.specs.Ends.{enrol_end, stop_end, known_end, ended, EndsBy, waiting_of};
ghost use Rattle.gr_cq.specs.Foresight.{changed, IsMadeFor, IsWithin, Enrolling, Taking, Telling, coming_to_each, room_of};
ghost use Rattle.gr_cq.specs.Coming.{coming_end, entries_after};

use crate::foreseen::Foreseen;
use crate::open::Open;
use crate::opens::{carry_out, find_open, is_open, reserve_each, stop_at};
use crate::{Coming, QueryEnd, Turned};
use gr_oql::{EventList, Query};
use gr_value::{Key, Memory};
use std::alloc::Global;
use std::marker::Model;

/// The open queries. Contracts see them as a list, beside the number `spare`, which is at least 1 where
/// there is room for a call that was foreseen. Each query is told of at most `spare` events then.
#[derive(Drop)]
pub struct Registry {
    all: Vec<Open>,
    spare: usize,
}

impl Model for Registry {
    ghost use Rattle.std.specs.Coded.{codes};
    ghost use Rattle.gr_oql.specs.Question.{question_code};
    ghost use Rattle.gr_cq.specs.Entries.{Queries};

    ghost Value = { Queries };

    ghost coded = { Prim.hlevel (codes, question_code) };

    ghost use Rattle.gr_cq.specs.View.{entries_of, IsRoomy};

    ghost view = { λ r. record { entries = entries_of r.all.items; spare = r.spare } };

    ghost invariant = { λ r. IsRoomy r.spare r.all };
}

impl Registry {
    /// No query is open.
    pub fn new(alloc: Global) -> Result<Registry, Memory>
        ensures { IfOk result (λ registry. registry ≡ record { entries = []; spare = 0 }) }
    {
        Ok(Registry {
            all: Vec::new(alloc),
            spare: 0,
        })
    }

    /// Whether no query is open.
    pub fn is_empty(&self) -> bool
        ensures { result ≡ length self.now.entries == 0 }
    {
        self.all.is_empty()
    }

    /// For how many events there is room at each query.
    pub fn spare(&self) -> usize
        ensures { result ≡ self.now.spare }
    {
        self.spare
    }

    /// Whether the query of that client and name runs, where it is open.
    pub fn runs(&self, client: u8, name: &Key) -> Option<bool>
        ensures { result ≡ option_map (λ kept. kept.runs) (find client name.now self.now.entries) }
    {
        Some(find_open(&self.all, client, name)?.runs())
    }

    /// Copies of the events that wait at the query of that client and name, in order; none where it isn't
    /// open.
    pub fn waiting(&self, alloc: Global, client: u8, name: &Key) -> Result<EventList, Memory>
        ensures { IfOk result (λ events. events ≡ waiting_of (find client name.now self.now.entries)) }
    {
        match find_open(&self.all, client, name) {
            None => Ok(EventList::new(alloc)?),
            Some(one) => one.waiting(alloc),
        }
    }

    /// Opens a query, which runs from now on.
    pub fn enrol(
        &mut self,
        alloc: Global,
        client: u8,
        name: &Key,
        query: &Query,
    ) -> Result<(), QueryEnd>
        ensures refused { EndsBy (enrol_end (find client name.now self.old.entries)) result }
        ensures ok { OnOk result (self.new ≡ record { entries = enrolled client name.now query.now self.old.entries; spare = 0 }) }
        ensures err { OnErr result (self.new ≡ self.old) }
    {
        let foreseen = self.foresee_enrol(alloc, client, name, query)?;
        self.apply(foreseen);
        Ok(())
    }

    /// Stops a query. Its waiting events stay. This takes no memory.
    pub fn stop(&mut self, client: u8, name: &Key) -> Result<(), QueryEnd>
        ensures answer { result ≡ ended (stop_end (find client name.now self.old.entries)) }
        ensures ok { OnOk result (self.new ≡ record { entries = changed_at client name.now kept_stopped self.old.entries; spare = 0 }) }
        ensures err { OnErr result (self.new ≡ self.old) }
    {
        let Some(one) = find_open(&self.all, client, name) else {
            return Err(QueryEnd::Unknown);
        };
        if !one.runs() {
            return Err(QueryEnd::NotRunning);
        }
        self.spare = 0;
        stop_at(&mut self.all, client, name);
        Ok(())
    }

    /// Closes a query and drops its waiting events. Its name is free again. This takes no memory.
    pub fn close(&mut self, client: u8, name: &Key) -> Result<(), QueryEnd>
        ensures answer { result ≡ ended (known_end (find client name.now self.old.entries)) }
        ensures ok { OnOk result (self.new ≡ record { entries = closed client name.now self.old.entries; spare = 0 }) }
        ensures err { OnErr result (self.new ≡ self.old) }
    {
        if !is_open(&self.all, client, name) {
            return Err(QueryEnd::Unknown);
        }
        self.spare = 0;
        self.all.retain(|one| !one.is_at(client, name));
        Ok(())
    }

    /// Hands out the waiting events in order, and leaves none.
    pub fn take(&mut self, alloc: Global, client: u8, name: &Key) -> Result<EventList, QueryEnd>
        ensures refused { EndsBy (known_end (find client name.now self.old.entries)) result }
        ensures events { IfOk result (λ events. events ≡ waiting_of (find client name.now self.old.entries)) }
        ensures ok { OnOk result (self.new ≡ record { entries = changed_at client name.now kept_taken self.old.entries; spare = 0 }) }
        ensures err { OnErr result (self.new ≡ self.old) }
    {
        let Some(one) = find_open(&self.all, client, name) else {
            return Err(QueryEnd::Unknown);
        };
        let events = one.waiting(alloc)?;
        let foreseen = self.foresee_take(alloc, client, name)?;
        self.apply(foreseen);
        Ok(events)
    }

    /// Tells each running query of the turned keys, in order.
    pub fn note(&mut self, alloc: Global, turned: &[Turned]) -> Result<(), Memory>
        ensures ok { OnOk result (self.new ≡ record { entries = noted turned.now self.old.entries; spare = 0 }) }
        ensures err { OnErr result (self.new ≡ self.old) }
    {
        let foreseen = self.foresee_note(alloc, turned)?;
        self.apply(foreseen);
        Ok(())
    }

    /// Makes all that the coming call takes memory for, and changes nothing yet.
    pub fn foresee(&mut self, alloc: Global, coming: &Coming) -> Result<Foreseen, QueryEnd>
        ensures refused { EndsBy (coming_end coming.now self.old.entries) result }
        ensures entries { self.new.entries ≡ self.old.entries }
        ensures keeps { self.old.spare ≤ self.new.spare }
        ensures made { IfOk result (IsMadeFor self.new) }
        ensures room { IfOk result (λ foreseen. room_of foreseen ≤ self.new.spare) }
        ensures leaves { IfOk result (λ foreseen. changed foreseen self.old.entries ≡ entries_after coming.now self.old.entries) }
        ensures err { OnErr result (self.new ≡ self.old) }
    {
        match coming {
            Coming::Enrol {
                client,
                name,
                query,
            } => self.foresee_enrol(alloc, *client, name, query),
            Coming::Take { client, name } => self.foresee_take(alloc, *client, name),
            Coming::Note { turned } => Ok(self.foresee_note(alloc, turned)?),
        }
    }

    /// Makes the change of the call that was foreseen. This takes no memory.
    pub fn apply(&mut self, foreseen: Foreseen)
        requires { IsMadeFor self.old foreseen }
        ensures { self.new ≡ record { entries = changed foreseen self.old.entries; spare = 0 } }
    {
        let Foreseen { plan } = foreseen;
        self.spare = 0;
        carry_out(&mut self.all, plan);
    }

    // Makes room for one query more, and for so many events at each query.
    fn make_room(&mut self, room: usize) -> Result<(), Memory>
        ensures entries { self.new.entries ≡ self.old.entries }
        ensures keeps { self.old.spare ≤ self.new.spare }
        ensures ok { OnOk result (room ≤ self.new.spare) }
        ensures err { OnErr result (self.new ≡ self.old) }
    {
        if room <= self.spare {
            return Ok(());
        }
        self.all.reserve(1)?;
        reserve_each(&mut self.all, room)?;
        self.spare = room;
        Ok(())
    }

    // Makes room for what was foreseen.
    fn ready(&mut self, foreseen: Foreseen) -> Result<Foreseen, Memory>
        ensures entries { self.new.entries ≡ self.old.entries }
        ensures keeps { self.old.spare ≤ self.new.spare }
        ensures room { OnOk result ((1 ≤ self.new.spare) × IsWithin self.new.spare foreseen × (room_of foreseen ≤ self.new.spare)) }
        ensures same { IfOk result (λ same. same ≡ foreseen) }
        ensures err { OnErr result (self.new ≡ self.old) }
    {
        self.make_room(foreseen.room())?;
        Ok(foreseen)
    }

    fn foresee_enrol(
        &mut self,
        alloc: Global,
        client: u8,
        name: &Key,
        query: &Query,
    ) -> Result<Foreseen, QueryEnd>
        ensures refused { EndsBy (enrol_end (find client name.now self.old.entries)) result }
        ensures entries { self.new.entries ≡ self.old.entries }
        ensures keeps { self.old.spare ≤ self.new.spare }
        ensures made { IfOk result (IsMadeFor self.new) }
        ensures room { IfOk result (λ foreseen. room_of foreseen ≤ self.new.spare) }
        ensures tells { IfOk result (λ foreseen. foreseen ≡ Enrolling (entry_opened client name.now query.now)) }
        ensures err { OnErr result (self.new ≡ self.old) }
    {
        if is_open(&self.all, client, name) {
            return Err(QueryEnd::Taken);
        }
        let foreseen = Foreseen::enrol(alloc, client, name, query)?;
        Ok(self.ready(foreseen)?)
    }

    fn foresee_take(&mut self, alloc: Global, client: u8, name: &Key) -> Result<Foreseen, QueryEnd>
        ensures refused { EndsBy (known_end (find client name.now self.old.entries)) result }
        ensures entries { self.new.entries ≡ self.old.entries }
        ensures keeps { self.old.spare ≤ self.new.spare }
        ensures made { IfOk result (IsMadeFor self.new) }
        ensures room { IfOk result (λ foreseen. room_of foreseen ≤ self.new.spare) }
        ensures tells { IfOk result (λ foreseen. foreseen ≡ Taking client name.now) }
        ensures err { OnErr result (self.new ≡ self.old) }
    {
        if !is_open(&self.all, client, name) {
            return Err(QueryEnd::Unknown);
        }
        let foreseen = Foreseen::take(alloc, client, name)?;
        Ok(self.ready(foreseen)?)
    }

    fn foresee_note(&mut self, alloc: Global, turned: &[Turned]) -> Result<Foreseen, Memory>
        ensures entries { self.new.entries ≡ self.old.entries }
        ensures keeps { self.old.spare ≤ self.new.spare }
        ensures made { IfOk result (IsMadeFor self.new) }
        ensures room { IfOk result (λ foreseen. room_of foreseen ≤ self.new.spare) }
        ensures tells { IfOk result (λ foreseen. foreseen ≡ Telling (coming_to_each turned.now self.old.entries)) }
        ensures err { OnErr result (self.new ≡ self.old) }
    {
        let foreseen = Foreseen::note(alloc, &self.all, turned)?;
        self.ready(foreseen)
    }
}
