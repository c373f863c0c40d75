ghost use Rattle.std.specs.Prelude.{◌≡◌, ◌≤◌, IfOk};
ghost use Rattle.gr_cq.specs.Entries.{entry_opened};
ghost use Rattle.gr_cq.specs.Foresight.{Enrolling, Taking, Telling, IsWithin, coming_to_each, room_of};
ghost use Rattle.gr_cq.specs.View.{entries_of};

use crate::Turned;
use crate::open::Open;
use crate::opens::{coming_to_each, longest};
use gr_oql::{Event, Query};
use gr_value::{Copied, Key, Memory};
use std::alloc::Global;
use std::marker::Model;

/// What a call that is coming changes.
#[derive(Drop)]
pub(crate) enum Plan {
    Enrol(Box<Open>),
    Take { client: u8, name: Key },
    /// What the only query is told of the only key, if anything: this takes no list.
    Tell(Option<Event>),
    /// What each open query is told, in their order.
    Note(Vec<Vec<Event>>),
}

/// A call that was foreseen, which contracts see as what it changes.
#[derive(Drop)]
pub struct Foreseen {
    pub(crate) plan: Plan,
}

impl Model for Foreseen {
    ghost use Rattle.std.specs.Coded.{codes};
    ghost use Rattle.gr_oql.specs.Question.{question_code};
    ghost use Rattle.gr_cq.specs.Foresight.{Foresight};

    ghost Value = { Foresight };

    ghost coded = { Prim.hlevel (codes, question_code) };

    ghost use Rattle.gr_cq.specs.View.{change_of};

    ghost view = { λ f. change_of f.plan };
}

impl Foreseen {
    pub(crate) fn enrol(
        alloc: Global,
        client: u8,
        name: &Key,
        query: &Query,
    ) -> Result<Foreseen, Memory>
        ensures { IfOk result (λ foreseen. foreseen ≡ Enrolling (entry_opened client name.now query.now)) }
    {
        Ok(Foreseen {
            plan: Plan::Enrol(Box::new(alloc, Open::new(alloc, client, name, query)?)?),
        })
    }

    pub(crate) fn take(alloc: Global, client: u8, name: &Key) -> Result<Foreseen, Memory>
        ensures { IfOk result (λ foreseen. foreseen ≡ Taking client name.now) }
    {
        let name = name.copy(alloc)?;
        Ok(Foreseen {
            plan: Plan::Take { client, name },
        })
    }

    pub(crate) fn note(alloc: Global, all: &[Open], turned: &[Turned]) -> Result<Foreseen, Memory>
        ensures { IfOk result (λ foreseen. foreseen ≡ Telling (coming_to_each turned.now (entries_of all.now))) }
    {
        if all.len() == 1 && turned.len() == 1 {
            return Ok(Foreseen {
                plan: Plan::Tell(all[0].coming_of(alloc, &turned[0])?),
            });
        }
        Ok(Foreseen {
            plan: Plan::Note(coming_to_each(alloc, all, turned)?),
        })
    }

    /// For how many events there must be room at each query, and at least 1.
    pub fn room(&self) -> usize
        ensures room { result ≡ room_of self.now }
        ensures some { 1 ≤ result }
        ensures within { IsWithin result self.now }
    {
        match &self.plan {
            Plan::Enrol(_) | Plan::Take { .. } | Plan::Tell(_) => 1,
            Plan::Note(lists) => longest(lists),
        }
    }
}
