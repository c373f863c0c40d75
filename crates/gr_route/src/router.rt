ghost use Rattle.std.specs.Prelude.{◌≡◌, ◌+◌, ◌<◌, ◌==◌, ◌++◌, [], ◌∷◌, not, filter, IfOk, OnErr};
ghost use Rattle.std.specs.List.Sorted.{IsStrictlySortedBy};
ghost use Rattle.std.specs.Ordering.{nat_cmp};
ghost use Rattle.gr_route.specs.Routes.{reached};

use crate::enrolled::{Enrolled, reached};
use gr_oql::{Query, Turned};
use gr_value::{Copied, ItemList, Memory};
use std::alloc::Global;
use std::marker::Model;

/// Numbers of queries.
pub type IdList = ItemList<u32>;

/// The queries that are enrolled, in the order of the numbers that they were given. Contracts see them
/// beside the number that comes next.
#[derive(Drop)]
pub struct Router {
    next: u32,
    enrolled: Vec<Enrolled>,
}

impl Model for Router {
    ghost use Rattle.std.specs.Coded.{codes};
    ghost use Rattle.gr_oql.specs.Question.{question_code};
    ghost use Rattle.gr_route.specs.Routes.{Routes, Ascend};

    ghost Value = { Routes };

    ghost coded = { Prim.hlevel (codes, question_code) };

    ghost view = { λ r. record { next = r.next; enrolled = r.enrolled.items } };

    ghost invariant = { λ r. Ascend 0 r.next r.enrolled.items };
}

impl Router {
    /// No query is enrolled, and none was.
    pub fn new(alloc: Global) -> Result<Router, Memory>
        ensures { IfOk result (λ router. router ≡ record { next = 0; enrolled = [] }) }
    {
        Ok(Router {
            next: 0,
            enrolled: Vec::new(alloc),
        })
    }

    /// Enrols a query, and answers its number: how many were enrolled before it, those that left too.
    pub fn enrol(&mut self, alloc: Global, query: &Query) -> Result<u32, Memory>
        requires { self.old.next < 4294967295 }
        ensures number { IfOk result (λ number. number ≡ self.old.next) }
        ensures enrolled { IfOk result (λ number. self.new
            ≡ record { next = number + 1; enrolled = self.old.enrolled ++ record { number = number; query = query.now } ∷ [] }) }
        ensures err { OnErr result (self.new ≡ self.old) }
    {
        let number = self.next;
        let query = query.copy(alloc)?;
        self.enrolled.push(Enrolled { number, query })?;
        self.next = number + 1;
        Ok(number)
    }

    /// Takes the query of a number out, if it is enrolled. Its number isn't given again.
    pub fn leave(&mut self, id: u32)
        ensures { self.new ≡ record self.old { enrolled = filter (λ one. not (one.number == id)) self.old.enrolled } }
    {
        self.enrolled.retain(|one| one.number != id);
    }

    /// The numbers of the queries that a change can concern.
    pub fn reach(&self, alloc: Global, turned: &Turned) -> Result<IdList, Memory>
        ensures reached { IfOk result (λ ids. ids ≡ reached turned.now self.now.enrolled) }
        ensures in_order { IfOk result (IsStrictlySortedBy nat_cmp) }
    {
        reached(alloc, &self.enrolled, turned)
    }
}
