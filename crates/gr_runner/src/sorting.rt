// The news of all threads, told apart.
ghost use Rattle.std.specs.Prelude.{◌≡◌, map, reverse, IfOk};
ghost use Rattle.std.specs.List.{filter_map};
ghost use Rattle.gr_runner.specs.Sorting.{IsAdded, sends_in, take_in, told_in};

use crate::gathering::News;
use gr_history::ClientRecordList;
use gr_member::Memory;
use gr_post::{SendPassList, TakePass};
use std::alloc::Global;

/// What all clients were told, the members' leaves to take mail, and all leaves to send.
#[derive(Drop)]
pub struct Sorted {
    pub told: ClientRecordList,
    pub takes: Vec<TakePass>,
    pub sends: Vec<SendPassList>,
}

impl Sorted {
    /// The news told apart, the last one first.
    pub fn new(alloc: Global, news: Vec<News>) -> Result<Sorted, Memory>
        ensures told { IfOk result (λ sorted. sorted.told ≡ filter_map told_in (reverse news.items)) }
        ensures takes { IfOk result (λ sorted. sorted.takes.items ≡ filter_map take_in (reverse news.items)) }
        ensures sends { IfOk result (λ sorted. sorted.sends.items ≡ map sends_in (reverse news.items)) }
    {
        let mut left = news;
        let mut sorted = Sorted {
            told: ClientRecordList::new(alloc)?,
            takes: Vec::new(alloc),
            sends: Vec::new(alloc),
        };
        while let Some(one) = left.pop() {
            sorted.add(one)?;
        }
        Ok(sorted)
    }

    fn add(&mut self, one: News) -> Result<(), Memory>
        ensures { IfOk result (λ _. IsAdded self.old one self.new) }
    {
        match one {
            News::Client { told, sends } => {
                self.told.push(told)?;
                self.sends.push(sends)?;
            }
            News::Member { take, sends } => {
                self.takes.push(take)?;
                self.sends.push(sends)?;
            }
        }
        Ok(())
    }
}
