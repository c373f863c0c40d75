use crate::parts::{ASKING, Parts};
use crate::stop::Stop;
use gr_cq::{Coming, QueryEnd};
use gr_history::{QueryAsk, QueryReply};
use gr_oql::Query;
use gr_value::Key;
use std::alloc::Global;

/// What comes of a step on a query.
#[derive(Clone, Copy, PartialEq)]
pub enum Outcome {
    Opened,
    Stopped,
    Closed,
    Fetched(usize),
    Unknown,
    Taken,
    NotRunning,
}

impl Outcome {
    /// The outcome that a reply tells.
    pub fn of(reply: &QueryReply) -> Outcome {
        match reply {
            QueryReply::Opened(_) => Outcome::Opened,
            QueryReply::Stopped => Outcome::Stopped,
            QueryReply::Closed => Outcome::Closed,
            QueryReply::Fetched(events) => Outcome::Fetched(events.get().len()),
            QueryReply::Unknown => Outcome::Unknown,
            QueryReply::Taken => Outcome::Taken,
            QueryReply::NotRunning => Outcome::NotRunning,
        }
    }

    // The outcome where the call ends so.
    fn ended(end: QueryEnd) -> Result<Outcome, Stop> {
        match end {
            QueryEnd::Unknown => Ok(Outcome::Unknown),
            QueryEnd::Taken => Ok(Outcome::Taken),
            QueryEnd::NotRunning => Ok(Outcome::NotRunning),
            QueryEnd::Memory => Err(Stop::Refused),
        }
    }
}

impl Parts {
    /// Does a client's step on a query.
    pub fn ask(&mut self, alloc: Global, ask: &QueryAsk) -> Result<Outcome, Stop> {
        match ask {
            QueryAsk::Enrol { name, query } => self.enrol(alloc, name, query),
            QueryAsk::Fetch { name } => self.fetch(alloc, name),
            QueryAsk::Stop { name } => match self.registry.stop(ASKING, name) {
                Ok(()) => Ok(Outcome::Stopped),
                Err(end) => Outcome::ended(end),
            },
            QueryAsk::Close { name } => match self.registry.close(ASKING, name) {
                Ok(()) => Ok(Outcome::Closed),
                Err(end) => Outcome::ended(end),
            },
        }
    }

    fn enrol(&mut self, alloc: Global, name: &Key, query: &Query) -> Result<Outcome, Stop> {
        let coming = Coming::Enrol {
            client: ASKING,
            name,
            query,
        };
        self.carry_out(alloc, &coming, Outcome::Opened)
    }

    fn fetch(&mut self, alloc: Global, name: &Key) -> Result<Outcome, Stop> {
        let count = anew!(self.registry.waiting(alloc, ASKING, name))?.len();
        let coming = Coming::Take {
            client: ASKING,
            name,
        };
        self.carry_out(alloc, &coming, Outcome::Fetched(count))
    }

    // Foresees the call, and makes its change where it isn't refused.
    fn carry_out(
        &mut self,
        alloc: Global,
        coming: &Coming,
        outcome: Outcome,
    ) -> Result<Outcome, Stop> {
        match self.foresee(alloc, coming)? {
            Ok(foreseen) => {
                self.registry.apply(foreseen);
                Ok(outcome)
            }
            Err(end) => Outcome::ended(end),
        }
    }
}
