ghost use Rattle.std.specs.Prelude.{◌≡◌, IfOk};
ghost use Rattle.gr_oql.specs.Must.{must_of};
ghost use Rattle.gr_route.specs.Routes.{is_reached, reached};

use crate::IdList;
use gr_cq::can_concern;
use gr_oql::{Query, Turned};
use gr_value::Memory;
use std::alloc::Global;

/// A query, and the number that it was given.
#[derive(Drop)]
pub struct Enrolled {
    pub number: u32,
    pub query: Query,
}

impl Enrolled {
    pub fn is_reached(&self, turned: &Turned) -> bool
        ensures { result ≡ is_reached turned.now self.now }
    {
        can_concern(self.query.must(), turned)
    }
}

/// The numbers of those that the change can concern, in their order.
pub fn reached(alloc: Global, enrolled: &[Enrolled], turned: &Turned) -> Result<IdList, Memory>
    ensures { IfOk result (λ ids. ids ≡ reached turned.now enrolled.now) }
{
    let mut ids = IdList::new(alloc)?;
    for one in enrolled {
        if one.is_reached(turned) {
            ids.push(one.number)?;
        }
    }
    Ok(ids)
}
