ghost use Rattle.std.specs.Prelude.{◌≡◌};

use crate::Came;
use crate::effect::Effect;
use gr_cq::Turned;
use gr_history::Entry;

/// A deed with all that it takes memory for, which `Shard::commit` adds to the history that it was
/// prepared for.
#[derive(Drop)]
pub struct Prepared {
    pub(crate) deed: Entry,
    pub(crate) came: Came,
    pub(crate) turned: Vec<Turned>,
    pub(crate) effect: Effect,
}

impl Prepared {
    /// The keys that the deed turns, with their values before and behind it, in order.
    pub fn turned(&self) -> &[Turned]
        ensures { result.now ≡ self.now.turned.items }
    {
        &self.turned
    }
}
