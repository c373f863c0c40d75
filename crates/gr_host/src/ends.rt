ghost use Rattle.std.specs.Prelude.{◌≡◌, ◌<◌, ℕ, Bool, true, [], length, slice_index_or, slice_set, IfOk};
ghost use Rattle.gr_host.specs.Ends.{AreEnds};

use gr_value::Memory;
use std::alloc::Global;
use std::marker::Model;

/// Which senders' `End` was taken, which contracts see as a mark of each.
#[derive(Drop)]
pub struct Ends {
    ended: Vec<bool>,
}

impl Model for Ends {
    ghost use Rattle.std.specs.Prelude.{Bool, List};

    ghost Value = { List Bool };

    ghost view = { λ ends. ends.ended.items };
}

impl Ends {
    /// Of so many senders, of which none has ended.
    pub fn new(alloc: Global, senders: u32) -> Result<Ends, Memory>
        ensures { IfOk result (λ ends. AreEnds senders [] ends) }
    {
        let mut ended = Vec::with_capacity(alloc, senders as usize)?;
        for _k in 0..senders {
            ended.push_reserved(false);
        }
        Ok(Ends { ended })
    }

    // Marks a sender.
    pub(crate) fn mark(&mut self, sender: u32)
        requires { sender < length self.old }
        ensures { self.new ≡ slice_set self.old sender true }
    {
        self.ended[sender as usize] = true;
    }

    // Whether each sender has ended.
    pub(crate) fn all(&self) -> bool
        ensures { result ≡ true → (k : ℕ) (b : Bool) → k < length self.now → slice_index_or self.now k b ≡ true }
    {
        for k in 0..self.ended.len() {
            if !self.ended[k] {
                return false;
            }
        }
        true
    }
}
