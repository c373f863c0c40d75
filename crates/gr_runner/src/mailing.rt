// Inboxes, and who sends to them.
ghost use Rattle.std.specs.Prelude.{◌≡◌, ◌≤◌, ◌+◌, ◌++◌, ◌∷◌, [], ℕ, List, length, IfOk};
ghost use Rattle.std.specs.List.{AllByRecursion};
ghost use Rattle.gr_post.specs.Passes.{Ring};
ghost use Rattle.gr_runner.specs.Mailing.{AreSendersOf, HaveSenders, IsOpen};

use gr_member::Memory;
use gr_post::{Inbox, InboxList, SendPass, SendPassList, TakePass};
use std::alloc::Global;

/// An inbox for each member, that of member 1 first, with its senders' passes that are left and its
/// taker's.
#[derive(Drop)]
pub struct Mailing {
    pub inboxes: InboxList,
    pub sends: Vec<SendPassList>,
    pub takes: Vec<TakePass>,
}

impl Mailing {
    /// Inboxes for so many members, each with room for so many mails and with so many senders.
    pub fn new(alloc: Global, members: u8, senders: u32, capacity: u32) -> Result<Mailing, Memory>
        requires { (1 ≤ capacity) × (capacity ≤ 4096) }
        ensures { IfOk result (λ m. IsOpen members senders m.inboxes m.sends.items m.takes.items) }
    {
        let mut inboxes = InboxList::new(alloc)?;
        let mut sends = Vec::new(alloc);
        let mut takes = Vec::new(alloc);
        for _k in 0..members {
            let (inbox, passes, take) = Inbox::new(alloc, capacity, senders)?;
            inboxes.push(inbox)?;
            sends.push(passes)?;
            takes.push(take)?;
        }
        Ok(Mailing {
            inboxes,
            sends,
            takes,
        })
    }

    /// The passes to all inboxes of the last sender that is left.
    pub fn last_sender(&mut self, alloc: Global) -> Result<SendPassList, Memory>
        requires { AllByRecursion (λ passes. 1 ≤ length passes) self.old.sends.items }
        ensures inboxes { self.new.inboxes ≡ self.old.inboxes }
        ensures takes { self.new.takes ≡ self.old.takes }
        ensures own { IfOk result (λ own. (rings : List Ring) (left : ℕ) → HaveSenders rings (left + 1) self.old.sends.items
            → HaveSenders rings left self.new.sends.items × AreSendersOf rings left own) }
    {
        let mut own = SendPassList::new(alloc)?;
        for k in 0..self.sends.len() {
            let pass = last_of(&mut self.sends[k]);
            own.push(pass)?;
        }
        Ok(own)
    }
}

fn last_of(passes: &mut SendPassList) -> SendPass
    requires { 1 ≤ length passes.old }
    ensures { passes.old ≡ passes.new ++ result ∷ [] }
{
    let Some(pass) = passes.pop() else {
        unreachable!()
    };
    pass
}
