ghost use Rattle.std.specs.Prelude.{◌≡◌, ◌≤◌, [], IfOk, OnOk, length};
ghost use Rattle.gr_world.specs.Numbered.{numbers_from, PairsFrom};
ghost use Rattle.gr_world.specs.Worlds.{IsClientOf, told_also};

use gr_history::{Answer, AnswerList, ClientRecord, ClientRecordList};
use gr_value::Memory;
use std::alloc::Global;
use std::marker::Model;

/// What each client was told.
#[derive(Drop)]
pub struct Tellings {
    lists: Vec<AnswerList>,
}

impl Model for Tellings {
    ghost use Rattle.std.specs.Prelude.{List};
    ghost use Rattle.gr_history.specs.declared.record.Answer.{Answer};

    ghost Value = { List (List Answer) };

    ghost view = { λ tellings. tellings.lists.items };
}

impl Tellings {
    pub fn new(alloc: Global, clients: usize) -> Result<Tellings, Memory>
        ensures { IfOk result (λ tellings. tellings ≡ numbers_from 1 clients (λ _. [])) }
    {
        let mut lists = Vec::new(alloc);
        for _client in 0..clients {
            lists.push(AnswerList::new(alloc)?)?;
        }
        Ok(Tellings { lists })
    }

    #[inline(always)]
    pub fn tell(&mut self, client: u8, answer: Answer) -> Result<(), Memory>
        requires from { 1 ≤ client }
        requires stated { client ≤ length self.old }
        ensures { OnOk result (self.new ≡ told_also self.old client answer) }
    {
        let list = &mut self.lists[usize::from(client) - 1];
        list.push(answer)
    }

    /// What each client was told, with the member that it is at.
    pub fn into_records(self, alloc: Global, members: &[u8]) -> Result<ClientRecordList, Memory>
        requires few { length members.now ≤ 64 }
        requires each { length self ≡ length members.now }
        ensures { IfOk result (PairsFrom (IsClientOf members.now) 1 self) }
    {
        let mut clients = ClientRecordList::new(alloc)?;
        let mut place = 0usize;
        for answers in self.lists {
            clients.push(ClientRecord {
                client: place as u8 + 1,
                member: members[place],
                answers,
            })?;
            place += 1;
        }
        Ok(clients)
    }
}
