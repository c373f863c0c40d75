ghost use Rattle.std.specs.Prelude.{◌≤◌};

use crate::mails::carry;
use crate::member::Member;
use crate::parts::ASKING;
use crate::rows::Named;
use crate::stop::Stop;
use gr_history::{Ask, Image, QueryAsk};
use gr_post::{Mail, Posting};
use gr_value::Copied;
use std::alloc::Global;
use std::sync::Wait;

/// The members of a script, the mails that its steps made, with the members to which each goes, and the image
/// that was given.
#[derive(Drop)]
pub struct Walk {
    members: Vec<Member>,
    mails: Vec<Posting>,
    image: Option<Image>,
}

/// Walks the steps of a script. `waits` is the process itself once more: only `main` may hand that out.
pub fn walk_script<R: Wait + Sync>(
    rt: &HostRuntime,
    waits: &R,
    title: &str,
    members: u8,
    steps: &[Named],
) -> Result<(), Stop>
    requires founded { 2 ≤ members }
    requires few { members ≤ 8 }
{
    println!(rt; "{title}")?;
    let mut walk = Walk::new(rt.alloc(), members)?;
    for (name, step) in steps {
        walk.step(rt, name, *step)?;
    }
    for member in &walk.members {
        member.leave(rt)?;
    }
    carry(rt, waits, &walk.mails)
}

// Puts an item last, behind making room for it.
fn put_last<T: Drop>(all: &mut Vec<T>, item: T) -> Result<(), Stop> {
    anew!(all.reserve(1))?;
    all.push(item).map_err(|_| Stop::Otherwise)
}

impl Walk {
    fn new(alloc: Global, members: u8) -> Result<Walk, Stop>
        requires founded { 2 ≤ members }
        requires few { members ≤ 8 }
    {
        let mut all = Vec::new(alloc);
        for before in 0..members {
            put_last(&mut all, Member::new(alloc, before + 1, members)?)?;
        }
        Ok(Walk {
            members: all,
            mails: Vec::new(alloc),
            image: None,
        })
    }

    fn member(&mut self, member: u8) -> Result<&mut Member, Stop> {
        self.members
            .get_mut(usize::from(member).saturating_sub(1))
            .ok_or(Stop::Otherwise)
    }

    // A copy of the mail at a place.
    fn mail_at(&self, alloc: Global, place: usize) -> Result<Mail, Stop> {
        match self.mails.get(place) {
            None => Err(Stop::Otherwise),
            Some(posting) => Ok(anew!(posting.mail.copy(alloc))?),
        }
    }

    pub fn call(&mut self, rt: &HostRuntime, name: &str, at: u8, ask: Ask) -> Result<(), Stop> {
        let mail = self.member(at)?.call(rt, name, &ask)?;
        put_last(&mut self.mails, mail)
    }

    pub fn query(&mut self, rt: &HostRuntime, name: &str, ask: QueryAsk) -> Result<(), Stop> {
        self.member(ASKING)?.query(rt, name, &ask)
    }

    pub fn mail(&mut self, rt: &HostRuntime, name: &str, at: u8, place: usize) -> Result<(), Stop> {
        let mail = self.mail_at(rt.alloc(), place)?;
        self.member(at)?.take(rt, name, &mail)
    }

    pub fn report(&mut self, rt: &HostRuntime, name: &str, at: u8) -> Result<(), Stop> {
        let mail = self.member(at)?.report(rt, name)?;
        put_last(&mut self.mails, mail)
    }

    pub fn sweep(&mut self, rt: &HostRuntime, name: &str, at: u8, moment: u64) -> Result<(), Stop> {
        self.member(at)?.sweep(rt, name, moment)
    }

    pub fn give_own(&mut self, rt: &HostRuntime, name: &str, at: u8) -> Result<(), Stop> {
        let mail = self.member(at)?.give_own(rt, name)?;
        put_last(&mut self.mails, mail)
    }

    pub fn give_image(&mut self, rt: &HostRuntime, name: &str, at: u8) -> Result<(), Stop> {
        let image = self.member(at)?.give_image(rt, name)?;
        self.image = Some(image);
        Ok(())
    }

    pub fn merge(&mut self, rt: &HostRuntime, name: &str, at: u8) -> Result<(), Stop> {
        match anew!(self.image.copy(rt.alloc()))? {
            None => Err(Stop::Otherwise),
            Some(image) => self.member(at)?.merge(rt, name, &image),
        }
    }
}
