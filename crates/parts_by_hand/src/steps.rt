use crate::making::{close, destroy, fetch, open, put, stop};
use crate::stop::Stop;
use crate::walk::Walk;

/// A step at a member of this number, or on a query of the second member's client.
#[derive(Clone, Copy)]
pub enum Step {
    /// Puts a value of this text.
    Put(u8, &'static str),
    Destroy(u8),
    /// The mail at this place comes.
    Mail(u8, usize),
    Report(u8),
    Sweep(u8, u64),
    /// Gives the third member its own changes.
    GiveOwn(u8),
    /// Gives the third member an image.
    GiveImage(u8),
    /// Merges that image.
    Merge(u8),
    Open(&'static str, &'static str),
    Fetch(&'static str),
    Stop(&'static str),
    Close(&'static str),
}

impl Walk {
    /// Does a step, and prints it.
    pub fn step(&mut self, rt: &HostRuntime, name: &str, step: Step) -> Result<(), Stop> {
        let alloc = rt.alloc();
        match step {
            Step::Put(member, text) => self.call(rt, name, member, put(alloc, text)?),
            Step::Destroy(member) => self.call(rt, name, member, destroy(alloc)?),
            Step::Mail(member, place) => self.mail(rt, name, member, place),
            Step::Report(member) => self.report(rt, name, member),
            Step::Sweep(member, moment) => self.sweep(rt, name, member, moment),
            Step::GiveOwn(member) => self.give_own(rt, name, member),
            Step::GiveImage(member) => self.give_image(rt, name, member),
            Step::Merge(member) => self.merge(rt, name, member),
            Step::Open(query, text) => self.query(rt, name, open(alloc, query, text)?),
            Step::Fetch(query) => self.query(rt, name, fetch(alloc, query)?),
            Step::Stop(query) => self.query(rt, name, stop(alloc, query)?),
            Step::Close(query) => self.query(rt, name, close(alloc, query)?),
        }
    }
}
