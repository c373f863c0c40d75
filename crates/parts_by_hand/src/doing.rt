use crate::member::Member;
use crate::queries::Outcome;
use crate::stop::Stop;
use crate::words::Answer;
use gr_history::{Ask, Done, Gift, Image, QueryAsk, Verdict, What};
use gr_post::{Mail, Posting};
use gr_stamp::Change;
use gr_value::{Copied, Shared};
use gr_vector::Report;

impl Member {
    /// A call of this member's client, and the change that it makes.
    pub fn call(&mut self, rt: &HostRuntime, name: &str, ask: &Ask) -> Result<Posting, Stop> {
        let Done { reply, made, to } = self.done(rt.alloc(), ask)?;
        let Some(change) = made else {
            return Err(Stop::Otherwise);
        };
        self.parts.set(rt.alloc(), change.get())?;
        self.parts.note(&change.get().stamp)?;
        self.end(rt, name, Answer::Reply(&reply))?;
        let mail = Mail::Change { shard: 0, change };
        Ok(Posting { mail, to })
    }

    /// A step of this member's client on a query.
    pub fn query(&mut self, rt: &HostRuntime, name: &str, ask: &QueryAsk) -> Result<(), Stop> {
        let reply = self.asked(rt.alloc(), ask)?;
        if self.parts.ask(rt.alloc(), ask)? != Outcome::of(&reply) {
            return Err(Stop::Otherwise);
        }
        self.end(rt, name, Answer::Asked(&reply))
    }

    /// A mail comes.
    pub fn take(&mut self, rt: &HostRuntime, name: &str, mail: &Mail) -> Result<(), Stop> {
        match mail {
            Mail::Change { change, .. } => self.deliver(rt, name, change),
            Mail::Report { report, .. } => self.hear(rt, name, report.get()),
            Mail::End => Err(Stop::Otherwise),
        }
    }

    fn deliver(
        &mut self,
        rt: &HostRuntime,
        name: &str,
        change: &Shared<Change>,
    ) -> Result<(), Stop> {
        let verdict = self.taken_in(rt.alloc(), change)?;
        let change = change.get();
        if let Verdict::Applied = verdict {
            self.parts.set(rt.alloc(), change)?;
        }
        self.parts.note(&change.stamp)?;
        self.end(rt, name, Answer::Verdict(verdict))
    }

    fn hear(&mut self, rt: &HostRuntime, name: &str, report: &Report) -> Result<(), Stop> {
        self.heard(rt.alloc(), report)?;
        self.parts.hear(rt.alloc(), report)?;
        self.end(rt, name, Answer::Heard)
    }

    pub fn report(&mut self, rt: &HostRuntime, name: &str) -> Result<Posting, Stop> {
        let Report { at, own, to, .. } = anew!(self.parts.report(rt.alloc()))?;
        let report = self.reported(rt.alloc())?;
        if (at, own, to) != (report.at, report.own, report.to) {
            return Err(Stop::Otherwise);
        }
        self.end(rt, name, Answer::Report(&report))?;
        let report = anew!(Shared::new(rt.alloc(), anew!(report.copy(rt.alloc()))?))?;
        let mail = Mail::Report { shard: 0, report };
        Ok(Posting { mail, to })
    }

    pub fn sweep(&mut self, rt: &HostRuntime, name: &str, moment: u64) -> Result<(), Stop> {
        let expired = self.swept(rt.alloc(), moment)?;
        if self.parts.sweep(rt.alloc(), moment)? != expired {
            return Err(Stop::Otherwise);
        }
        self.end(rt, name, Answer::Expired(expired))
    }

    /// Gives the third member what was made here, which is one change. No courier takes it.
    pub fn give_own(&mut self, rt: &HostRuntime, name: &str) -> Result<Posting, Stop> {
        let Gift::Own(mut changes) = self.given(rt.alloc(), 3, What::Own)? else {
            return Err(Stop::Otherwise);
        };
        self.parts.to |= 4;
        self.end(rt, name, Answer::Own(changes.len()))?;
        let change = changes.pop().ok_or(Stop::Otherwise)?;
        let mail = Mail::Change { shard: 0, change };
        Ok(Posting { mail, to: 0 })
    }

    /// Gives the third member an image of the shard, in which nothing stands.
    pub fn give_image(&mut self, rt: &HostRuntime, name: &str) -> Result<Image, Stop> {
        let Image {
            from,
            at,
            floor,
            ..
        } = anew!(self.parts.image(rt.alloc()))?;
        let Gift::Image(image) = self.given(rt.alloc(), 3, What::Image)? else {
            return Err(Stop::Otherwise);
        };
        if (from, at, floor) != (image.from, image.at, image.floor) {
            return Err(Stop::Otherwise);
        }
        self.parts.to |= 4;
        self.end(rt, name, Answer::Image(&image))?;
        Ok(image)
    }

    pub fn merge(&mut self, rt: &HostRuntime, name: &str, image: &Image) -> Result<(), Stop> {
        self.merged(rt.alloc(), image)?;
        self.parts.merge(image)?;
        self.end(rt, name, Answer::Image(image))
    }
}
