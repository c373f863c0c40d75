ghost use Rattle.std.specs.Prelude.{◌≡◌, IfOk, IfErr};
ghost use Rattle.gr_session.specs.Mailing.{CanPost, HaveDelivered};

use crate::session::Session;
use gr_history::ClientRecord;
use gr_member::Pass;
use gr_post::{InboxList, SendPassList};
use gr_value::Memory;
use std::sync::Wait;

impl Session {
    /// Sends all that waits, and an `End` behind it to each inbox. Where memory is refused, only an `End`
    /// is sent, and the pass comes back all the same.
    pub fn finish<R: Wait + Sync>(
        self,
        rt: &R,
        inboxes: &InboxList,
    ) -> Result<(Pass, ClientRecord, SendPassList), (Memory, Pass)>
        requires { CanPost inboxes.now self.plan.members self.courier }
        ensures pass { IfOk result (λ left. left.0 ≡ self.pass) }
        ensures told { IfOk result (λ left.
            left.1 ≡ record { client = self.client; member = self.plan.member; answers = self.answers }) }
        ensures sent { IfOk result (λ left. HaveDelivered self.courier left.2) }
        ensures back { IfErr result (λ left. left.1 ≡ self.pass) }
    {
        let Session {
            client,
            plan,
            steps: _,
            answers,
            pass,
            mut courier,
        } = self;
        let Ok(()) = courier.last() else {
            courier.stop();
            courier.flush(rt, inboxes);
            return Err((Memory, pass));
        };
        courier.flush(rt, inboxes);
        let told = ClientRecord {
            client,
            member: plan.member,
            answers,
        };
        Ok((pass, told, courier.passes()))
    }

    /// Sends an `End` to each inbox in place of all that waits, and hands the pass back. It takes no memory.
    pub fn stop<R: Wait + Sync>(self, rt: &R, inboxes: &InboxList) -> Pass
        requires { CanPost inboxes.now self.plan.members self.courier }
        ensures { result ≡ self.pass }
    {
        let Session {
            client: _,
            plan: _,
            steps: _,
            answers: _,
            pass,
            mut courier,
        } = self;
        courier.stop();
        courier.flush(rt, inboxes);
        pass
    }
}
