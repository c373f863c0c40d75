// What a call of each name answers.
ghost use Rattle.std.specs.Prelude.{◌≡◌};
ghost use Rattle.gr_history.specs.declared.image.Gift.{Gift};
ghost use Rattle.gr_history.specs.declared.query_reply.QueryReply.{QueryReply};
ghost use Rattle.gr_shard.specs.declared.next.Came.TheVariants as came_;
ghost use Rattle.gr_vector.specs.declared.report.Report.{Report};
ghost use Rattle.std.specs.Prelude.{ℕ};

use gr_history::{Gift, QueryReply};
use gr_shard::Came;
use gr_vector::Report;

pub(crate) fn reply_in(came: Came) -> QueryReply
    requires { (reply : QueryReply) × (came ≡ came_.Reply reply) }
    ensures { came ≡ came_.Reply result }
{
    let Came::Reply(reply) = came else {
        unreachable!()
    };
    reply
}

pub(crate) fn gift_in(came: Came) -> Gift
    requires { (gift : Gift) × (came ≡ came_.Gift gift) }
    ensures { came ≡ came_.Gift result }
{
    let Came::Gift(gift) = came else {
        unreachable!()
    };
    gift
}

pub(crate) fn report_in(came: Came) -> Report
    requires { (report : Report) × (came ≡ came_.Told report) }
    ensures { came ≡ came_.Told result }
{
    let Came::Told(report) = came else {
        unreachable!()
    };
    report
}

pub(crate) fn count_in(came: Came) -> u64
    requires { (count : ℕ) × (came ≡ came_.Swept count) }
    ensures { came ≡ came_.Swept result }
{
    let Came::Swept(count) = came else {
        unreachable!()
    };
    count
}
