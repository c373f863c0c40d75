use gr_history::{Ask, Done, Gift, Image, QueryAsk, QueryReply, Verdict, What};
use gr_stamp::Change;
use gr_value::Shared;
use gr_vector::Report;

/// What is to be done at a shard next, named as the call that does it.
#[derive(Drop)]
pub enum Next<'a> {
    Call {
        client: u8,
        seq: u32,
        ask: &'a Ask,
    },
    Query {
        client: u8,
        seq: u32,
        ask: &'a QueryAsk,
    },
    TakeIn {
        change: &'a Shared<Change>,
    },
    Give {
        to: u8,
        what: What,
    },
    Merge {
        image: &'a Image,
    },
    Tell,
    Hear {
        report: &'a Report,
    },
    Sweep {
        moment: u64,
    },
}

/// What the call answers.
#[derive(Drop)]
pub enum Came {
    Done(Done),
    Reply(QueryReply),
    Verdict(Verdict),
    Gift(Gift),
    Merged,
    Told(Report),
    Heard,
    Swept(u64),
}
