//! What happened at a shard, as a list of deeds that only grows, and what a run leaves.
#![tactic(auto)]

mod ask;
mod cause;
mod deed;
mod deed_kind;
mod done;
mod entry;
mod history;
mod identity;
mod image;
mod limits;
mod query_ask;
mod query_reply;
mod query_rows;
mod record;
mod reply;
mod rows;
mod verdict;

pub use ask::Ask;
pub use cause::Cause;
pub use deed::Deed;
pub use deed_kind::DeedKind;
pub use done::Done;
pub use entry::{Entry, lent};
pub use history::History;
pub use identity::Identity;
pub use image::{Gift, Image, What};
pub use limits::vectors_hold_all_versions;
pub use query_ask::QueryAsk;
pub use query_reply::{QueryReply, QueryReplyList, Row, RowList};
pub use query_rows::{
    a_query_is_stopped_and_closed, a_query_is_told_of_changes, an_invalidated_key_stays,
};
pub use record::{
    Answer, AnswerList, ClientRecord, ClientRecordList, MemberRecord, MemberRecordList, Record,
    Region, ShardRecord, ShardRecordList,
};
pub use reply::{Reply, Told};
pub use rows::{
    a_joiner_counts_once_it_is_given_to, a_joiner_waits_for_its_image, a_late_put_is_discarded,
    a_put_passes_an_expired_tombstone,
};
pub use verdict::Verdict;
