use crate::{History, QueryReplyList, Reply};
use gr_stamp::ChangeList;
use gr_value::{ItemList, Value};
use gr_vector::Vector;

/// What stands at a shard after its last deed.
#[derive(Drop)]
pub struct Region {
    /// The puts that stand, in the order of their keys.
    pub rows: ChangeList,
    /// How many keys have a removal standing.
    pub tombstones: u64,
    pub floor: u64,
    /// All ids that are known.
    pub vector: Vector,
}

/// What a run leaves of one shard.
#[derive(Drop)]
pub struct ShardRecord {
    pub history: History,
    pub region: Region,
}

pub type ShardRecordList = ItemList<ShardRecord>;

/// What a run leaves of one member.
#[derive(Drop)]
pub struct MemberRecord {
    pub member: u8,
    pub shards: ShardRecordList,
}

pub type MemberRecordList = ItemList<MemberRecord>;

/// What a client was told at one of its steps.
#[derive(Drop)]
pub enum Answer {
    Reply(Reply),
    /// The value that was present at the key, and how long the history of its shard was.
    Peeked { value: Option<Value>, at: u64 },
    /// What each shard told of a query, from shard 0 on.
    Asked(QueryReplyList),
}

pub type AnswerList = ItemList<Answer>;

/// What a run leaves of one client.
#[derive(Drop)]
pub struct ClientRecord {
    pub client: u8,
    pub member: u8,
    pub answers: AnswerList,
}

pub type ClientRecordList = ItemList<ClientRecord>;

/// All that a run leaves.
#[derive(Drop)]
pub struct Record {
    pub members: MemberRecordList,
    pub clients: ClientRecordList,
}
