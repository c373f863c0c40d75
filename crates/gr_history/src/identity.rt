/// Which shard of which member this is. The members 1 to `founders` are ready from the start; shards
/// are counted from 0.
#[derive(Clone, Copy)]
pub struct Identity {
    pub member: u8,
    pub members: u8,
    pub founders: u8,
    pub shard: u8,
    pub shards: u8,
}
