/// Where a member's shard is.
#[derive(Clone, Copy)]
pub struct Site {
    pub member: u8,
    pub shard: u8,
}
