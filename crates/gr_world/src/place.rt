use crate::site::Site;

/// Where a deed stands: its shard, and its place in the history there, counted from 0.
#[derive(Clone, Copy)]
pub struct DeedPlace {
    pub site: Site,
    pub at: u64,
}
