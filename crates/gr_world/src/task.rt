use gr_history::Image;
use gr_stamp::Change;
use gr_value::Shared;
use gr_vector::Report;

/// What is done at a shard, beside a client's steps.
#[derive(Clone, Copy)]
pub enum Task<'a> {
    /// A change comes.
    Take(&'a Shared<Change>),
    /// An image of this shard comes.
    Merge(&'a Image),
    /// A report is made.
    Report,
    /// Another member's report comes.
    Hear(&'a Report),
    /// A sweep goes through, at a moment in seconds.
    Sweep(u64),
}
