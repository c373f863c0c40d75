use gr_history::Reply;

/// What a client is told of its call: the reply, and whether a change was made.
#[derive(Drop)]
pub struct Served {
    pub reply: Reply,
    pub made: bool,
}
