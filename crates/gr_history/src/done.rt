use crate::Reply;
use gr_stamp::Change;
use gr_value::Shared;

/// What a call gives: the reply, the change that was made, and the members that it goes to, with bit
/// m - 1 for member m.
#[derive(Drop)]
pub struct Done {
    pub reply: Reply,
    pub made: Option<Shared<Change>>,
    pub to: u8,
}
