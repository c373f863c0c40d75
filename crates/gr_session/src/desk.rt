use gr_member::{Member, Plan};

// Where a client is served: its member, what that is planned to be, and the client's number.
#[derive(Drop)]
pub(crate) struct Desk<'a> {
    pub(crate) member: &'a Member,
    pub(crate) plan: Plan,
    pub(crate) client: u8,
}
