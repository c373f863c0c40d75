// What each thread is given, and what it leaves.
use crate::gathering::Left;
use gr_host::{DutyList, Ends, Host};
use gr_member::Plan;
use gr_post::{Courier, TakePass};
use gr_script::StepList;
use gr_session::Client;

/// Whose thread it is.
pub enum Worker {
    Client(Client),
    Member(Host),
}

/// A thread, by the place of its member: its worker before it runs, and what it left behind that.
pub struct Slot {
    pub home: usize,
    pub worker: Option<Worker>,
    pub left: Option<Left>,
}

/// What a client's thread is given, but for its pass: its number, its member's plan, whether it waits until
/// the member is ready, its steps, and its courier.
#[derive(Drop)]
pub struct ClientKit {
    pub client: u8,
    pub plan: Plan,
    pub waits: bool,
    pub steps: StepList,
    pub courier: Courier,
}

/// What a member's thread is given, but for its passes.
#[derive(Drop)]
pub struct MemberKit {
    pub plan: Plan,
    pub duties: DutyList,
    pub take: TakePass,
    pub courier: Courier,
    pub ends: Ends,
}
