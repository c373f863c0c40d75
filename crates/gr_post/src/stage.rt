/// Whether a courier takes mails still, has its last mail, or was stopped.
#[derive(Clone, Copy, PartialEq, Eq)]
pub enum Stage {
    Open,
    Ended,
    Stopped,
}
