/// What becomes of a change that is taken in.
#[derive(Clone, Copy)]
pub enum Verdict {
    /// It stands from now on.
    Applied,
    /// It loses to what stands.
    Discarded,
    /// It came in before.
    Repeat,
}
