use gr_history::Answer;

/// Is told of each step right before and right after it. It has no meaning: a test puts steps side by side
/// with it.
pub trait Gate: Sync {
    fn before(&self, client: u8, seq: u32);

    fn after(&self, client: u8, seq: u32, answer: &Answer);
}

/// Lets each step pass.
pub struct FreeGate;

impl Gate for FreeGate {
    fn before(&self, _client: u8, _seq: u32) {}

    fn after(&self, _client: u8, _seq: u32, _answer: &Answer) {}
}
