/// A client's step, by its number among those of the client.
#[derive(Clone, Copy)]
pub struct StepName {
    pub client: u8,
    pub seq: u32,
}
