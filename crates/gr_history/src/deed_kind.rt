/// Which kind of deed it is.
#[derive(Clone, Copy)]
pub enum DeedKind {
    Call,
    Asked,
    Taken,
    Gave,
    Imaged,
    Reported,
    Heard,
    Swept,
}
