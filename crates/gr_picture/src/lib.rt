//! The picture of what a run did, an SVG: each member's history of a shard is a row of deeds, and an arrow
//! leads to each deed from the one that it comes from. Below stands what each member holds at the end.
#![tactic(auto)]

mod cause;
mod deed;
mod drawing;
mod elements;
mod frame;
mod halt;
mod layout;
mod legend;
mod letters;
mod measures;
mod pen;
mod picture;
mod reading;
mod rows;
mod running;
mod shapes;
mod standing;
mod style;
mod telling;

pub use cause::Cause;
pub use drawing::drawn;
pub use halt::Halt;
pub use running::program;
