//! Replay: the one record that a script's lines define.
#![tactic(auto)]

mod cell;
mod gone;
mod grid;
mod joining;
mod laws;
mod made;
mod noted;
mod place;
mod querying;
mod replaying;
mod row;
mod rows;
mod site;
mod stage;
mod step;
mod task;
mod tellings;
mod world;

pub use gone::is_gone;
pub use laws::{laws_of_courses, records_keep_the_laws};
pub use replaying::replay;
pub use rows::{
    a_joiner_that_never_joined_is_not_waited_for, a_joiner_that_was_given_to_is_waited_for,
    a_repeat_is_told, an_image_drops_a_tombstone, concurrent_puts_meet,
};
pub use site::Site;
pub use stage::Stage;
pub use task::Task;
pub use world::World;
