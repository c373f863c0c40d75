//! The words of the program, the call that answers them, and the texts of its causes.
#![tactic(auto)]

mod answering;
mod arguments;
mod asking;
mod cause;
mod cause_texts;
mod concluding;
mod giving;
mod handing;
mod member_words;
mod report_texts;
mod running;
mod words;

pub use answering::replay_words;
pub use arguments::{Arguments, StdArguments, given_words};
pub use cause::{Cause, Outcome};
pub use cause_texts::cause_text;
pub use concluding::{conclude, program};
pub use running::georep;
