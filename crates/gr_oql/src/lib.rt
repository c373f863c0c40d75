//! Queries: their text, what it asks for, of which values it holds, and what they tell of changes.
#![tactic(auto)]

mod clauses;
mod comparisons;
mod condition;
mod conditions;
mod cursor;
mod event;
mod fault;
mod halt;
mod keyword;
mod laws;
mod lexeme;
mod like;
mod matching;
mod must;
mod query;
mod terms;
mod truth;

pub use event::{BaseOp, Event, EventList, QueryOp, Turned, classify};
pub use fault::{OqlFault, Part};
pub use laws::{matches_meet_what_they_must, texts_ask_by_the_grammar};
pub use must::{Must, MustList};
pub use query::Query;
pub use truth::Truth;
