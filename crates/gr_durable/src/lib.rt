//! Tables of clients' queries, which outlive the absence of their clients.
#![tactic(auto)]

mod expanded;
mod expander;
mod expanding;
mod gathered;
mod held;
mod laws;
mod numbers;
mod playing;
mod printing;
mod table;
mod tabling;

pub use expanded::expand;
pub use expander::{Expander, Turn};
pub use expanding::expanded_scripts_are_scripts;
pub use laws::{
    tables_are_of_open_queries, tables_are_results, tables_follow_answers,
    tables_of_a_shard_are_results,
};
pub use printing::print_tables;
pub use table::{Table, TableList};
pub use tabling::tables;
